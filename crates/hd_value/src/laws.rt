//! What holds of every set of locators, and of every value.

ghost use Rattle.hd_value.specs.Laws.{InsertedIntersects, FlattenedHaveOneGroup, InstancedHaveOneGroup};

/// A set into which a locator was inserted intersects what it intersected before, and what that locator intersects.
pub fn inserted_intersects()
    ensures { InsertedIntersects }
{}

/// Each value that may be there before flattening, and each one after it, is under the locators of exactly one group.
pub fn values_have_one_group()
    ensures before { InstancedHaveOneGroup }
    ensures flattened { FlattenedHaveOneGroup }
{}
