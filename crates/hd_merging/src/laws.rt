//! What holds of every merged scene.

ghost use Rattle.hd_merging.specs.Laws.{MergesPathByPath, MergesAllPaths, MergesValues, MergesStrongest, MergesOne, MergesWeakerFirst, MergesStrongerFirst, MergesClosed, MergedConforms};

/// A path is in the merged scene where one of the scenes has it, with the first kind that is not empty. A value is kept
/// unless a stronger scene has one at an intersecting locator. Where no value of the scenes is above another one, each
/// comes from the strongest scene that has one at its locator.
pub fn merging_is_path_by_path()
    ensures prims { MergesPathByPath }
    ensures paths { MergesAllPaths }
    ensures values { MergesValues }
    ensures strongest { MergesStrongest }
{}

/// One scene alone stays as it is. The weaker scenes may be merged first, and the stronger ones too where no value of
/// theirs is above another one.
pub fn merging_is_associative()
    ensures one { MergesOne }
    ensures weaker_first { MergesWeakerFirst }
    ensures stronger_first { MergesStrongerFirst }
{}

/// Merged scenes are closed where each is, and conform to a schema where each does.
pub fn merging_keeps_form()
    ensures closed { MergesClosed }
    ensures conforms { MergedConforms }
{}
