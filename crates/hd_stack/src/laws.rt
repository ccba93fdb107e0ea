//! What holds of layers, however they are composed.

ghost use Rattle.hd_stack.specs.Laws.{ComposesOne, ComposesWeakerFirst, ComposesStrongerFirst, ComposesValues, AuthoredIsUnnested, ScenesAreBounded, TerminalConforms};

/// One layer alone gives its own scene. The weaker layers may be composed first, and so may the stronger ones where
/// they are sound, since no value that a text can author may be above another one.
pub fn composing_is_associative()
    ensures one { ComposesOne }
    ensures weaker_first { ComposesWeakerFirst }
    ensures stronger_first { ComposesStrongerFirst }
    ensures unnested { AuthoredIsUnnested }
{}

/// At each locator a prim has the value of the first layer that authors one there.
pub fn the_strongest_value_stands()
    ensures { ComposesValues }
{}

/// Each value of the scene of sound layers is one that flattening gives, where it is.
pub fn scenes_have_flat_values()
    ensures { TerminalConforms }
{}

/// The scene of sound layers has at most 65,536 prims for each of them: a text spells no more, and no edit gives more.
pub fn scenes_are_bounded()
    ensures { ScenesAreBounded }
{}
