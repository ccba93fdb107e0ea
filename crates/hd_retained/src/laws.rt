//! What holds of every layer and of its scene.

ghost use Rattle.hd_retained.specs.Laws.{ScenesHaveKinds, ScenesHaveValues, TextsSpellLayers, RenamingMoves};

/// The scene of a layer has its prims, each with its kind, and at each locator with the value of the property that is
/// there. A text that is read spells its prims with what they author, and no other prim.
pub fn scenes_have_what_is_authored()
    ensures kinds { ScenesHaveKinds }
    ensures values { ScenesHaveValues }
    ensures spelled { TextsSpellLayers }
{}

/// A renaming moves all that is at and below its first path, leaves nothing there, and keeps all else.
pub fn renaming_moves_all_below()
    ensures { RenamingMoves }
{}
