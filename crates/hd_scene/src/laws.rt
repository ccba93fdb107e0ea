//! What holds of every scene and every list of notices.

ghost use Rattle.hd_scene.specs.Laws.{TellingComposes, NothingIsTold, AddedIsTold, RemovedIsTold, DirtiedIsTold, UntoldKeepTheirKinds, ToldWhereBothAre, ChildrenStandBelow, ChildrenAreOneList, AbsentHasNoChildren};

/// Notice lists compose: concatenated, they tell both steps.
pub fn telling_composes()
    ensures { TellingComposes }
{}

/// A step that changes nothing is told by no notice. A prim that is put at a path is told as added, prims that are taken
/// out at and below a path as removed, and a prim that keeps its kind as dirtied, by a set that intersects each locator at
/// which its values differ.
pub fn single_steps_are_told()
    ensures nothing { NothingIsTold }
    ensures added { AddedIsTold }
    ensures removed { RemovedIsTold }
    ensures dirtied { DirtiedIsTold }
{}

/// A prim that is not resynced keeps its kind, or is absent before and after. So notices tell a step where they tell kinds,
/// and values of the prims that are in both scenes.
pub fn untold_prims_keep_their_kinds()
    ensures kinds { UntoldKeepTheirKinds }
    ensures both { ToldWhereBothAre }
{}

/// The children of a path are one list: the names of the prims immediately below it, each once and in byte order. A path
/// other than the root at which no prim is has none.
pub fn children_stand_below()
    ensures below { ChildrenStandBelow }
    ensures one { ChildrenAreOneList }
    ensures absent { AbsentHasNoChildren }
{}
