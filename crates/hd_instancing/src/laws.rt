//! What holds of every instanced scene.

ghost use Rattle.hd_instancing.specs.Laws.{InstancersAscend, InstancersHaveTargets, NoTargetsInstanceNothing, StaysWithoutInstancers, InstancedIsClosed, InstancedConforms};

/// The instancers of a prim are in path order, each once. A path is among them exactly where it is an instancer one of
/// whose targets is a prefix of the prim's path. An instancer without targets instances nothing.
pub fn instancers_have_targets()
    ensures ascend { InstancersAscend }
    ensures have { InstancersHaveTargets }
    ensures none { NoTargetsInstanceNothing }
{}

/// Without instancers the instanced scene is the scene. It is closed where the scene is, and has the values that
/// instancing gives where the scene has those that layers author.
pub fn instanced_is_a_scene()
    ensures stays { StaysWithoutInstancers }
    ensures closed { InstancedIsClosed }
    ensures conforms { InstancedConforms }
{}
