//! What holds of the steps of every session.

ghost use Rattle.hd_session.specs.Laws.{OthersAreLater, StepsHaveOwnCauses, StatesIgnoreTiles, SilentWriteNothing, DumpsTellWhatIsCommitted};

/// A command that is not served is refused as one that comes later, whatever the state.
pub fn other_commands_are_later()
    ensures { OthersAreLater }
{}

/// A step is refused for what an edit meets in its layer, for a layer that is not there, or because its command comes
/// later. So `WriteFault` and `NoMemory` are never what the step itself asks for.
pub fn steps_have_own_causes()
    ensures { StepsHaveOwnCauses }
{}

/// The state after a step, or its refusal, is the same for all counts of tiles.
pub fn states_ignore_tiles()
    ensures { StatesIgnoreTiles }
{}

/// An edit, a choice of a layer and a command that is not served write nothing.
pub fn silent_commands_write_nothing()
    ensures { SilentWriteNothing }
{}

/// A dump tells the layers as they were committed last, whatever was edited since.
pub fn dumps_tell_what_is_committed()
    ensures { DumpsTellWhatIsCommitted }
{}
