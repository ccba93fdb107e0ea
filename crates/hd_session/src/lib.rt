//! A session: the commands of a script, one after the other.
#![tactic(auto)]

mod acts;
mod laws;
mod refusal;
mod session;

pub use laws::{
    dumps_tell_what_is_committed, other_commands_are_later, silent_commands_write_nothing,
    states_ignore_tiles, steps_have_own_causes,
};
pub use refusal::{Refusal, ScriptWhy};
pub use session::Session;
