//! Reader of the lines of a script.
#![tactic(auto)]

mod command;
mod commands;
mod fault;
mod fields;
mod laws;
mod read;
mod words;

pub use command::Command;
pub use fault::LineFault;
pub use laws::lines_want_no_memory;
pub use read::read_line;
