//! The program: what the words of the command line do.
#![tactic(auto)]

mod frame;
mod inputs;
mod laws;
mod layer;
mod reading;
mod script;
mod status;
mod top;
mod words;
mod writing;

pub use laws::{endings_ignore_tiles, outcomes_end_whole};
pub use status::{Place, Status};
pub use top::top_plain;
