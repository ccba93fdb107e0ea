//! The staging of jobs and the registration of what they want.
#![tactic(auto)]

mod syncer;
mod syncing;
mod wants;

pub use syncer::{Plain, Syncer};
pub use wants::{Slots, release_all};
