//! Several scene indices as one, of which the first is the strongest.
#![tactic(auto)]

mod laws;
mod merging;
mod prims;
mod queries;

pub use laws::{merging_is_associative, merging_is_path_by_path, merging_keeps_form};
pub use merging::Merging;
