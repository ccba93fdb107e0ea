//! One layer that is edited, as a scene index.
#![tactic(auto)]

mod edits;
mod fault;
mod laws;
mod layer;
mod prims;
mod renaming;
mod retained;
mod stored;

pub use fault::EditFault;
pub use laws::{renaming_moves_all_below, scenes_have_what_is_authored};
pub use layer::Layer;
pub use retained::Retained;
