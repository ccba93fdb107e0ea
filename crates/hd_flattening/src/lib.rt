//! What prims take from those above them: a filter of scenes.
#![tactic(auto)]

mod flat;
mod flattening;
mod inherited;
mod laws;
mod local;
mod values;

pub use flattening::Flattening;
pub use laws::{flattened_is_a_scene, invisible_hides, matrices_compose};
