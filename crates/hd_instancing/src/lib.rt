//! The instancers of prims, by their prototypes: a filter of scenes.
#![tactic(auto)]

mod instancing;
mod laws;
mod marking;
mod table;
mod targets;

pub use instancing::Instancing;
pub use laws::{instanced_is_a_scene, instancers_have_targets};
