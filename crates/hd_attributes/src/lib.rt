//! The rows of layers by their attributes, and that they are those of the layers' scene.
#![tactic(auto)]

mod laws;

pub use laws::rows_are_of_attributes;
