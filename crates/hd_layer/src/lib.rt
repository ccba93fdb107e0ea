//! Layers as they are read and edited: their prims and properties, edits, faults, and the limits of the program.
#![tactic(auto)]

mod edit;
mod fault;
mod limits;
mod spec;

pub use edit::Edit;
pub use fault::{LayerFault, LayerWhy};
pub use limits::Which;
pub use spec::{LayerSpec, PrimSpec, Property, RawValue};
