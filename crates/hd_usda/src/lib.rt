//! Reader of scene texts in a profile of usda.
#![tactic(auto)]

mod grammar;
mod laws;
mod layer;
mod reading;
mod statement;
mod used;

pub use hd_layer::{Edit, LayerFault, LayerSpec, LayerWhy, PrimSpec, Property, RawValue, Which};
pub use laws::{
    property_of_script_is_item, repetition_never_runs_out, script_reads_properties_with_values,
};
pub use layer::read_layer;
pub use statement::read_property;
