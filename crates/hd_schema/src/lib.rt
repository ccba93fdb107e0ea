//! From the used properties of a prim to its values: where the value of each property is, and what it becomes.
#![tactic(auto)]

mod authoring;
mod locating;
mod op_values;
mod values;

pub use authoring::to_container;
pub use locating::locators_of;
