//! Several layers as one scene that is edited, layer by layer.
#![tactic(auto)]

mod laws;
mod stack;

pub use laws::{
    composing_is_associative, scenes_are_bounded, scenes_have_flat_values,
    the_strongest_value_stands,
};
pub use stack::{Stack, Terminal};
