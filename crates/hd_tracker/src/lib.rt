//! Which parts of each prim changed: a renderer's tracker of dirty bits.
#![tactic(auto)]

mod below;
mod laws;
mod tracker;

pub use laws::{
    bits_stay_within_the_kind, clear_bits_keep_values, kinds_are_those_of_the_scene,
    tracking_composes,
};
pub use tracker::{Tracked, Tracker};
