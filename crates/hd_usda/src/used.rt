//! The values of used properties.

pub mod elements;
pub mod numbers;
pub mod targets;
pub mod values;
