//! Whole-number geometry: shared lists, vectors, colours, matrices and transform ops.
#![tactic(auto)]

mod axis;
pub mod laws;
mod list;
mod matrix;
mod op;
mod vector;

pub use axis::Axis;
pub use list::List;
pub use matrix::Matrix;
pub use op::Op;
pub use vector::{Rgb, Vec3};
