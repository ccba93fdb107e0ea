//! The same picture, drawn fast: tile by tile, each with a depth buffer.

pub mod bounds;
pub mod depth_buffer;
pub mod depth_fraction;
pub mod edge_stepping;
pub mod rasterize;
pub mod tiles;
pub mod triangle_setup;
pub mod window;
