//! What a pixel shows: where the eye sees a triangle, what it covers there, how deep it is, and which
//! one is the nearest.

pub mod coverage;
pub mod depth;
pub mod pixels;
pub mod view;
