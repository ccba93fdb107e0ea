//! Pictures by a depth buffer: what each pixel of a list of triangles shows.
//!
//! The eye looks along falling z. One unit of the world is one pixel, x is right and y is up, and
//! the eye's own x and y are in the middle of the picture.
#![tactic(auto)]

mod define;
mod draws;
mod laws;
mod limits;
mod ppm;
mod raster;

pub use define::pixels::pixel;
pub use draws::{Draws, WorldTri};
pub use laws::{
    corners_have_no_order, depths_round_down, depths_stay_between, edges_are_covered,
    neighbours_fit, pixels_show_the_nearest, tiles_make_the_picture,
    triangles_beyond_the_eye_are_unseen, triangles_stay_in_their_boxes,
    unseen_triangles_change_nothing, weights_add_up,
};
pub use limits::is_drawable;
pub use ppm::ppm_of;
pub use raster::tiles::{tile, tile_count};
