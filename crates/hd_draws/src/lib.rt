//! The triangles that the rows of an index draw, and the place of a camera.
#![tactic(auto)]

mod cameras;
mod contents;
mod drawing;
mod fault;
mod laws;
mod meshes;
mod near;
mod placements;
mod squares;
mod triangles;

pub use cameras::camera;
pub use drawing::draw_list;
pub use fault::DrawsFault;
pub use laws::{
    corners_name_points, invisible_draws_nothing, other_rows_draw_nothing,
    rows_without_instancers_are_placed_once,
};
