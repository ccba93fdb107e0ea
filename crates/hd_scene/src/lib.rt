//! What a scene index is, and what notices tell of its scene.
#![tactic(auto)]

mod kept;
mod laws;
mod notice;
mod notices;
mod prims;
mod scene_index;
mod walk;

pub use kept::Kept;
pub use laws::{
    children_stand_below, single_steps_are_told, telling_composes, untold_prims_keep_their_kinds,
};
pub use notice::Notice;
pub use notices::Notices;
pub use prims::{Entry, Primitive as Prim};
pub use scene_index::SceneIndex;
pub use walk::all_paths;
