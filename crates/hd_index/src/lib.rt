//! The render index: the rows of a scene, and the buffers that they share.
#![tactic(auto)]

mod frames;
mod index;
mod job;
mod jobs;
mod laws;
mod nowhere;
mod populating;
mod report;
mod table;

pub use hd_draws::DrawsFault;
pub use index::RenderIndex;
pub use laws::rows_share_buffers;
pub use report::{DirtyPath, Report};
