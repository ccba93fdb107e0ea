//! What the rows of an index draw.

ghost use Rattle.std.specs.Prelude.{◌≡◌, ◌^◌, ◌≤◌, ◌<◌, length, IfOk, IfSome};
ghost use Rattle.std.specs.Option.{option_copied};
ghost use Rattle.hd_picture.specs.Limits.{IsDrawable, IsFrameSize, IsPointWithin};
ghost use Rattle.hd_rprim.specs.PrimRows.{rows_of};
ghost use Rattle.hd_draws.specs.Cameras.{eye};
ghost use Rattle.hd_draws.specs.DrawList.{draw_list};

use crate::index::RenderIndex;
use hd_draws::{DrawsFault, draw_list};
use hd_num::Vec3;
use hd_path::Path;
use hd_picture::Draws;
use std::alloc::Global;

impl RenderIndex {
    /// The place of the camera at a path, or of the default one where no path is given. `None` exactly where no camera is at
    /// the path or its matrix is out of range.
    pub fn camera(&self, path: Option<&Path>) -> Option<Vec3>
        ensures place { result ≡ eye (rows_of self.now) (option_copied path.entry) }
        ensures near { IfSome result (IsPointWithin (2 ^ 30)) }
    {
        let (rows, _) = self.parts();
        hd_draws::camera(rows, path)
    }

    /// The triangles that the rows draw, for a frame of this size in pixels that is seen from an eye.
    ///
    /// # Errors
    ///
    /// `Triangles` exactly where there are more than 1,048,576 triangles, or out of memory.
    pub fn draws(
        &self,
        alloc: Global,
        eye: Vec3,
        width: u32,
        height: u32,
    ) -> Result<Draws, DrawsFault>
        requires width { IsFrameSize width }
        requires height { IsFrameSize height }
        requires eye { IsPointWithin (2 ^ 30) eye }
        ensures frame { IfOk result (λ draws. draws ≡ record { tris = draw_list (rows_of self.now); eye = eye; width = width; height = height }) }
        ensures drawable { IfOk result IsDrawable }
        ensures few { IfOk result (λ draws. length draws.tris ≤ 2 ^ 20) }
        ensures many { result ≡ Err DrawsFault.Triangles → 2 ^ 20 < length (draw_list (rows_of self.now)) }
    {
        let (rows, registry) = self.parts();
        Ok(Draws {
            tris: draw_list(alloc, rows, registry)?,
            eye,
            width,
            height,
        })
    }
}
