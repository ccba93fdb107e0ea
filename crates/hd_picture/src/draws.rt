//! What a picture is drawn from.

ghost use Rattle.std.specs.Prelude.{◌≡◌, IfOk};

use hd_num::{List, Rgb, Vec3};
use std::alloc::AllocError;

/// A triangle of the world in one color. Both of its sides are seen.
#[derive(Clone, Copy, Debug, PartialEq, Eq)]
pub struct WorldTri {
    pub a: Vec3,
    pub b: Vec3,
    pub c: Vec3,
    pub color: Rgb,
}

/// The triangles of a picture, the position of the eye, and the picture's size in pixels.
#[derive(Drop)]
pub struct Draws {
    pub tris: List<WorldTri>,
    pub eye: Vec3,
    pub width: u32,
    pub height: u32,
}

impl Draws {
    /// The same picture's draws, which share the triangles of these.
    pub fn copy(&self) -> Result<Draws, AllocError>
        ensures { IfOk result (λ copied. copied ≡ self.now) }
    {
        Ok(Draws {
            tris: self.tris.copy()?,
            eye: self.eye,
            width: self.width,
            height: self.height,
        })
    }
}
