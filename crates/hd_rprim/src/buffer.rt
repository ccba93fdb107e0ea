//! The buffers that rows share.

ghost use Rattle.std.specs.Prelude.{◌≡◌, IfOk};

use hd_num::{List, Rgb, Vec3};
use hd_registry::Content;
use std::alloc::AllocError;

/// A triangle of a mesh: the numbers of its three points, and the number of its face, from 0.
#[derive(Clone, Copy, Debug, PartialEq, Eq)]
pub struct Tri {
    pub a: i64,
    pub b: i64,
    pub c: i64,
    pub face: u64,
}

/// What a row keeps in a registry. Buffers are equal where they are of the same variant and their lists are equal.
#[derive(Drop, PartialEq, Eq)]
pub enum Buffer {
    Points(List<Vec3>),
    Triangles(List<Tri>),
    Colors(List<Rgb>),
}

impl Buffer {
    /// An equal buffer, which shares the list.
    pub fn copy(&self) -> Result<Buffer, AllocError>
        ensures { IfOk result (λ copied. copied ≡ self.now) }
    {
        match self {
            Buffer::Points(points) => Ok(Buffer::Points(points.copy()?)),
            Buffer::Triangles(triangles) => Ok(Buffer::Triangles(triangles.copy()?)),
            Buffer::Colors(colors) => Ok(Buffer::Colors(colors.copy()?)),
        }
    }
}
