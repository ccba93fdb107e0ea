//! The triangles so far, and the colors and corners that they take.

ghost use Rattle.std.specs.Prelude.{◌≡◌, ◌^◌, ◌≤◌, ◌<◌, [], ◌++◌, length, IfOk, OnOk};
ghost use Rattle.std.specs.List.{cons_option};
ghost use Rattle.hd_draws.specs.DrawList.{world_triangle, color_of};

use crate::fault::DrawsFault;
use hd_num::{List, Rgb, Vec3};
use hd_picture::WorldTri;
use std::alloc::{AllocError, Global};
use std::marker::Model;

const WHITE: Rgb = Rgb {
    r: 255,
    g: 255,
    b: 255,
};

/// How many triangles are drawn at most.
const MAX_TRIANGLES: usize = 1 << 20;

/// A list of triangles that grows to 1,048,576 at most.
#[derive(Drop)]
pub(crate) struct TriangleList {
    tris: Vec<WorldTri>,
}

impl Model for TriangleList {
    ghost use Rattle.std.specs.Prelude.{List, ◌≤◌, ◌^◌, length};
    ghost use Rattle.hd_picture.specs.declared.draws.WorldTri.{WorldTri};

    ghost Value = { List WorldTri };

    ghost view = { λ triangles. triangles.tris.items };

    ghost invariant = { λ triangles. length triangles.tris.items ≤ 2 ^ 20 };
}

impl TriangleList {
    /// No triangles.
    pub(crate) fn new(alloc: Global) -> TriangleList
        ensures { result ≡ [] }
    {
        TriangleList {
            tris: Vec::new(alloc),
        }
    }

    /// Adds a triangle, if there is one.
    pub(crate) fn push(&mut self, tri: Option<WorldTri>) -> Result<(), DrawsFault>
        ensures pushed { OnOk result (self.new ≡ self.old ++ cons_option tri []) }
        ensures many { result ≡ Err DrawsFault.Triangles → 2 ^ 20 < length (self.old ++ cons_option tri []) }
    {
        if let Some(tri) = tri {
            if self.tris.len() >= MAX_TRIANGLES {
                return Err(DrawsFault::Triangles);
            }
            self.tris.push(tri)?;
        }
        Ok(())
    }

    /// The triangles as a list that is shared.
    pub(crate) fn into_list(self, alloc: Global) -> Result<List<WorldTri>, AllocError>
        ensures same { IfOk result (λ tris. tris ≡ self) }
        ensures few { length self ≤ 2 ^ 20 }
    {
        let TriangleList { tris } = self;
        List::of(alloc, tris)
    }
}

/// The triangle of three points, if all three are drawn.
pub(crate) fn world_triangle(
    a: Option<Vec3>,
    b: Option<Vec3>,
    c: Option<Vec3>,
    color: Rgb,
) -> Option<WorldTri>
    ensures { result ≡ world_triangle a b c color }
{
    Some(WorldTri {
        a: a?,
        b: b?,
        c: c?,
        color,
    })
}

/// The color of a number where there are as many colors as numbers, else the first one.
pub(crate) fn color_of(colors: &[Rgb], count: u64, number: u64) -> Rgb
    ensures { result ≡ color_of colors.now count number }
{
    let place = if colors.len() as u64 == count {
        number as usize
    } else {
        0
    };
    match colors.get(place) {
        Some(color) => *color,
        None => WHITE,
    }
}
