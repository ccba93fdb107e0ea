//! A counter-clockwise triangle, set up to be followed from pixel to pixel.

ghost use Rattle.std.specs.Prelude.{◌≡◌, ◌^◌, pos, ◌<ℤ◌, ◌≤ℤ◌};
ghost use Rattle.hd_picture.specs.Limits.{IsPointWithin, IsTriWithin};
ghost use Rattle.hd_picture.specs.inner.TriangleSetup.{IsArea, IsTriangleSetup};
ghost use Rattle.hd_picture.specs.inner.View.{IsScreenTriangle};

use crate::define::view::{ScreenPoint, ScreenTriangle};
use crate::draws::WorldTri;
use crate::raster::edge_stepping::{EdgeValues, edge_step};
use hd_num::Vec3;

/// The offset from a pixel to the next one of its row.
const RIGHT: ScreenPoint = ScreenPoint { x: 2, y: 0 };

/// The offset from a pixel to that below it.
const DOWN: ScreenPoint = ScreenPoint { x: 0, y: -2 };

/// A counter-clockwise triangle: twice its area, and how it changes from pixel to pixel
/// and from row to row.
#[derive(Clone, Copy)]
pub struct TriangleSetup {
    pub area: i64,
    pub right: EdgeValues,
    pub down: EdgeValues,
}

/// A triangle by its corners and its area.
pub fn triangle_setup(eye: Vec3, tri: &WorldTri, screen: ScreenTriangle, area: i64) -> TriangleSetup
    requires eye { IsPointWithin (2 ^ 30) eye }
    requires corners { IsTriWithin (2 ^ 24) tri.now }
    requires screen { IsScreenTriangle eye tri.now screen }
    requires area { IsArea eye tri.now area }
    requires counter_clockwise { pos 0 <ℤ area }
    requires most { area ≤ℤ pos (2 ^ 61) }
    ensures area { result.area ≡ area }
    ensures setup { IsTriangleSetup eye tri.now result }
{
    TriangleSetup {
        area,
        right: edge_step(eye, tri, screen, area, RIGHT),
        down: edge_step(eye, tri, screen, area, DOWN),
    }
}
