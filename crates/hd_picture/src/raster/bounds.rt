//! Triangles that are outside of a tile.

ghost use Rattle.std.specs.Prelude.{◌↔◌, IsTrue, ◌≤ℤ◌};
ghost use Rattle.hd_picture.specs.inner.Bounds.{AreDisjoint, IsOutsideTile};
ghost use Rattle.hd_picture.specs.inner.Window.{IsWindow};

use crate::define::view::ScreenTriangle;
use crate::raster::window::{Window, tile_pixel_center};

/// Whether a triangle's bounds and that of the tile's centers have no point in common.
pub fn is_outside_tile(screen: ScreenTriangle, window: Window) -> bool
    requires { IsWindow window }
    ensures { IsTrue result ↔ IsOutsideTile screen window }
{
    let first = tile_pixel_center(window, 0);
    let last = tile_pixel_center(window, 255);
    if are_disjoint(screen.a.y, screen.b.y, screen.c.y, last.y, first.y) {
        return true;
    }
    are_disjoint(screen.a.x, screen.b.x, screen.c.x, first.x, last.x)
}

/// Whether the range of three numbers ends before that from `least` to `most`, or begins after it.
fn are_disjoint(a: i64, b: i64, c: i64, least: i64, most: i64) -> bool
    requires { least ≤ℤ most }
    ensures { IsTrue result ↔ AreDisjoint a b c least most }
{
    a.max(b.max(c)) < least || most < a.min(b.min(c))
}
