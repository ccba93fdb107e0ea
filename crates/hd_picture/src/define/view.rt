//! From the world and from pixels to points of the picture.

ghost use Rattle.std.specs.Prelude.{◌≡◌, ◌^◌, pos, ◌-ℤ◌, ◌*ℤ◌};
ghost use Rattle.hd_picture.specs.Limits.{IsPointWithin, IsTriWithin, IsWithin};
ghost use Rattle.hd_picture.specs.define.View.{pixel_center, screen_point};
ghost use Rattle.hd_picture.specs.inner.View.{IsScreenTriangle};

use crate::draws::WorldTri;
use hd_num::Vec3;

/// A point of the picture. One pixel is two units wide and two high, and the middle of the picture
/// is at (0, 0).
#[derive(Clone, Copy)]
pub struct ScreenPoint {
    pub x: i64,
    pub y: i64,
}

/// The corners of a triangle where an eye sees them.
#[derive(Clone, Copy)]
pub struct ScreenTriangle {
    pub a: ScreenPoint,
    pub b: ScreenPoint,
    pub c: ScreenPoint,
}

/// The center of the pixel in column `x` of row `y`.
pub fn pixel_center(width: u32, height: u32, x: u32, y: u32) -> ScreenPoint
    ensures { result ≡ pixel_center width height x y }
{
    ScreenPoint {
        x: 2 * i64::from(x) + 1 - i64::from(width),
        y: i64::from(height) - (2 * i64::from(y) + 1),
    }
}

/// Where the eye sees the corners of a triangle.
pub fn screen_triangle(eye: Vec3, tri: &WorldTri) -> ScreenTriangle
    requires eye { IsPointWithin (2 ^ 30) eye }
    requires corners { IsTriWithin (2 ^ 24) tri.now }
    ensures { IsScreenTriangle eye tri.now result }
{
    ScreenTriangle {
        a: screen_point(eye, tri.a),
        b: screen_point(eye, tri.b),
        c: screen_point(eye, tri.c),
    }
}

/// Where the eye sees a point of the world.
fn screen_point(eye: Vec3, point: Vec3) -> ScreenPoint
    requires eye { IsPointWithin (2 ^ 30) eye }
    requires point { IsPointWithin (2 ^ 24) point }
    ensures { result ≡ screen_point eye point }
{
    ScreenPoint {
        x: doubled(eye.x, point.x),
        y: doubled(eye.y, point.y),
    }
}

/// Twice the difference from one number to another.
fn doubled(from: i64, to: i64) -> i64
    requires from { IsWithin (2 ^ 30) from }
    requires to { IsWithin (2 ^ 24) to }
    ensures { result ≡ pos 2 *ℤ (to -ℤ from) }
{
    2 * (to - from)
}
