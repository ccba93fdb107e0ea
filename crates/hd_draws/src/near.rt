//! Points that are near enough to the middle of the world to be drawn.

ghost use Rattle.std.specs.Prelude.{◌≡◌, ◌^◌};
ghost use Rattle.hd_num.specs.Matrices.{is_within};
ghost use Rattle.hd_num.specs.Points.{transform_point};
ghost use Rattle.hd_draws.specs.DrawList.{if_near};

use hd_num::{Matrix, Vec3};

/// The greatest coordinate that is drawn, on either side of 0.
const LIMIT: u64 = 1 << 24;

/// The point, if it is near enough to be drawn.
pub(crate) fn if_near(point: Vec3) -> Option<Vec3>
    ensures { result ≡ if_near point }
{
    if is_near(point.x) && is_near(point.y) && is_near(point.z) {
        Some(point)
    } else {
        None
    }
}

/// Where a matrix moves a point, if that is near enough to be drawn.
pub(crate) fn near_image(matrix: &Matrix, point: Vec3) -> Option<Vec3>
    ensures { result ≡ if_near (transform_point point matrix.now) }
{
    if_near(matrix.apply(point)?)
}

fn is_near(coordinate: i64) -> bool
    ensures { result ≡ is_within (2 ^ 24) coordinate }
{
    coordinate.unsigned_abs() <= LIMIT
}
