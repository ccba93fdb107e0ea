//! The depth of a triangle at a point that it covers.

ghost use Rattle.std.specs.Prelude.{◌≡◌, ◌^◌, pos, ◌*ℤ◌, ◌≤ℤ◌, ◌<ℤ◌};
ghost use Rattle.hd_picture.specs.Limits.{IsTriWithin, IsWithin};
ghost use Rattle.hd_picture.specs.define.Coverage.{total};
ghost use Rattle.hd_picture.specs.define.Depth.{depth, floor_div};
ghost use Rattle.hd_picture.specs.inner.Coverage.{IsCounterClockwise, IsSmall};
ghost use Rattle.hd_picture.specs.inner.Depth.{depth_sum, max_depth};
ghost use Rattle.hd_picture.specs.inner.EdgeStepping.{IsStepWeights};

use crate::define::coverage::Weights;
use crate::draws::WorldTri;

/// The depth at a point that the triangle covers by these weights.
pub fn depth_of(w: Weights, tri: &WorldTri) -> i64
    requires counter_clockwise { IsCounterClockwise w }
    requires corners { IsTriWithin (2 ^ 24) tri.now }
    ensures { result ≡ depth w tri.now }
{
    let tri = *tri;
    let area = w.a + w.b + w.c;
    wide_depth(w, tri, area)
}

/// The greatest depth that the triangle has anywhere.
pub fn max_depth_of(tri: &WorldTri) -> i64
    ensures { result ≡ max_depth tri.now }
{
    tri.a.z.max(tri.b.z.max(tri.c.z))
}

/// The corners' depths, each times a weight of any point of a tile.
pub fn wide_sum(w: Weights, tri: &WorldTri) -> i128
    requires weights { IsSmall w }
    requires corners { IsTriWithin (2 ^ 24) tri.now }
    ensures value { result ≡ depth_sum w tri.now }
    ensures small { IsWithin (2 ^ 90) result }
{
    wide_product(w.a, tri.a.z) + wide_product(w.b, tri.b.z) + wide_product(w.c, tri.c.z)
}

/// The corners' depths, each times the change of a weight from a pixel to the next.
pub fn narrow_sum(w: Weights, tri: &WorldTri) -> i64
    requires weights { IsStepWeights w }
    requires corners { IsTriWithin (2 ^ 24) tri.now }
    ensures value { result ≡ depth_sum w tri.now }
    ensures small { IsWithin (2 ^ 54) result }
{
    narrow_product(w.a, tri.a.z) + narrow_product(w.b, tri.b.z) + narrow_product(w.c, tri.c.z)
}

fn narrow_product(weight: i64, z: i64) -> i64
    requires weight { IsWithin (2 ^ 36) weight }
    requires depth { IsWithin (2 ^ 24) z }
    ensures value { result ≡ weight *ℤ z }
    ensures small { IsWithin (2 ^ 60) result }
{
    weight * z
}

/// The depth by sums in 128 bits.
fn wide_depth(w: Weights, tri: WorldTri, area: i64) -> i64
    requires counter_clockwise { IsCounterClockwise w }
    requires corners { IsTriWithin (2 ^ 24) tri }
    requires area { area ≡ total w }
    ensures { result ≡ depth w tri }
{
    let sum = wide_product(w.a, tri.a.z) + wide_product(w.b, tri.b.z) + wide_product(w.c, tri.c.z);
    wide_floor(sum, area) as i64
}

fn wide_product(weight: i64, z: i64) -> i128
    requires weight { IsWithin (2 ^ 61) weight }
    requires depth { IsWithin (2 ^ 24) z }
    ensures value { result ≡ weight *ℤ z }
    ensures small { IsWithin (2 ^ 85) result }
{
    i128::from(weight) * i128::from(z)
}

fn wide_floor(sum: i128, area: i64) -> i128
    requires { pos 0 <ℤ area }
    ensures { result ≡ floor_div sum area }
{
    sum.div_euclid(i128::from(area))
}
