//! The test whether a picture can be drawn.

ghost use Rattle.std.specs.Prelude.{◌↔◌, ◌^◌, ◌≤ℤ◌, All, IsTrue, pos, unsigned_abs};
ghost use Rattle.hd_picture.specs.Limits.{IsDrawable, IsFrameSize, IsPointWithin, IsTriWithin, IsWithin};

use crate::draws::{Draws, WorldTri};
use hd_num::Vec3;

/// The greatest distance from 0 of an eye's coordinates.
const EYE_BOUND: i64 = 1 << 30;
/// The greatest distance from 0 of a corner's coordinates.
const CORNER_BOUND: i64 = 1 << 24;
/// The greatest width and height.
const FRAME_LIMIT: u32 = 1024;

/// Whether `pixel` and `tile` can draw this: the frame's size is in its limits, and the eye and
/// all corners are near enough.
pub fn is_drawable(draws: &Draws) -> bool
    ensures { IsTrue result ↔ IsDrawable draws.now }
{
    if !is_frame_size(draws.width) {
        return false;
    }
    if !is_frame_size(draws.height) {
        return false;
    }
    if !is_point_within(EYE_BOUND, draws.eye) {
        return false;
    }
    are_near(draws.tris.items())
}

fn is_frame_size(n: u32) -> bool
    ensures { IsTrue result ↔ IsFrameSize n }
{
    1 <= n && n <= FRAME_LIMIT
}

fn are_near(tris: &[WorldTri]) -> bool
    ensures { IsTrue result ↔ All (IsTriWithin (2 ^ 24)) tris.now }
{
    tris.iter().all(is_near)
}

fn is_near(tri: &WorldTri) -> bool
    ensures { IsTrue result ↔ IsTriWithin (2 ^ 24) tri.now }
{
    if !is_point_within(CORNER_BOUND, tri.a) {
        return false;
    }
    if !is_point_within(CORNER_BOUND, tri.b) {
        return false;
    }
    is_point_within(CORNER_BOUND, tri.c)
}

/// `bound` is not below 0.
fn is_point_within(bound: i64, point: Vec3) -> bool
    requires { pos 0 ≤ℤ bound }
    ensures { IsTrue result ↔ IsPointWithin (unsigned_abs bound) point }
{
    if !is_within(bound, point.x) {
        return false;
    }
    if !is_within(bound, point.y) {
        return false;
    }
    is_within(bound, point.z)
}

fn is_within(bound: i64, z: i64) -> bool
    requires { pos 0 ≤ℤ bound }
    ensures { IsTrue result ↔ IsWithin (unsigned_abs bound) z }
{
    -bound <= z && z <= bound
}
