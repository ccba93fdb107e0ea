//! Edge functions and coverage.

ghost use Rattle.std.specs.Prelude.{◌≡◌, ◌^◌, ◌↔◌, ◌-ℤ◌, ◌*ℤ◌, IsTrue, MatchOption, false};
ghost use Rattle.hd_picture.specs.Limits.{IsWithin};
ghost use Rattle.hd_picture.specs.define.Coverage.{covers, edge, weights};
ghost use Rattle.hd_picture.specs.inner.Coverage.{IsCounterClockwise, IsCounterClockwiseOf, IsEdgeInReach, IsInReach, IsSmall};
ghost use Rattle.hd_picture.specs.raster.Bounds.{IsBetween, IsInBounds};

use crate::define::view::ScreenPoint;

/// How much each corner of a triangle counts at a point.
#[derive(Clone, Copy)]
pub struct Weights {
    pub a: i64,
    pub b: i64,
    pub c: i64,
}

/// The weights of the corners `a`, `b` and `c` at `q`.
pub fn weights_at(a: ScreenPoint, b: ScreenPoint, c: ScreenPoint, q: ScreenPoint) -> Weights
    requires { IsInReach a b c q }
    ensures value { result ≡ weights a b c q }
    ensures small { IsSmall result }
{
    Weights {
        a: edge_at(b, c, q),
        b: edge_at(c, a, q),
        c: edge_at(a, b, q),
    }
}

/// The weights of a triangle that covers a point, negated where its corners are
/// clockwise, so that none is below 0. `None` where it does not cover the point.
pub fn counter_clockwise_of(w: Weights) -> Option<Weights>
    requires { IsSmall w }
    ensures { MatchOption result (covers w ≡ false) (IsCounterClockwiseOf w) }
{
    if is_counter_clockwise(w) {
        return Some(w);
    }
    let negated = Weights {
        a: -w.a,
        b: -w.b,
        c: -w.c,
    };
    if is_counter_clockwise(negated) {
        Some(negated)
    } else {
        None
    }
}

fn is_counter_clockwise(w: Weights) -> bool
    requires { IsSmall w }
    ensures { IsTrue result ↔ IsCounterClockwise w }
{
    w.a.min(w.b.min(w.c)) >= 0 && w.a + w.b + w.c > 0
}

/// The edge function of the edge from `a` to `b`.
fn edge_at(a: ScreenPoint, b: ScreenPoint, q: ScreenPoint) -> i64
    requires { IsEdgeInReach a b q }
    ensures value { result ≡ edge a b q }
    ensures small { IsWithin (2 ^ 59) result }
{
    cross(b.x - a.x, b.y - a.y, q.x - a.x, q.y - a.y)
}

/// The cross product of an edge and the offset from its start to a point.
pub fn cross(edge_x: i64, edge_y: i64, offset_x: i64, offset_y: i64) -> i64
    requires edge_x { IsWithin (2 ^ 26) edge_x }
    requires edge_y { IsWithin (2 ^ 26) edge_y }
    requires offset_x { IsWithin (2 ^ 32) offset_x }
    requires offset_y { IsWithin (2 ^ 32) offset_y }
    ensures value { result ≡ edge_x *ℤ offset_y -ℤ edge_y *ℤ offset_x }
    ensures small { IsWithin (2 ^ 59) result }
{
    edge_x * offset_y - edge_y * offset_x
}
