//! The weights and the depth of a triangle, followed from pixel to pixel.

ghost use Rattle.std.specs.Prelude.{◌≡◌, ◌^◌, ◌↔◌, IsTrue, pos, ◌<ℤ◌, ◌≤ℤ◌};
ghost use Rattle.hd_picture.specs.Limits.{IsPointWithin, IsTriWithin, IsWithin};
ghost use Rattle.hd_picture.specs.inner.Coverage.{IsSmall};
ghost use Rattle.hd_picture.specs.inner.DepthFraction.{IsNextFraction};
ghost use Rattle.hd_picture.specs.inner.EdgeStepping.{AreEdgeValuesInReach, IsEdge, IsEdgeStep, IsEdgeStepInReach, IsInside, IsNearer, IsPixelOffset, IsRowOutside, IsStepWeights, IsVisible, add_weights, weight_change, weights_at_row_end};
ghost use Rattle.hd_picture.specs.inner.View.{IsScreenTriangle};

use crate::define::coverage::{Weights, cross};
use crate::define::depth::narrow_sum;
use crate::define::view::{ScreenPoint, ScreenTriangle};
use crate::draws::WorldTri;
use crate::raster::depth_fraction::{DepthFraction, depth_step, next_fraction};
use hd_num::Vec3;

/// What a triangle has at a point: the weights of its corners, and its plane's depth as a fraction
/// by its area.
#[derive(Clone, Copy)]
pub struct EdgeValues {
    pub weights: Weights,
    pub depth: DepthFraction,
}

/// The change of the edge values from a point to that at this offset.
pub fn edge_step(
    eye: Vec3,
    tri: &WorldTri,
    screen: ScreenTriangle,
    area: i64,
    offset: ScreenPoint,
) -> EdgeValues
    requires eye { IsPointWithin (2 ^ 30) eye }
    requires corners { IsTriWithin (2 ^ 24) tri.now }
    requires screen { IsScreenTriangle eye tri.now screen }
    requires area { pos 0 <ℤ area }
    requires offset { IsPixelOffset offset }
    ensures { IsEdgeStep eye tri.now area offset result }
{
    let weights = Weights {
        a: weight_change(screen.b, screen.c, offset),
        b: weight_change(screen.c, screen.a, offset),
        c: weight_change(screen.a, screen.b, offset),
    };
    EdgeValues {
        weights,
        depth: depth_step(narrow_sum(weights, tri), area),
    }
}

/// The change of an edge function by an offset.
fn weight_change(a: ScreenPoint, b: ScreenPoint, offset: ScreenPoint) -> i64
    requires edge { IsEdge a b }
    requires offset { IsPixelOffset offset }
    ensures value { result ≡ weight_change a b offset }
    ensures small { IsWithin (2 ^ 28) result }
{
    cross(b.x - a.x, b.y - a.y, offset.x, offset.y)
}

/// The edge values after one more step.
pub fn next_edge_values(at: EdgeValues, step: EdgeValues, area: i64) -> EdgeValues
    requires area { area ≤ℤ pos (2 ^ 61) }
    requires at { AreEdgeValuesInReach area at }
    requires step { IsEdgeStepInReach area step }
    ensures weights { result.weights ≡ add_weights at.weights step.weights }
    ensures depth { IsNextFraction area at.depth step.depth result.depth }
{
    EdgeValues {
        weights: Weights {
            a: at.weights.a + step.weights.a,
            b: at.weights.b + step.weights.b,
            c: at.weights.c + step.weights.c,
        },
        depth: next_fraction(at.depth, step.depth, area),
    }
}

/// The weights 15 steps further.
pub fn weights_at_row_end(at: Weights, step: Weights) -> Weights
    requires at { IsSmall at }
    requires step { IsStepWeights step }
    ensures { result ≡ weights_at_row_end at step }
{
    Weights {
        a: at.a + 15 * step.a,
        b: at.b + 15 * step.b,
        c: at.c + 15 * step.c,
    }
}

/// Whether a counter-clockwise triangle is seen at a point, and nearer than `nearest`.
pub fn is_visible(at: EdgeValues, limit: i64, nearest: i64) -> bool
    ensures { IsTrue result ↔ IsVisible at limit nearest }
{
    is_inside(at.weights) && is_nearer(at.depth.whole, limit, nearest)
}

/// Whether a depth is not beyond the limit, and nearer than `nearest`.
pub fn is_nearer(depth: i64, limit: i64, nearest: i64) -> bool
    ensures { IsTrue result ↔ IsNearer depth limit nearest }
{
    depth <= limit && nearest < depth
}

/// Whether no weight is below 0.
pub fn is_inside(w: Weights) -> bool
    ensures { IsTrue result ↔ IsInside w }
{
    w.a >= 0 && w.b >= 0 && w.c >= 0
}

/// Whether one of the weights is below 0 at both points.
pub fn is_row_outside(v: Weights, w: Weights) -> bool
    ensures { IsTrue result ↔ IsRowOutside v w }
{
    if v.a.max(w.a) < 0 {
        return true;
    }
    if v.b.max(w.b) < 0 {
        return true;
    }
    v.c.max(w.c) < 0
}
