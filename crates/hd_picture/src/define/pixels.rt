//! What a pixel shows, by the definition: each triangle is looked at in turn.

ghost use Rattle.std.specs.Prelude.{◌≡◌, ◌<◌, ◌^◌};
ghost use Rattle.hd_picture.specs.Limits.{IsDrawable, IsPointWithin, IsTriWithin};
ghost use Rattle.hd_picture.specs.define.Pixels.{fragment, pixel};
ghost use Rattle.hd_picture.specs.inner.Coverage.{IsCounterClockwise, IsNearCenter};
ghost use Rattle.hd_picture.specs.inner.Pixels.{fragment_by, hides, nearer};

use crate::define::coverage::{Weights, counter_clockwise_of, weights_at};
use crate::define::depth::depth_of;
use crate::define::view::{ScreenPoint, pixel_center, screen_triangle};
use crate::draws::{Draws, WorldTri};
use hd_num::{Rgb, Vec3};

/// What one triangle shows at a point.
#[derive(Clone, Copy)]
pub struct Fragment {
    pub depth: i64,
    pub color: Rgb,
}

/// The color where nothing is seen.
pub const BLACK: Rgb = Rgb { r: 0, g: 0, b: 0 };

/// The color of the pixel in column `x` of row `y`, both from the top left: that of the nearest
/// fragment, and black where there is none. This is the slow, plain program beside the definition;
/// `tile` is the fast one. Takes no memory.
pub fn pixel(draws: &Draws, x: u32, y: u32) -> Rgb
    requires drawable { IsDrawable draws.now }
    requires column { x < draws.now.width }
    requires row { y < draws.now.height }
    ensures { result ≡ pixel draws.now x y }
{
    let q = pixel_center(draws.width, draws.height, x, y);
    let mut best = None;
    for tri in draws.tris.items() {
        best = nearer(best, fragment_at(draws.eye, q, tri));
    }
    match best {
        Some(nearest) => nearest.color,
        None => BLACK,
    }
}

/// What a triangle shows at a point, if it shows anything there.
fn fragment_at(eye: Vec3, q: ScreenPoint, tri: &WorldTri) -> Option<Fragment>
    requires eye { IsPointWithin (2 ^ 30) eye }
    requires point { IsNearCenter q }
    requires corners { IsTriWithin (2 ^ 24) tri.now }
    ensures { result ≡ fragment eye q tri.now }
{
    let screen = screen_triangle(eye, tri);
    match counter_clockwise_of(weights_at(screen.a, screen.b, screen.c, q)) {
        Some(w) => fragment_by(w, tri, eye.z),
        None => None,
    }
}

/// What a triangle shows at a point that it covers by these weights: nothing beyond the eye.
fn fragment_by(w: Weights, tri: &WorldTri, eye_z: i64) -> Option<Fragment>
    requires counter_clockwise { IsCounterClockwise w }
    requires corners { IsTriWithin (2 ^ 24) tri.now }
    ensures { result ≡ fragment_by w tri.now eye_z }
{
    let depth = depth_of(w, tri);
    if depth > eye_z {
        return None;
    }
    Some(Fragment {
        depth,
        color: tri.color,
    })
}

/// The nearer of the best fragment so far and that of the next triangle.
fn nearer(best: Option<Fragment>, next: Option<Fragment>) -> Option<Fragment>
    ensures { result ≡ nearer best next }
{
    match next {
        Some(fragment) => {
            if hides(best, fragment.depth) {
                best
            } else {
                next
            }
        }
        None => best,
    }
}

/// Whether the best fragment so far hides one of this depth.
fn hides(best: Option<Fragment>, depth: i64) -> bool
    ensures { result ≡ hides best depth }
{
    match best {
        Some(nearest) => depth <= nearest.depth,
        None => false,
    }
}
