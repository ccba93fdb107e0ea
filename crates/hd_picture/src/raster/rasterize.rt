//! One more triangle in the nearest fragments of a tile.

ghost use Rattle.std.specs.Prelude.{◌≡◌, ◌<◌, ◌*◌, ◌^◌, ◌↔◌, IsTrue, false, length, pos, ◌<ℤ◌, ◌≤ℤ◌};
ghost use Rattle.hd_picture.specs.Limits.{IsPointWithin, IsTriWithin, IsWithin};
ghost use Rattle.hd_picture.specs.define.Coverage.{screen_weights, total};
ghost use Rattle.hd_picture.specs.inner.Bounds.{AreDisjoint, IsOutsideTile};
ghost use Rattle.hd_picture.specs.inner.DepthBuffer.{IsMinDepth, IsRasterized, IsRowRasterized};
ghost use Rattle.hd_picture.specs.inner.EdgeStepping.{AreEdgeValues, IsPlaneDepth, IsRowCovered};
ghost use Rattle.hd_picture.specs.inner.TriangleSetup.{IsArea, IsTriangleSetup};
ghost use Rattle.hd_picture.specs.inner.View.{IsScreenTriangle};
ghost use Rattle.hd_picture.specs.inner.Window.{IsWindow, pixel_center_at, tile_pixel_center};

use crate::define::coverage::weights_at;
use crate::define::depth::{max_depth_of, wide_sum};
use crate::define::pixels::Fragment;
use crate::define::view::{ScreenTriangle, screen_triangle};
use crate::draws::WorldTri;
use crate::raster::bounds::is_outside_tile;
use crate::raster::depth_buffer::min_depth_of;
use crate::raster::depth_fraction::{DepthFraction, depth_fraction, next_fraction};
use crate::raster::edge_stepping::{
    EdgeValues, is_inside, is_nearer, is_row_outside, is_visible, next_edge_values,
    weights_at_row_end,
};
use crate::raster::triangle_setup::{TriangleSetup, triangle_setup};
use crate::raster::window::{SIDE, Window, tile_pixel_center};
use hd_num::Vec3;

/// Draws one more triangle into the nearest fragments of a tile's pixels. Takes and gives the least
/// of their depths.
pub fn rasterize(
    depth_buffer: &mut [Fragment],
    min_depth: i64,
    eye: Vec3,
    window: Window,
    tri: &WorldTri,
) -> i64
    requires eye { IsPointWithin (2 ^ 30) eye }
    requires window { IsWindow window }
    requires corners { IsTriWithin (2 ^ 24) tri.now }
    requires whole { length depth_buffer.old ≡ 256 }
    requires min_depth { IsMinDepth depth_buffer.old min_depth }
    ensures rasterized { IsRasterized eye window tri.now depth_buffer.old depth_buffer.new }
    ensures min_depth { IsMinDepth depth_buffer.new result }
{
    if max_depth_of(tri) <= min_depth {
        return min_depth;
    }
    let screen = screen_triangle(eye, tri);
    if is_outside_tile(screen, window) {
        return min_depth;
    }
    if rasterize_screen_triangle(depth_buffer, eye, window, tri, screen) {
        min_depth_of(depth_buffer)
    } else {
        min_depth
    }
}

/// The same of a triangle by its corners. Answers whether a fragment has changed.
fn rasterize_screen_triangle(
    depth_buffer: &mut [Fragment],
    eye: Vec3,
    window: Window,
    tri: &WorldTri,
    screen: ScreenTriangle,
) -> bool
    requires eye { IsPointWithin (2 ^ 30) eye }
    requires window { IsWindow window }
    requires corners { IsTriWithin (2 ^ 24) tri.now }
    requires screen { IsScreenTriangle eye tri.now screen }
    requires whole { length depth_buffer.old ≡ 256 }
    ensures rasterized { IsRasterized eye window tri.now depth_buffer.old depth_buffer.new }
    ensures unchanged { result ≡ false → depth_buffer.new ≡ depth_buffer.old }
{
    let weights = weights_at(screen.a, screen.b, screen.c, tile_pixel_center(window, 0));
    let area = weights.a + weights.b + weights.c;
    if area > 0 {
        return rasterize_counter_clockwise(depth_buffer, eye, window, tri, screen);
    }
    if area == 0 {
        return false;
    }
    let mirror_image = WorldTri {
        a: tri.a,
        b: tri.c,
        c: tri.b,
        color: tri.color,
    };
    let flipped = ScreenTriangle {
        a: screen.a,
        b: screen.c,
        c: screen.b,
    };
    rasterize_counter_clockwise(depth_buffer, eye, window, &mirror_image, flipped)
}

/// The same of a counter-clockwise triangle.
fn rasterize_counter_clockwise(
    depth_buffer: &mut [Fragment],
    eye: Vec3,
    window: Window,
    tri: &WorldTri,
    screen: ScreenTriangle,
) -> bool
    requires eye { IsPointWithin (2 ^ 30) eye }
    requires window { IsWindow window }
    requires corners { IsTriWithin (2 ^ 24) tri.now }
    requires screen { IsScreenTriangle eye tri.now screen }
    requires counter_clockwise { pos 0 <ℤ total (screen_weights eye tri.now (tile_pixel_center window 0)) }
    requires whole { length depth_buffer.old ≡ 256 }
    ensures rasterized { IsRasterized eye window tri.now depth_buffer.old depth_buffer.new }
    ensures unchanged { result ≡ false → depth_buffer.new ≡ depth_buffer.old }
{
    let weights = weights_at(screen.a, screen.b, screen.c, tile_pixel_center(window, 0));
    let area = weights.a + weights.b + weights.c;
    match depth_fraction(wide_sum(weights, tri), area) {
        Some(depth) => {
            let setup = triangle_setup(eye, tri, screen, area);
            rasterize_rows(
                depth_buffer,
                eye,
                window,
                tri,
                setup,
                EdgeValues { weights, depth },
            )
        }
        // So far from all depths the plane comes to none of them within the tile.
        None => false,
    }
}

/// The same of a triangle as it is at the tile's first pixel.
fn rasterize_rows(
    depth_buffer: &mut [Fragment],
    eye: Vec3,
    window: Window,
    tri: &WorldTri,
    setup: TriangleSetup,
    start: EdgeValues,
) -> bool
    requires eye { IsPointWithin (2 ^ 30) eye }
    requires window { IsWindow window }
    requires corners { IsTriWithin (2 ^ 24) tri.now }
    requires setup { IsTriangleSetup eye tri.now setup }
    requires start { AreEdgeValues eye tri.now setup.area (pixel_center_at window 0 0) start }
    requires reach { IsWithin (2 ^ 60) start.depth.whole }
    requires whole { length depth_buffer.old ≡ 256 }
    ensures rasterized { IsRasterized eye window tri.now depth_buffer.old depth_buffer.new }
    ensures unchanged { result ≡ false → depth_buffer.new ≡ depth_buffer.old }
{
    let mut changed = false;
    let mut at = start;
    for row in 0..SIDE {
        if rasterize_row(depth_buffer, eye, window, tri, setup, row, at) {
            changed = true;
        }
        at = next_edge_values(at, setup.down, setup.area);
    }
    changed
}

/// The same of one row of the tile.
fn rasterize_row(
    depth_buffer: &mut [Fragment],
    eye: Vec3,
    window: Window,
    tri: &WorldTri,
    setup: TriangleSetup,
    row: u32,
    start: EdgeValues,
) -> bool
    requires eye { IsPointWithin (2 ^ 30) eye }
    requires window { IsWindow window }
    requires corners { IsTriWithin (2 ^ 24) tri.now }
    requires setup { IsTriangleSetup eye tri.now setup }
    requires row { row < 16 }
    requires start { AreEdgeValues eye tri.now setup.area (pixel_center_at window 0 row) start }
    requires reach { IsWithin (2 ^ 61) start.depth.whole }
    requires whole { length depth_buffer.old ≡ 256 }
    ensures rasterized { IsRowRasterized eye window tri.now row depth_buffer.old depth_buffer.new }
    ensures unchanged { result ≡ false → depth_buffer.new ≡ depth_buffer.old }
{
    // What holds of an edge at both ends of a row holds between them.
    let last = weights_at_row_end(start.weights, setup.right.weights);
    if is_row_outside(start.weights, last) {
        return false;
    }
    if is_inside(start.weights) && is_inside(last) {
        return rasterize_covered_row(depth_buffer, eye, window, tri, setup, row, start.depth);
    }
    rasterize_crossed_row(depth_buffer, eye, window, tri, setup, row, start)
}

/// The same of a row that the triangle covers whole.
fn rasterize_covered_row(
    depth_buffer: &mut [Fragment],
    eye: Vec3,
    window: Window,
    tri: &WorldTri,
    setup: TriangleSetup,
    row: u32,
    start: DepthFraction,
) -> bool
    requires setup { IsTriangleSetup eye tri.now setup }
    requires row { row < 16 }
    requires covered { IsRowCovered eye window tri.now row }
    requires start { IsPlaneDepth eye tri.now setup.area (pixel_center_at window 0 row) start }
    requires reach { IsWithin (2 ^ 61) start.whole }
    requires whole { length depth_buffer.old ≡ 256 }
    ensures rasterized { IsRowRasterized eye window tri.now row depth_buffer.old depth_buffer.new }
    ensures unchanged { result ≡ false → depth_buffer.new ≡ depth_buffer.old }
{
    let mut changed = false;
    let mut at = start;
    for x in 0..SIDE {
        let i = (row * SIDE + x) as usize;
        if is_nearer(at.whole, eye.z, depth_buffer[i].depth) {
            depth_buffer[i] = Fragment {
                depth: at.whole,
                color: tri.color,
            };
            changed = true;
        }
        at = next_fraction(at, setup.right.depth, setup.area);
    }
    changed
}

/// The same of a row that an edge crosses.
fn rasterize_crossed_row(
    depth_buffer: &mut [Fragment],
    eye: Vec3,
    window: Window,
    tri: &WorldTri,
    setup: TriangleSetup,
    row: u32,
    start: EdgeValues,
) -> bool
    requires eye { IsPointWithin (2 ^ 30) eye }
    requires window { IsWindow window }
    requires corners { IsTriWithin (2 ^ 24) tri.now }
    requires setup { IsTriangleSetup eye tri.now setup }
    requires row { row < 16 }
    requires start { AreEdgeValues eye tri.now setup.area (pixel_center_at window 0 row) start }
    requires reach { IsWithin (2 ^ 61) start.depth.whole }
    requires whole { length depth_buffer.old ≡ 256 }
    ensures rasterized { IsRowRasterized eye window tri.now row depth_buffer.old depth_buffer.new }
    ensures unchanged { result ≡ false → depth_buffer.new ≡ depth_buffer.old }
{
    let mut changed = false;
    let mut at = start;
    for x in 0..SIDE {
        let i = (row * SIDE + x) as usize;
        if is_visible(at, eye.z, depth_buffer[i].depth) {
            depth_buffer[i] = Fragment {
                depth: at.depth.whole,
                color: tri.color,
            };
            changed = true;
        }
        at = next_edge_values(at, setup.right, setup.area);
    }
    changed
}
