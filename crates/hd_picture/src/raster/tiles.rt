//! The picture in tiles of 16 by 16 pixels.

ghost use Rattle.std.specs.Prelude.{◌≡◌, ◌<◌, ℕ, length, slice_index_or};
ghost use Rattle.hd_picture.specs.Limits.{IsDrawable, IsFrameSize};
ghost use Rattle.hd_picture.specs.define.Pixels.{black};
ghost use Rattle.hd_picture.specs.inner.DepthBuffer.{background, color_in};
ghost use Rattle.hd_picture.specs.inner.Window.{IsWindow};
ghost use Rattle.hd_picture.specs.raster.Tiles.{tile, tile_count};

use crate::define::pixels::{BLACK, Fragment};
use crate::draws::Draws;
use crate::raster::depth_buffer::BACKGROUND;
use crate::raster::rasterize::rasterize;
use crate::raster::window::{SIDE, Window, window_of};
use hd_num::Rgb;

/// How many tiles a picture of this size has.
pub fn tile_count(width: u32, height: u32) -> u32
    requires width { IsFrameSize width }
    requires height { IsFrameSize height }
    ensures { result ≡ tile_count width height }
{
    width.div_ceil(SIDE) * height.div_ceil(SIDE)
}

/// Draws tile `n` of the picture into a block of 16 rows of 16 pixels, row by row from the top.
/// What lies outside of the frame is black. Takes no memory.
pub fn tile(draws: &Draws, n: u32, block: &mut [Rgb])
    requires drawable { IsDrawable draws.now }
    requires number { n < tile_count draws.now.width draws.now.height }
    requires whole { length block.old ≡ 256 }
    ensures { block.new ≡ tile draws.now n }
{
    let window = window_of(draws, n);
    let mut depth_buffer = [BACKGROUND; 256];
    let mut min_depth = BACKGROUND.depth;
    let tris = draws.tris.items();
    for tri in tris {
        min_depth = rasterize(&mut depth_buffer, min_depth, draws.eye, window, tri);
    }
    paint(&depth_buffer, window, block);
}

/// The colors of a tile's nearest fragments.
fn paint(depth_buffer: &[Fragment], window: Window, block: &mut [Rgb])
    requires window { IsWindow window }
    requires depth_buffer { length depth_buffer.now ≡ 256 }
    requires block { length block.old ≡ 256 }
    ensures { (k : ℕ) → k < 256 → slice_index_or block.new k black ≡ color_in window k (slice_index_or depth_buffer.now k background) }
{
    for i in 0..SIDE * SIDE {
        block[i as usize] = color_of(depth_buffer[i as usize], window, i);
    }
}

/// The color of the tile's pixel `i`, black outside of the picture.
fn color_of(nearest: Fragment, window: Window, i: u32) -> Rgb
    requires window { IsWindow window }
    requires number { i < 256 }
    ensures { result ≡ color_in window i nearest }
{
    if window.left + i % SIDE >= window.width {
        return BLACK;
    }
    if window.top + i / SIDE >= window.height {
        return BLACK;
    }
    nearest.color
}
