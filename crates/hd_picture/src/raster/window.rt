//! Where a tile lies in the picture.

ghost use Rattle.std.specs.Prelude.{◌≡◌, ◌<◌};
ghost use Rattle.hd_picture.specs.Limits.{IsDrawable};
ghost use Rattle.hd_picture.specs.inner.Coverage.{IsNearCenter};
ghost use Rattle.hd_picture.specs.inner.Window.{IsWindow, tile_pixel_center, window};
ghost use Rattle.hd_picture.specs.raster.Tiles.{tile_count};

use crate::define::view::{ScreenPoint, pixel_center};
use crate::draws::Draws;

/// The pixels along a tile's side.
pub const SIDE: u32 = 16;

/// The size of a picture, and the column and the row in it at which a tile begins.
#[derive(Clone, Copy)]
pub struct Window {
    pub width: u32,
    pub height: u32,
    pub left: u32,
    pub top: u32,
}

/// Where tile `n` lies in the picture.
pub fn window_of(draws: &Draws, n: u32) -> Window
    requires drawable { IsDrawable draws.now }
    requires number { n < tile_count draws.now.width draws.now.height }
    ensures value { result ≡ window draws.now n }
    ensures within { IsWindow result }
{
    let columns = draws.width.div_ceil(SIDE);
    Window {
        width: draws.width,
        height: draws.height,
        left: n % columns * SIDE,
        top: n / columns * SIDE,
    }
}

/// The center of the tile's pixel `i`, row by row.
pub fn tile_pixel_center(window: Window, i: u32) -> ScreenPoint
    requires window { IsWindow window }
    requires number { i < 256 }
    ensures value { result ≡ tile_pixel_center window i }
    ensures near { IsNearCenter result }
{
    pixel_center(
        window.width,
        window.height,
        window.left + i % SIDE,
        window.top + i / SIDE,
    )
}
