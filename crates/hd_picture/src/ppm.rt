//! The writer of the binary form of the portable pixmap format.

ghost use Rattle.std.specs.Prelude.{◌≡◌, ◌+◌, ◌*◌, ◌/◌, ◌++◌, ◌<◌, ◌≤◌, length, flat_map, IfOk, OnOk};
ghost use Rattle.std.specs.Int.{div_ceil};
ghost use Rattle.hd_picture.specs.Limits.{IsFrameSize};
ghost use Rattle.hd_picture.specs.Ppm.{ppm, ppm_head, pixel_bytes};
ghost use Rattle.hd_picture.specs.raster.Tiles.{tile_count, pixel_in_tiles, row_in_tiles, pixels_in_tiles};

use crate::raster::window::SIDE;
use hd_num::Rgb;
use std::alloc::{AllocError, Global};

/// The pixel in column `x` of row `y`, of a picture in so many columns of tiles.
fn pixel_in_tiles(tiles: &[[Rgb; 256]], columns: u32, x: u32, y: u32) -> Rgb
    requires there { y / 16 * columns + x / 16 < length tiles.now }
    ensures { result ≡ pixel_in_tiles columns tiles.now x y }
{
    let number = (y / SIDE) as usize * columns as usize + (x / SIDE) as usize;
    let tile = &tiles[number];
    tile[(y % SIDE * SIDE + x % SIDE) as usize]
}

/// Adds the bytes of a row, from the left.
fn push_row(bytes: &mut Vec<u8>, tiles: &[[Rgb; 256]], width: u32, y: u32) -> Result<(), AllocError>
    requires width { IsFrameSize width }
    requires there { y / 16 * div_ceil width 16 + div_ceil width 16 ≤ length tiles.now }
    ensures { OnOk result (bytes.new.items ≡ bytes.old.items ++ flat_map pixel_bytes (row_in_tiles width tiles.now y)) }
{
    let columns = width.div_ceil(SIDE);
    'columns: for x in 0..width {
        let pixel = pixel_in_tiles(tiles, columns, x, y);
        bytes.extend_from_slice(&[pixel.r, pixel.g, pixel.b])?;
    }
    Ok(())
}

/// The head of a file.
fn head_of(alloc: Global, width: u32, height: u32) -> Result<Vec<u8>, AllocError>
    ensures { IfOk result (λ bytes. bytes.items ≡ ppm_head width height) }
{
    let mut bytes = Vec::new(alloc);
    bytes.extend_from_slice(b"P6\n")?;
    bytes.extend_from_slice(width.to_string(alloc)?.as_bytes())?;
    bytes.extend_from_slice(b" ")?;
    bytes.extend_from_slice(height.to_string(alloc)?.as_bytes())?;
    bytes.extend_from_slice(b"\n255\n")?;
    Ok(bytes)
}

/// The file of a picture of this size, from its tiles in the order of their numbers.
#[tactic(auto, unfolding(crate::specs::Ppm::ppm))]
pub fn ppm_of(
    alloc: Global,
    tiles: &[[Rgb; 256]],
    width: u32,
    height: u32,
) -> Result<Vec<u8>, AllocError>
    requires width { IsFrameSize width }
    requires height { IsFrameSize height }
    requires whole { length tiles.now ≡ tile_count width height }
    ensures { IfOk result (λ bytes. bytes.items ≡ ppm width height (pixels_in_tiles width height tiles.now)) }
{
    let mut bytes = head_of(alloc, width, height)?;
    'rows: for y in 0..height {
        push_row(&mut bytes, tiles, width, y)?;
    }
    Ok(bytes)
}
