//! The picture of a layer.

ghost use Rattle.std.specs.Prelude.{◌≡◌, ◌<◌, ◌≤◌, [], ◌∷◌, length, map, IfOk, OnOk, IsTrue};
ghost use Rattle.std.specs.List.{range_with_len};
ghost use Rattle.hd_layer.specs.WellFormed.{is_layer};
ghost use Rattle.hd_picture.specs.Limits.{IsDrawable};
ghost use Rattle.hd_picture.specs.define.Pixels.{picture};
ghost use Rattle.hd_picture.specs.Ppm.{ppm};
ghost use Rattle.hd_picture.specs.raster.Tiles.{tile, tile_count};
ghost use Rattle.hd_retained.specs.Layers.{layer_of};
ghost use Rattle.hd_rprim.specs.PrimRows.{rows_of};
ghost use Rattle.hd_attributes.specs.Rows.{index};
ghost use Rattle.hd_app.specs.Outcomes.{layer_frame, triangle_limit};

use hd_attributes::rows_are_of_attributes;
use hd_draws::DrawsFault;
use hd_index::RenderIndex;
use hd_layer::LayerSpec;
use hd_num::{Rgb, Vec3};
use hd_picture::{Draws, ppm_of, tile, tile_count};
use hd_stack::Stack;
use hd_sync::Plain;
use std::alloc::{AllocError, Global};

/// The width and the height of a drawn layer, in pixels.
const SIDE: u32 = 64;

/// The place from which a frame is seen that names no camera.
const DEFAULT_EYE: Vec3 = Vec3 {
    x: 0,
    y: 0,
    z: 1 << 24,
};

const BLACK: Rgb = Rgb { r: 0, g: 0, b: 0 };

/// The render index of one layer alone.
fn index_of(alloc: Global, layer: LayerSpec) -> Result<RenderIndex, AllocError>
    requires { IsTrue (is_layer layer) }
    ensures { IfOk result (λ shown. rows_of shown ≡ index (layer_of layer ∷ [])) }
{
    let mut stack = Stack::new(alloc, vec![in alloc; layer]?)?;
    let mut index = RenderIndex::new(alloc)?;
    stack.is_in_step();
    rows_are_of_attributes();
    index.populate(alloc, &mut stack, &mut Plain::new())?;
    Ok(index)
}

/// The frame of a layer.
fn frame_of(alloc: Global, layer: LayerSpec) -> Result<Draws, DrawsFault>
    requires { IsTrue (is_layer layer) }
    ensures frame { IfOk result (λ draws. draws ≡ layer_frame layer) }
    ensures drawable { IfOk result IsDrawable }
    ensures few { OnOk result (length (layer_frame layer).tris ≤ triangle_limit) }
    ensures many { result ≡ Err DrawsFault.Triangles → triangle_limit < length (layer_frame layer).tris }
{
    let index = index_of(alloc, layer)?;
    index.draws(alloc, DEFAULT_EYE, SIDE, SIDE)
}

/// The tiles of the frame, in the order of their numbers.
fn tiles_of(alloc: Global, draws: &Draws) -> Result<Vec<[Rgb; 256]>, AllocError>
    requires drawable { IsDrawable draws.now }
    ensures { IfOk result (λ tiles. tiles.items ≡ map (tile draws.now) (range_with_len 0 (tile_count draws.now.width draws.now.height))) }
{
    let mut tiles = Vec::new(alloc);
    'tiles: for n in 0..tile_count(draws.width, draws.height) {
        let mut block = [BLACK; 256];
        tile(draws, n, &mut block);
        tiles.push(block)?;
    }
    Ok(tiles)
}

/// The file of a frame's picture.
fn frame_file(alloc: Global, draws: &Draws) -> Result<Vec<u8>, AllocError>
    requires drawable { IsDrawable draws.now }
    ensures { IfOk result (λ bytes. bytes.items ≡ ppm draws.now.width draws.now.height (picture draws.now)) }
{
    let tiles = tiles_of(alloc, draws)?;
    ppm_of(alloc, &tiles, draws.width, draws.height)
}

/// The file of a layer's picture.
pub fn picture_file(alloc: Global, layer: LayerSpec) -> Result<Vec<u8>, DrawsFault>
    requires { IsTrue (is_layer layer) }
    ensures bytes { IfOk result (λ bytes. bytes.items ≡ ppm 64 64 (picture (layer_frame layer))) }
    ensures few { OnOk result (length (layer_frame layer).tris ≤ triangle_limit) }
    ensures many { result ≡ Err DrawsFault.Triangles → triangle_limit < length (layer_frame layer).tris }
{
    let draws = frame_of(alloc, layer)?;
    let bytes = frame_file(alloc, &draws)?;
    Ok(bytes)
}
