//! The triangles that the rows of an index draw.

ghost use Rattle.std.specs.Prelude.{◌≡◌, ◌^◌, ◌≤◌, ◌<◌, ◌++◌, length, map, flat_map, true, All, IfOk, OnOk};
ghost use Rattle.hd_picture.specs.Limits.{IsTriWithin};
ghost use Rattle.hd_sync.specs.Syncing.{content_given};
ghost use Rattle.hd_rprim.specs.Shown.{shown, slots_of};
ghost use Rattle.hd_draws.specs.DrawList.{draw_list, is_for_pictures, placed_triangles, rprim_draws, shown_draws};
ghost use Rattle.hd_rprim.specs.Shown.{KeepsSlots, is_slot_kept};

use crate::contents::{Geometry, geometry_of};
use crate::fault::DrawsFault;
use crate::meshes::push_mesh;
use crate::placements::placements;
use crate::squares::push_squares;
use crate::triangles::TriangleList;
use hd_num::{List, Matrix, Vec3};
use hd_path::Path;
use hd_picture::WorldTri;
use hd_registry::Registry;
use hd_rprim::{Buffer, Purpose, Row, RowTable, RprimRow, Shape};
use std::alloc::Global;

/// The triangles that the rows draw, in path order. Refused as `Triangles` exactly where there are
/// more than 1,048,576.
pub fn draw_list(
    alloc: Global,
    rows: &RowTable,
    registry: &Registry<Buffer>,
) -> Result<List<WorldTri>, DrawsFault>
    requires { KeepsSlots rows.now registry.now }
    ensures drawn { IfOk result (λ tris. tris ≡ draw_list (map (shown registry.now) rows.now)) }
    ensures few { IfOk result (λ tris. length tris ≤ 2 ^ 20) }
    ensures near { IfOk result (λ tris. All (IsTriWithin (2 ^ 24)) tris) }
    ensures many { result ≡ Err DrawsFault.Triangles → 2 ^ 20 < length (draw_list (map (shown registry.now) rows.now)) }
{
    let mut placed = Vec::new(alloc);
    let mut tris = TriangleList::new(alloc);
    for i in 0..rows.len() {
        let path = rows.path_at(i);
        let row = rows.row_at(i);
        push_row(alloc, rows, registry, path, row, &mut placed, &mut tris)?;
    }
    Ok(tris.into_list(alloc)?)
}

/// Adds the triangles of a row.
fn push_row(
    alloc: Global,
    rows: &RowTable,
    registry: &Registry<Buffer>,
    path: &Path,
    row: &Row,
    placed: &mut Vec<Option<Vec3>>,
    tris: &mut TriangleList,
) -> Result<(), DrawsFault>
    requires { All (λ slot. is_slot_kept registry.now slot ≡ true) (slots_of row.now) }
    ensures pushed { OnOk result (tris.new ≡ tris.old ++ shown_draws (map (shown registry.now) rows.now) (shown registry.now (record { path = path.now; row = row.now }))) }
    ensures many { result ≡ Err DrawsFault.Triangles → 2 ^ 20 < length (tris.old ++ shown_draws (map (shown registry.now) rows.now) (shown registry.now (record { path = path.now; row = row.now }))) }
{
    match row {
        Row::Rprim(rprim) => push_rprim(alloc, rows, registry, path, rprim, placed, tris),
        _ => Ok(()),
    }
}

/// Adds the triangles of a row of a mesh or of points, where it is visible.
fn push_rprim(
    alloc: Global,
    rows: &RowTable,
    registry: &Registry<Buffer>,
    path: &Path,
    row: &RprimRow,
    placed: &mut Vec<Option<Vec3>>,
    tris: &mut TriangleList,
) -> Result<(), DrawsFault>
    requires points_kept { is_slot_kept registry.now row.now.points ≡ true }
    requires triangles_kept { is_slot_kept registry.now row.now.triangles ≡ true }
    requires colors_kept { is_slot_kept registry.now row.now.colors ≡ true }
    ensures pushed { OnOk result (tris.new ≡ tris.old ++ rprim_draws (map (shown registry.now) rows.now) path.now row.now (content_given registry.now row.now.points) (content_given registry.now row.now.triangles) (content_given registry.now row.now.colors)) }
    ensures many { result ≡ Err DrawsFault.Triangles → 2 ^ 20 < length (tris.old ++ rprim_draws (map (shown registry.now) rows.now) path.now row.now (content_given registry.now row.now.points) (content_given registry.now row.now.triangles) (content_given registry.now row.now.colors)) }
{
    if !row.visible || !is_for_pictures(row.purpose) {
        return Ok(());
    }
    let matrices = placements(alloc, rows, path, row)?;
    push_placed(
        &geometry_of(registry, row),
        matrices.as_slice(),
        placed,
        tris,
    )
}

/// Whether a picture shows what is for this purpose.
fn is_for_pictures(purpose: Purpose) -> bool
    ensures { result ≡ is_for_pictures purpose }
{
    match purpose {
        Purpose::Default => true,
        Purpose::Render => true,
        Purpose::Proxy => false,
        Purpose::Guide => false,
    }
}

/// Adds the triangles where each of the matrices places them.
fn push_placed(
    geometry: &Geometry,
    matrices: &[Matrix],
    placed: &mut Vec<Option<Vec3>>,
    tris: &mut TriangleList,
) -> Result<(), DrawsFault>
    ensures pushed { OnOk result (tris.new ≡ tris.old ++ flat_map (placed_triangles geometry.now.shape geometry.now.faces geometry.now.points.now geometry.now.triangles.now geometry.now.colors.now) matrices.now) }
    ensures many { result ≡ Err DrawsFault.Triangles → 2 ^ 20 < length (tris.old ++ flat_map (placed_triangles geometry.now.shape geometry.now.faces geometry.now.points.now geometry.now.triangles.now geometry.now.colors.now) matrices.now) }
{
    for matrix in matrices {
        push_shape(geometry, matrix, placed, tris)?;
    }
    Ok(())
}

/// Adds the triangles where a matrix places them.
fn push_shape(
    geometry: &Geometry,
    matrix: &Matrix,
    placed: &mut Vec<Option<Vec3>>,
    tris: &mut TriangleList,
) -> Result<(), DrawsFault>
    ensures pushed { OnOk result (tris.new ≡ tris.old ++ placed_triangles geometry.now.shape geometry.now.faces geometry.now.points.now geometry.now.triangles.now geometry.now.colors.now matrix.now) }
    ensures many { result ≡ Err DrawsFault.Triangles → 2 ^ 20 < length (tris.old ++ placed_triangles geometry.now.shape geometry.now.faces geometry.now.points.now geometry.now.triangles.now geometry.now.colors.now matrix.now) }
{
    match geometry.shape {
        Shape::Mesh => push_mesh(geometry, matrix, placed, tris),
        Shape::Points => push_squares(geometry.points, geometry.colors, matrix, tris),
    }
}
