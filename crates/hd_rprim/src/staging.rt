//! Rows with parts read anew, and the buffers that they want.

ghost use Rattle.std.specs.Prelude.{◌≡◌, [], ◌∷◌, Some, None, IfOk};
ghost use Rattle.std.specs.Option.{option_map};
ghost use Rattle.std.specs.Arc.{arc_value};
ghost use Rattle.hd_value.specs.declared.groups.Group.TheVariants as group;
ghost use Rattle.hd_dirty.specs.Bits.{number_of};
ghost use Rattle.hd_registry.specs.Wanted.{contents_wanted};
ghost use Rattle.hd_rprim.specs.Readings.{values_of, matrix_in, visible_in, purpose_in, binding_in, instancers_in, face_count_in, points_in, triangles_in, colors_in, material_color_in, positions_in, proto_indices_in, targets_in};
ghost use Rattle.hd_rprim.specs.Staged.{renewed, staged, staged_rprim, staged_instancer, wanted, buffers_of};
ghost use Rattle.hd_rprim.specs.declared.row.Row.TheVariants.{Rprim};
ghost use Rattle.hd_rprim.specs.declared.row.RprimRow.{RprimRow};
ghost use Rattle.hd_rprim.specs.declared.buffer.Buffer.TheVariants.{Points, Triangles, Colors};

use crate::buffer::Buffer;
use crate::row::{InstancerRow, Purpose, Row, RprimRow};
use crate::values;
use hd_dirty::Bits;
use hd_num::{List, Matrix, Rgb, Vec3};
use hd_path::Path;
use hd_registry::Wants;
use hd_scene::Prim;
use hd_value::Group;
use std::alloc::{AllocError, Global};
use std::sync::Arc;

/// The row with the parts of these bits read from the prim, and the buffers that it wants: points, triangles and colors,
/// each where its bit is set. A row that is not drawn wants none. The slots stay as they are in the row.
pub fn stage(
    alloc: Global,
    row: &Row,
    bits: Bits,
    prim: &Prim,
) -> Result<(Row, Wants<Buffer>), AllocError>
    ensures row { IfOk result (λ made. made.0 ≡ staged (number_of bits) (values_of prim.now) row.now) }
    ensures wants { IfOk result (λ made. contents_wanted made.1 ≡ buffers_of (number_of bits) (values_of prim.now) row.now) }
{
    match row {
        Row::Rprim(row) => {
            let wants = rprim_wants(alloc, bits, prim)?;
            Ok((Row::Rprim(stage_rprim(row, bits, prim)?), wants))
        }
        Row::Camera(matrix) => Ok((Row::Camera(stage_matrix(*matrix, bits, prim)), no_wants())),
        Row::Material(color) => Ok((Row::Material(stage_color(*color, bits, prim)), no_wants())),
        Row::Instancer(row) => Ok((
            Row::Instancer(stage_instancer(row, bits, prim)?),
            no_wants(),
        )),
    }
}

fn no_wants() -> Wants<Buffer>
    ensures { contents_wanted result ≡ None ∷ None ∷ None ∷ [] }
{
    Wants {
        first: None,
        second: None,
        third: None,
    }
}

fn rprim_wants(alloc: Global, bits: Bits, prim: &Prim) -> Result<Wants<Buffer>, AllocError>
    ensures { (row : RprimRow) → IfOk result (λ wants. contents_wanted wants ≡ buffers_of (number_of bits) (values_of prim.now) (Rprim row)) }
{
    Ok(Wants {
        first: wanted_points(alloc, bits, prim)?,
        second: wanted_triangles(alloc, bits, prim)?,
        third: wanted_colors(alloc, bits, prim)?,
    })
}

fn wanted_points(alloc: Global, bits: Bits, prim: &Prim) -> Result<Option<Arc<Buffer>>, AllocError>
    ensures { IfOk result (λ made. option_map arc_value made ≡ wanted (number_of bits) group.Points (Points (points_in (values_of prim.now)))) }
{
    if !bits.has(Group::Points) {
        return Ok(None);
    }
    let points = values::points_in(prim)?;
    Ok(Some(Arc::new(alloc, Buffer::Points(points))?))
}

fn wanted_triangles(
    alloc: Global,
    bits: Bits,
    prim: &Prim,
) -> Result<Option<Arc<Buffer>>, AllocError>
    ensures { IfOk result (λ made. option_map arc_value made ≡ wanted (number_of bits) group.Topology (Triangles (triangles_in (values_of prim.now)))) }
{
    if !bits.has(Group::Topology) {
        return Ok(None);
    }
    let triangles = values::triangles_in(alloc, prim)?;
    Ok(Some(Arc::new(alloc, Buffer::Triangles(triangles))?))
}

fn wanted_colors(alloc: Global, bits: Bits, prim: &Prim) -> Result<Option<Arc<Buffer>>, AllocError>
    ensures { IfOk result (λ made. option_map arc_value made ≡ wanted (number_of bits) group.Color (Colors (colors_in (values_of prim.now)))) }
{
    if !bits.has(Group::Color) {
        return Ok(None);
    }
    let colors = values::colors_in(alloc, prim)?;
    Ok(Some(Arc::new(alloc, Buffer::Colors(colors))?))
}

fn stage_rprim(row: &RprimRow, bits: Bits, prim: &Prim) -> Result<RprimRow, AllocError>
    ensures { IfOk result (λ made. made ≡ staged_rprim (number_of bits) (values_of prim.now) row.now) }
{
    Ok(RprimRow {
        shape: row.shape,
        matrix: stage_matrix(row.matrix, bits, prim),
        visible: stage_visible(row.visible, bits, prim),
        purpose: stage_purpose(row.purpose, bits, prim),
        binding: stage_binding(&row.binding, bits, prim)?,
        instanced_by: stage_instancers(&row.instanced_by, bits, prim)?,
        faces: stage_faces(row.faces, bits, prim)?,
        points: row.points,
        triangles: row.triangles,
        colors: row.colors,
    })
}

fn stage_instancer(row: &InstancerRow, bits: Bits, prim: &Prim) -> Result<InstancerRow, AllocError>
    ensures { IfOk result (λ made. made ≡ staged_instancer (number_of bits) (values_of prim.now) row.now) }
{
    Ok(InstancerRow {
        matrix: stage_matrix(row.matrix, bits, prim),
        visible: stage_visible(row.visible, bits, prim),
        instanced_by: stage_instancers(&row.instanced_by, bits, prim)?,
        positions: stage_positions(&row.positions, bits, prim)?,
        proto_indices: stage_proto_indices(&row.proto_indices, bits, prim)?,
        targets: stage_targets(&row.targets, bits, prim)?,
    })
}

fn stage_matrix(old: Option<Matrix>, bits: Bits, prim: &Prim) -> Option<Matrix>
    ensures { result ≡ renewed (number_of bits) group.Transform (matrix_in (values_of prim.now)) old }
{
    if bits.has(Group::Transform) {
        values::matrix_in(prim)
    } else {
        old
    }
}

fn stage_visible(old: bool, bits: Bits, prim: &Prim) -> bool
    ensures { result ≡ renewed (number_of bits) group.Visibility (visible_in (values_of prim.now)) old }
{
    if bits.has(Group::Visibility) {
        values::visible_in(prim)
    } else {
        old
    }
}

fn stage_purpose(old: Purpose, bits: Bits, prim: &Prim) -> Purpose
    ensures { result ≡ renewed (number_of bits) group.Purpose (purpose_in (values_of prim.now)) old }
{
    if bits.has(Group::Purpose) {
        values::purpose_in(prim)
    } else {
        old
    }
}

fn stage_binding(old: &Option<Path>, bits: Bits, prim: &Prim) -> Result<Option<Path>, AllocError>
    ensures { IfOk result (λ path. path ≡ renewed (number_of bits) group.Binding (binding_in (values_of prim.now)) old.now) }
{
    if bits.has(Group::Binding) {
        return values::binding_in(prim);
    }
    match old {
        Some(path) => Ok(Some(path.copy()?)),
        None => Ok(None),
    }
}

fn stage_instancers(old: &List<Path>, bits: Bits, prim: &Prim) -> Result<List<Path>, AllocError>
    ensures { IfOk result (λ paths. paths ≡ renewed (number_of bits) group.Instancer (instancers_in (values_of prim.now)) old.now) }
{
    if bits.has(Group::Instancer) {
        values::instancers_in(prim)
    } else {
        old.copy()
    }
}

fn stage_faces(old: u64, bits: Bits, prim: &Prim) -> Result<u64, AllocError>
    ensures { IfOk result (λ faces. faces ≡ renewed (number_of bits) group.Topology (face_count_in (values_of prim.now)) old) }
{
    if bits.has(Group::Topology) {
        values::face_count_in(prim)
    } else {
        Ok(old)
    }
}

fn stage_color(old: Option<Rgb>, bits: Bits, prim: &Prim) -> Option<Rgb>
    ensures { result ≡ renewed (number_of bits) group.MaterialColor (material_color_in (values_of prim.now)) old }
{
    if bits.has(Group::MaterialColor) {
        values::material_color_in(prim)
    } else {
        old
    }
}

fn stage_positions(old: &List<Vec3>, bits: Bits, prim: &Prim) -> Result<List<Vec3>, AllocError>
    ensures { IfOk result (λ positions. positions ≡ renewed (number_of bits) group.Instances (positions_in (values_of prim.now)) old.now) }
{
    if bits.has(Group::Instances) {
        values::positions_in(prim)
    } else {
        old.copy()
    }
}

fn stage_proto_indices(old: &List<i64>, bits: Bits, prim: &Prim) -> Result<List<i64>, AllocError>
    ensures { IfOk result (λ numbers. numbers ≡ renewed (number_of bits) group.Instances (proto_indices_in (values_of prim.now)) old.now) }
{
    if bits.has(Group::Instances) {
        values::proto_indices_in(prim)
    } else {
        old.copy()
    }
}

fn stage_targets(old: &List<Path>, bits: Bits, prim: &Prim) -> Result<List<Path>, AllocError>
    ensures { IfOk result (λ paths. paths ≡ renewed (number_of bits) group.Instances (targets_in (values_of prim.now)) old.now) }
{
    if bits.has(Group::Instances) {
        values::targets_in(prim)
    } else {
        old.copy()
    }
}
