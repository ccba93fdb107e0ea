//! Appends the lines of a dump to a text.

ghost use Rattle.std.specs.Prelude.{◌≡◌, ◌++◌, nat_eq, None, OnOk};
ghost use Rattle.hd_path.specs.Paths.{path_text};
ghost use Rattle.hd_dump.specs.Contents.{number_in};
ghost use Rattle.hd_dump.specs.Lines.{purpose_word, rprim_text, number_text, shape_line, placing_text, instances_text, row_line, kind_word, items_text, entry_line};
ghost use Rattle.hd_dump.specs.inner.Numbering.{slot_line};
ghost use Rattle.hd_rprim.specs.declared.row.Shape.TheVariants.{Mesh, Points};
ghost use Rattle.hd_rprim.specs.declared.row.Row.TheVariants.{Camera, Material, Instancer};
ghost use Rattle.indexmap.specs.IndexMap.{keys};

use crate::items::push_list;
use crate::text::{
    push_binding, push_color_or_dash, push_flag, push_matrix, push_number, push_number_or_dash,
};
use hd_num::{Matrix, Rgb};
use hd_path::Path;
use hd_registry::Slot;
use hd_rprim::{Buffer, InstancerRow, Purpose, Row, RprimRow, Shape};
use indexmap::IndexMap;
use std::alloc::AllocError;

fn purpose_word(purpose: Purpose) -> &'static str
    ensures { result.now ≡ purpose_word purpose }
{
    match purpose {
        Purpose::Default => "default",
        Purpose::Render => "render",
        Purpose::Proxy => "proxy",
        Purpose::Guide => "guide",
    }
}

/// Appends what a mesh and points have in common.
fn push_rprim(text: &mut Vec<u8>, row: &RprimRow) -> Result<(), AllocError>
    ensures { OnOk result (text.new.items ≡ text.old.items ++ rprim_text row.now) }
{
    text.extend_from_slice(b" m ")?;
    push_matrix(text, &row.matrix)?;
    text.extend_from_slice(b" v ")?;
    push_flag(text, row.visible)?;
    text.extend_from_slice(b" p ")?;
    text.extend_from_slice(purpose_word(row.purpose).as_bytes())?;
    text.extend_from_slice(b" b ")?;
    push_binding(text, &row.binding)?;
    text.extend_from_slice(b" i ")?;
    push_list(text, b",", row.instanced_by.items())?;
    Ok(())
}

/// Appends where an instancer is, and what instances it.
fn push_placing(text: &mut Vec<u8>, row: &InstancerRow) -> Result<(), AllocError>
    ensures { OnOk result (text.new.items ≡ text.old.items ++ placing_text row.now) }
{
    text.extend_from_slice(b" m ")?;
    push_matrix(text, &row.matrix)?;
    text.extend_from_slice(b" v ")?;
    push_flag(text, row.visible)?;
    text.extend_from_slice(b" i ")?;
    push_list(text, b",", row.instanced_by.items())?;
    Ok(())
}

/// Appends the instances of an instancer, and its targets.
fn push_instances(text: &mut Vec<u8>, row: &InstancerRow) -> Result<(), AllocError>
    ensures { OnOk result (text.new.items ≡ text.old.items ++ instances_text row.now) }
{
    text.extend_from_slice(b" at ")?;
    push_list(text, b";", row.positions.items())?;
    text.extend_from_slice(b" of ")?;
    push_list(text, b",", row.proto_indices.items())?;
    text.extend_from_slice(b" to ")?;
    push_list(text, b",", row.targets.items())?;
    Ok(())
}

/// The number of the content of a slot, where there is one.
fn slot_number(users: &IndexMap<Slot, u128>, slot: Option<Slot>) -> Option<usize>
    ensures { result ≡ number_in nat_eq (keys users.now) slot }
{
    match slot {
        Some(slot) => users.get_index_of(&slot),
        None => None,
    }
}

/// Appends a label, and the number of a slot's content.
fn push_content(
    text: &mut Vec<u8>,
    label: &[u8],
    slot: Option<Slot>,
    users: &IndexMap<Slot, u128>,
) -> Result<(), AllocError>
    ensures { OnOk result (text.new.items ≡ text.old.items ++ label.now ++ number_text (number_in nat_eq (keys users.now) slot)) }
{
    text.extend_from_slice(label)?;
    push_number_or_dash(text, slot_number(users, slot))?;
    Ok(())
}

/// Appends what a line begins with: its word and the path.
fn push_path(text: &mut Vec<u8>, word: &[u8], path: &Path) -> Result<(), AllocError>
    ensures { OnOk result (text.new.items ≡ text.old.items ++ word.now ++ path_text path.now) }
{
    text.extend_from_slice(word)?;
    text.extend_from_slice(path.as_text().as_bytes())?;
    Ok(())
}

fn push_mesh(
    text: &mut Vec<u8>,
    path: &Path,
    row: &RprimRow,
    users: &IndexMap<Slot, u128>,
) -> Result<(), AllocError>
    ensures { OnOk result (text.new.items ≡ text.old.items ++ shape_line Mesh path.now row.now
        (number_in nat_eq (keys users.now) row.now.points) (number_in nat_eq (keys users.now) row.now.triangles) (number_in nat_eq (keys users.now) row.now.colors)) }
{
    push_path(text, b"mesh ", path)?;
    push_rprim(text, row)?;
    push_content(text, b" pts ", row.points, users)?;
    push_content(text, b" tri ", row.triangles, users)?;
    push_content(text, b" col ", row.colors, users)?;
    text.extend_from_slice(b"\n")?;
    Ok(())
}

fn push_points(
    text: &mut Vec<u8>,
    path: &Path,
    row: &RprimRow,
    users: &IndexMap<Slot, u128>,
) -> Result<(), AllocError>
    ensures { OnOk result (text.new.items ≡ text.old.items ++ shape_line Points path.now row.now
        (number_in nat_eq (keys users.now) row.now.points) (number_in nat_eq (keys users.now) row.now.triangles) (number_in nat_eq (keys users.now) row.now.colors)) }
{
    push_path(text, b"points ", path)?;
    push_rprim(text, row)?;
    push_content(text, b" pts ", row.points, users)?;
    push_content(text, b" col ", row.colors, users)?;
    text.extend_from_slice(b"\n")?;
    Ok(())
}

fn push_camera(text: &mut Vec<u8>, path: &Path, matrix: &Option<Matrix>) -> Result<(), AllocError>
    ensures { OnOk result (text.new.items ≡ text.old.items ++ row_line path.now (Camera matrix.now) None None None) }
{
    push_path(text, b"camera ", path)?;
    text.extend_from_slice(b" m ")?;
    push_matrix(text, matrix)?;
    text.extend_from_slice(b"\n")?;
    Ok(())
}

fn push_material(text: &mut Vec<u8>, path: &Path, color: &Option<Rgb>) -> Result<(), AllocError>
    ensures { OnOk result (text.new.items ≡ text.old.items ++ row_line path.now (Material color.now) None None None) }
{
    push_path(text, b"material ", path)?;
    text.extend_from_slice(b" c ")?;
    push_color_or_dash(text, color)?;
    text.extend_from_slice(b"\n")?;
    Ok(())
}

fn push_instancer(text: &mut Vec<u8>, path: &Path, row: &InstancerRow) -> Result<(), AllocError>
    ensures { OnOk result (text.new.items ≡ text.old.items ++ row_line path.now (Instancer row.now) None None None) }
{
    push_path(text, b"instancer ", path)?;
    push_placing(text, row)?;
    push_instances(text, row)?;
    text.extend_from_slice(b"\n")?;
    Ok(())
}

/// Appends the line of a row, with the numbers of its slots.
pub(crate) fn push_row(
    text: &mut Vec<u8>,
    path: &Path,
    row: &Row,
    users: &IndexMap<Slot, u128>,
) -> Result<(), AllocError>
    ensures { OnOk result (text.new.items ≡ text.old.items ++ slot_line (keys users.now) path.now row.now) }
{
    match row {
        Row::Rprim(row) => match row.shape {
            Shape::Mesh => push_mesh(text, path, row, users),
            Shape::Points => push_points(text, path, row, users),
        },
        Row::Camera(matrix) => push_camera(text, path, matrix),
        Row::Material(color) => push_material(text, path, color),
        Row::Instancer(row) => push_instancer(text, path, row),
    }
}

fn kind_word(content: &Buffer) -> &'static str
    ensures { result.now ≡ kind_word content.now }
{
    match content {
        Buffer::Points(_) => "pts",
        Buffer::Triangles(_) => "tri",
        Buffer::Colors(_) => "col",
    }
}

fn push_items(text: &mut Vec<u8>, content: &Buffer) -> Result<(), AllocError>
    ensures { OnOk result (text.new.items ≡ text.old.items ++ items_text content.now) }
{
    match content {
        Buffer::Points(points) => push_list(text, b";", points.items()),
        Buffer::Triangles(triangles) => push_list(text, b";", triangles.items()),
        Buffer::Colors(colors) => push_list(text, b";", colors.items()),
    }
}

/// Appends the line of a content, with its number and the number of its uses.
pub(crate) fn push_entry(
    text: &mut Vec<u8>,
    number: usize,
    content: &Buffer,
    users: u128,
) -> Result<(), AllocError>
    ensures { OnOk result (text.new.items ≡ text.old.items ++ entry_line number content.now users) }
{
    text.extend_from_slice(b"entry ")?;
    push_number(text, number)?;
    text.extend_from_slice(b" ")?;
    text.extend_from_slice(kind_word(content).as_bytes())?;
    text.extend_from_slice(b" users ")?;
    push_number(text, users)?;
    text.extend_from_slice(b" ")?;
    push_items(text, content)?;
    text.extend_from_slice(b"\n")?;
    Ok(())
}
