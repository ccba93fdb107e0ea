//! Where the copies of a row are placed.

ghost use Rattle.std.specs.Prelude.{◌≡◌, [], ◌++◌, ◌<◌, length, map, filter_map, zip, Some, IfOk, OnOk};
ghost use Rattle.std.specs.List.{cons_option};
ghost use Rattle.std.specs.Option.{option_copied};
ghost use Rattle.hd_path.specs.Paths.{is_prefix};
ghost use Rattle.hd_registry.specs.Entries.{Entries};
ghost use Rattle.hd_rprim.specs.declared.buffer.Buffer.{Buffer};
ghost use Rattle.hd_rprim.specs.Shown.{shown};
ghost use Rattle.hd_draws.specs.Placements.{instancer_at, places_copies, copy_matrix, copies_by, placements};
ghost use Rattle.hd_draws.specs.inner.Targets.{is_marked, marked_copy};

use hd_num::{Matrix, Op, Vec3};
use hd_path::Path;
use hd_rprim::{InstancerRow, Row, RowTable, RprimRow};
use std::alloc::{AllocError, Global};

/// The matrices by which a row is drawn: its own, or those of the copies by its instancers.
pub(crate) fn placements(
    alloc: Global,
    rows: &RowTable,
    path: &Path,
    row: &RprimRow,
) -> Result<Vec<Matrix>, AllocError>
    ensures { (entries : Entries Buffer) → IfOk result (λ made. made.items ≡ placements (map (shown entries) rows.now) path.now row.now) }
{
    let mut made = Vec::new(alloc);
    if row.instanced_by.is_empty() {
        push_some(&mut made, row.matrix)?;
        return Ok(made);
    }
    for instancer in row.instanced_by.items() {
        let instancer = instancer_at(rows, instancer);
        push_copies(alloc, path, &row.matrix, instancer, &mut made)?;
    }
    Ok(made)
}

/// Adds a matrix, if there is one.
fn push_some(made: &mut Vec<Matrix>, matrix: Option<Matrix>) -> Result<(), AllocError>
    ensures { OnOk result (made.new.items ≡ made.old.items ++ cons_option matrix []) }
{
    if let Some(matrix) = matrix {
        made.push(matrix)?;
    }
    Ok(())
}

/// The instancer at a path.
fn instancer_at<'a>(rows: &'a RowTable, path: &Path) -> Option<&'a InstancerRow>
    ensures { (entries : Entries Buffer) → option_copied result ≡ instancer_at (map (shown entries) rows.now) path.now }
{
    match rows.row_at(rows.find(path)?) {
        Row::Instancer(row) => Some(row),
        _ => None,
    }
}

/// Adds the matrices of the copies that an instancer places, if there is one.
fn push_copies(
    alloc: Global,
    path: &Path,
    own: &Option<Matrix>,
    instancer: Option<&InstancerRow>,
    made: &mut Vec<Matrix>,
) -> Result<(), AllocError>
    ensures { OnOk result (made.new.items ≡ made.old.items ++ copies_by path.now own.now (option_copied instancer.entry)) }
{
    match instancer {
        Some(instancer) => push_copies_by(alloc, path, own, instancer, made),
        None => Ok(()),
    }
}

/// Adds the matrices of the copies that an instancer places.
fn push_copies_by(
    alloc: Global,
    path: &Path,
    own: &Option<Matrix>,
    instancer: &InstancerRow,
    made: &mut Vec<Matrix>,
) -> Result<(), AllocError>
    ensures { OnOk result (made.new.items ≡ made.old.items ++ copies_by path.now own.now (Some instancer.now)) }
{
    if !places_copies(instancer) {
        return Ok(());
    }
    let marks = marked_targets(alloc, path, instancer.targets.items())?;
    push_marked(marks.as_slice(), own, instancer, made)
}

/// Whether an instancer places copies.
fn places_copies(instancer: &InstancerRow) -> bool
    ensures { result ≡ places_copies instancer.now }
{
    instancer.visible
        && instancer.instanced_by.is_empty()
        && instancer.positions.len() == instancer.proto_indices.len()
}

/// For each target, whether it has the prim at the path in it.
fn marked_targets(alloc: Global, path: &Path, targets: &[Path]) -> Result<Vec<bool>, AllocError>
    ensures { IfOk result (λ marks. marks.items ≡ map (λ target. is_prefix target path.now) targets.now) }
{
    let mut marks = Vec::with_capacity(alloc, targets.len())?;
    for target in targets {
        marks.push(path.has_prefix(target))?;
    }
    Ok(marks)
}

/// Adds the matrices of the copies of the targets that are marked.
fn push_marked(
    marks: &[bool],
    own: &Option<Matrix>,
    instancer: &InstancerRow,
    made: &mut Vec<Matrix>,
) -> Result<(), AllocError>
    requires { length instancer.now.positions ≡ length instancer.now.proto_indices }
    ensures { OnOk result (made.new.items ≡ made.old.items ++ filter_map (marked_copy marks.now own.now instancer.now.matrix) (zip instancer.now.positions instancer.now.proto_indices)) }
{
    let positions = instancer.positions.items();
    let numbers = instancer.proto_indices.items();
    for i in 0..positions.len() {
        let copy = marked_copy(marks, own, &instancer.matrix, positions[i], numbers[i]);
        push_some(made, copy)?;
    }
    Ok(())
}

/// The matrix of a copy, where its target is marked and the matrix is in range.
fn marked_copy(
    marks: &[bool],
    own: &Option<Matrix>,
    instancer: &Option<Matrix>,
    position: Vec3,
    number: i64,
) -> Option<Matrix>
    ensures { result ≡ marked_copy marks.now own.now instancer.now (position, number) }
{
    if is_marked(marks, number) {
        copy_matrix(own, position, instancer)
    } else {
        None
    }
}

/// Whether the target of this number is marked.
fn is_marked(marks: &[bool], number: i64) -> bool
    ensures { result ≡ is_marked marks.now number }
{
    if number < 0 {
        return false;
    }
    match marks.get(number as usize) {
        Some(mark) => *mark,
        None => false,
    }
}

/// The matrix of a copy: the prim's own, then the translation by the position, then the
/// instancer's.
fn copy_matrix(own: &Option<Matrix>, position: Vec3, instancer: &Option<Matrix>) -> Option<Matrix>
    ensures { result ≡ copy_matrix own.now position instancer.now }
{
    match (own, instancer) {
        (Some(own), Some(instancer)) => {
            let placed = own.compose(&Op::Translate(position).matrix()?)?;
            placed.compose(instancer)
        }
        _ => None,
    }
}
