//! Rows by path, in path order.

ghost use Rattle.std.specs.Prelude.{◌≡◌, ◌<◌, [], length, IfOk, IfErr, OnOk, OnErr, slice_get, Some, IsTrue, ◌↔◌};
ghost use Rattle.std.specs.Option.{option_map, option_copied};
ghost use Rattle.std.specs.List.Sorted.{IsStrictlySortedBy};
ghost use Rattle.hd_path.specs.Paths.{path_cmp};
ghost use Rattle.hd_rprim.specs.Tables.{paths_of_rows, place_of, row_of, rows_with, rows_without, with_row_at, AreRows};
ghost use Rattle.hd_rprim.specs.inner.Places.{IsPlace, IsGap};

use crate::row::Row;
use hd_path::Path;
use std::alloc::{AllocError, Global};
use std::cmp::Ordering;
use std::marker::Model;

/// A row, and the path of its prim.
#[derive(Drop)]
pub struct PathRow {
    pub path: Path,
    pub row: Row,
}

/// A row on the heap, so that rows in a table move cheaply.
#[derive(Drop)]
pub(crate) struct BoxedRow {
    boxed: Box<PathRow>,
}

impl Model for BoxedRow {
    ghost use Rattle.hd_rprim.specs.declared.row_table.PathRow.{PathRow};

    ghost Value = { PathRow };

    ghost view = { λ row. row.boxed.value };
}

impl BoxedRow {
    /// The row alone, taken off the heap.
    fn into_row(self) -> Row
        ensures { result ≡ self.row }
    {
        let PathRow { path: _, row } = Box::into_inner(self.boxed);
        row
    }
}

/// The rows of an index: each with its path, in path order, and no path twice.
#[derive(Drop)]
pub struct RowTable {
    rows: Vec<BoxedRow>,
}

impl Model for RowTable {
    ghost use Rattle.std.specs.Prelude.{List};
    ghost use Rattle.hd_rprim.specs.declared.row_table.PathRow.{PathRow};
    ghost use Rattle.hd_rprim.specs.Tables.{AreRows};

    ghost Value = { List PathRow };

    ghost view = { λ table. table.rows.items };

    ghost invariant = { λ table. AreRows table.rows.items };
}

impl RowTable {
    /// The table without rows, which takes no memory.
    pub fn new(alloc: Global) -> RowTable
        ensures { result ≡ [] }
    {
        RowTable {
            rows: Vec::new(alloc),
        }
    }

    /// Puts a row at a path, in place of the row that was there. Refused it changes nothing.
    pub fn put(&mut self, alloc: Global, path: Path, row: Row) -> Result<(), AllocError>
        ensures ok { OnOk result (self.new ≡ rows_with path row self.old) }
        ensures err { OnErr result (self.new ≡ self.old) }
    {
        let place = place_of(&self.rows, &path);
        let boxed = BoxedRow {
            boxed: Box::new(alloc, PathRow { path, row })?,
        };
        match place {
            Ok(i) => self.rows[i] = boxed,
            Err(i) => self.rows.insert(i, boxed)?,
        }
        Ok(())
    }

    /// Takes the row of a path out, if there is one.
    pub fn take(&mut self, path: &Path) -> Option<Row>
        ensures taken { result ≡ row_of path.now self.old }
        ensures others { self.new ≡ rows_without path.now self.old }
    {
        match place_of(&self.rows, path) {
            Ok(i) => Some(self.rows.remove(i).into_row()),
            Err(_) => None,
        }
    }

    /// Puts a row in the place of the one with this number, from 0, which keeps its path.
    pub fn set(&mut self, i: usize, row: Row)
        requires { i < length self.old }
        ensures { self.new ≡ with_row_at i row self.old }
    {
        let kept = &mut self.rows[i];
        kept.boxed.row = row;
    }

    /// How many rows there are.
    pub fn len(&self) -> usize
        ensures { result ≡ length self.now }
    {
        self.rows.len()
    }

    /// Whether there are no rows.
    pub fn is_empty(&self) -> bool
        ensures { IsTrue result ↔ (self.now ≡ []) }
    {
        self.rows.is_empty()
    }

    /// The path of the row with this number, from 0.
    pub fn path_at(&self, i: usize) -> &Path
        requires { i < length self.now }
        ensures { Some result.now ≡ option_map (λ row. row.path) (slice_get self.now i) }
    {
        &self.rows[i].boxed.path
    }

    /// The row with this number, from 0.
    pub fn row_at(&self, i: usize) -> &Row
        requires { i < length self.now }
        ensures { Some result.now ≡ option_map (λ row. row.row) (slice_get self.now i) }
    {
        &self.rows[i].boxed.row
    }

    /// The number of the row of a path, or `None` where it has no row.
    pub fn find(&self, path: &Path) -> Option<usize>
        ensures { result ≡ place_of path.now self.now }
    {
        match place_of(&self.rows, path) {
            Ok(i) => Some(i),
            Err(_) => None,
        }
    }

    /// The paths of the rows ascend, so no path is there twice.
    pub fn paths_ascend(&self)
        ensures { IsStrictlySortedBy path_cmp (paths_of_rows self.now) }
    {
        let _ = &self.rows;
    }
}

/// Where the row of the path is, or else where it would be put.
fn place_of(rows: &[BoxedRow], path: &Path) -> Result<usize, usize>
    requires { AreRows rows.now }
    ensures found { IfOk result (IsPlace path.now rows.now) }
    ensures missing { IfErr result (IsGap path.now rows.now) }
{
    rows.binary_search_by(
        |row: &BoxedRow| -> Ordering
            ensures { result ≡ path_cmp row.now.path path.entry.now }
        { row.boxed.path.cmp(path) },
    )
}
