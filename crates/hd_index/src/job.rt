//! A job: a row that is read of its prim.

ghost use Rattle.std.specs.Prelude.{◌≡◌};
ghost use Rattle.hd_index.specs.inner.Jobs.{with_slots};

use hd_dirty::Bits;
use hd_path::Path;
use hd_registry::{Slot, Staging, Wants};
use hd_rprim::{Buffer, PathRow, Row, RprimRow, stage};
use hd_scene::Prim;
use hd_sync::Slots;
use std::alloc::{AllocError, Global};

/// A row whose parts of these bits are read of the prim.
#[derive(Drop)]
pub(crate) struct RowJob {
    pub path: Path,
    pub row: Row,
    pub bits: Bits,
    pub prim: Prim,

    /// Whether the parts have been read.
    pub is_staged: bool,

    /// The slots that the job was given.
    pub slots: Slots,
}

impl RowJob {
    /// The row with the slots that the job was given.
    pub(crate) fn into_row(self) -> Row
        ensures { result ≡ with_slots self.slots self.row }
    {
        let RowJob {
            path: _,
            row,
            bits: _,
            prim: _,
            is_staged: _,
            slots,
        } = self;
        row_with(slots, row)
    }
}

/// The row with these slots, each in place of what was there where it is given.
fn row_with(slots: Slots, row: Row) -> Row
    ensures { result ≡ with_slots slots row }
{
    match row {
        Row::Rprim(row) => Row::Rprim(RprimRow {
            shape: row.shape,
            matrix: row.matrix,
            visible: row.visible,
            purpose: row.purpose,
            binding: row.binding,
            instanced_by: row.instanced_by,
            faces: row.faces,
            points: slots.first.or(row.points),
            triangles: slots.second.or(row.triangles),
            colors: slots.third.or(row.colors),
        }),
        Row::Camera(matrix) => Row::Camera(matrix),
        Row::Material(color) => Row::Material(color),
        Row::Instancer(row) => Row::Instancer(row),
    }
}

impl Staging for RowJob {
    ghost use Rattle.hd_sync.specs.Syncing.{listed};
    ghost use Rattle.hd_index.specs.inner.Jobs.{subject_of, wants_of};

    type Content = Buffer;

    type Subject = PathRow;

    ghost subject = { subject_of };

    ghost wants = { wants_of };

    ghost is_staged = { λ job. job.is_staged };

    ghost given = { λ job. listed job.slots };

    fn stage(&mut self, alloc: Global) -> Result<Wants<Buffer>, AllocError> {
        let (row, wants) = stage(alloc, &self.row, self.bits, &self.prim)?;
        self.row = row;
        self.is_staged = true;
        Ok(wants)
    }

    fn give(&mut self, slots: [Option<Slot>; 3]) {
        self.slots = Slots {
            first: slots[0],
            second: slots[1],
            third: slots[2],
        };
    }
}
