//! What a population or a commit of an index changed.

ghost use Rattle.std.specs.Prelude.{◌≡◌, [], map, IfOk};
ghost use Rattle.hd_dirty.specs.Bits.{number_of};
ghost use Rattle.hd_index.specs.Reports.{path_and_bits};

use crate::job::RowJob;
use hd_dirty::Bits;
use hd_num::List;
use hd_path::Path;
use std::alloc::{AllocError, Global};

/// A path, and the bits of what changed at it.
#[derive(Drop)]
pub struct DirtyPath {
    pub path: Path,
    pub bits: Bits,
}

/// What changed in an index: the rows that were read again, with their bits, and the paths that have no row any more, each
/// in path order.
#[derive(Drop)]
pub struct Report {
    pub dirty: List<DirtyPath>,
    pub gone: List<Path>,
}

/// The report of jobs alone.
pub(crate) fn report_of(alloc: Global, jobs: &[RowJob]) -> Result<Report, AllocError>
    ensures dirty { IfOk result (λ report. map path_and_bits report.dirty ≡ map (λ job. (job.path, number_of job.bits)) jobs.now) }
    ensures gone { IfOk result (λ report. report.gone ≡ []) }
{
    let mut dirty = Vec::with_capacity(alloc, jobs.len())?;
    for job in jobs {
        dirty.push(DirtyPath {
            path: job.path.copy()?,
            bits: job.bits,
        })?;
    }
    Ok(Report {
        dirty: List::of(alloc, dirty)?,
        gone: List::empty(),
    })
}
