//! The table of the rows of jobs.

ghost use Rattle.std.specs.Prelude.{◌≡◌, map, IfOk};
ghost use Rattle.hd_rprim.specs.Tables.{paths_of_rows, AreRows};
ghost use Rattle.hd_index.specs.inner.Jobs.{placed};

use crate::job::RowJob;
use hd_rprim::RowTable;
use std::alloc::{AllocError, Global};

/// A table with the paths of the jobs, whose rows are those that the jobs began with.
pub(crate) fn table_of(alloc: Global, jobs: &[RowJob]) -> Result<RowTable, AllocError>
    requires { AreRows (map placed jobs.now) }
    ensures { IfOk result (λ rows. paths_of_rows rows ≡ map (λ job. job.path) jobs.now) }
{
    let mut rows = RowTable::new(alloc);
    for job in jobs {
        rows.put(alloc, job.path.copy()?, job.row.copy()?)?;
    }
    Ok(rows)
}

/// Puts the rows of jobs, with their slots, into a table that has their paths.
pub(crate) fn fill(rows: &mut RowTable, jobs: Vec<RowJob>)
    requires { paths_of_rows rows.old ≡ map (λ job. job.path) jobs.items }
    ensures { rows.new ≡ map placed jobs.items }
{
    let mut jobs = jobs;
    while let Some(job) = jobs.pop() {
        rows.set(jobs.len(), job.into_row());
    }
}
