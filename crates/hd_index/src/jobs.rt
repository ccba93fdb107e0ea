//! The jobs of the prims of a scene.

ghost use Rattle.std.specs.Prelude.{◌≡◌, ◌++◌, [], false, All, map, option_map, IfOk, IfSome, OnOk};
ghost use Rattle.std.specs.List.{cons_option};
ghost use Rattle.hd_index.specs.inner.Jobs.{planned, placed, shown_of_answer, dirty_of_answer, HasNoSlots};
ghost use Rattle.hd_index.specs.Reports.{all_dirty};
ghost use Rattle.hd_dirty.specs.Bits.{number_of};
ghost use Rattle.hd_rprim.specs.PrimRows.{rows_of};
ghost use Rattle.hd_rprim.specs.Tables.{AreRows};

use crate::job::RowJob;
use hd_dirty::all_of;
use hd_path::Path;
use hd_rprim::Row;
use hd_scene::{Prim, SceneIndex, all_paths};
use hd_sync::Slots;
use std::alloc::{AllocError, Global};

/// A job for each prim of a scene that has a row, in path order: all bits of its kind are to be read. Each prim is asked once.
pub(crate) fn jobs_of<I: SceneIndex>(
    alloc: Global,
    scene: &mut I,
) -> Result<Vec<RowJob>, AllocError>
    requires { I.is_in_step scene.old }
    ensures planned { IfOk result (λ jobs. map planned jobs.items ≡ rows_of (I.scene scene.old)) }
    ensures bits { IfOk result (λ jobs. map (λ job. (job.path, number_of job.bits)) jobs.items ≡ all_dirty (I.scene scene.old)) }
    ensures not_staged { IfOk result (λ jobs. All (λ job. job.is_staged ≡ false) jobs.items) }
    ensures no_slots { IfOk result (λ jobs. All HasNoSlots jobs.items) }
    ensures ascending { IfOk result (λ jobs. AreRows (map placed jobs.items)) }
    ensures in_step { I.is_in_step scene.new }
    ensures same_scene { I.scene scene.new ≡ I.scene scene.old }
    ensures same_origin { I.origin scene.new ≡ I.origin scene.old }
{
    let paths = all_paths(scene, alloc)?;
    let mut jobs = Vec::new(alloc);
    for path in paths {
        let prim = scene.prim(alloc, &path)?;
        add_job(&mut jobs, path, prim)?;
    }
    Ok(jobs)
}

/// Adds the job of a prim, where its kind has rows.
fn add_job(jobs: &mut Vec<RowJob>, path: Path, prim: Prim) -> Result<(), AllocError>
    ensures planned { OnOk result (map planned jobs.new.items ≡ map planned jobs.old.items ++ cons_option (shown_of_answer path prim) []) }
    ensures bits { OnOk result (map (λ job. (job.path, number_of job.bits)) jobs.new.items ≡ map (λ job. (job.path, number_of job.bits)) jobs.old.items ++ cons_option (dirty_of_answer path prim) []) }
    ensures not_staged { OnOk result (All (λ job. job.is_staged ≡ false) jobs.old.items → All (λ job. job.is_staged ≡ false) jobs.new.items) }
    ensures no_slots { OnOk result (All HasNoSlots jobs.old.items → All HasNoSlots jobs.new.items) }
{
    if let Some(job) = job_of(path, prim) {
        jobs.push(job)?;
    }
    Ok(())
}

/// The job of a prim, where its kind has rows.
fn job_of(path: Path, prim: Prim) -> Option<RowJob>
    ensures planned { option_map planned result ≡ shown_of_answer path prim }
    ensures bits { option_map (λ job. (job.path, number_of job.bits)) result ≡ dirty_of_answer path prim }
    ensures not_staged { IfSome result (λ job. job.is_staged ≡ false) }
    ensures no_slots { IfSome result HasNoSlots }
{
    let row = Row::blank(&prim.kind)?;
    Some(RowJob {
        path,
        row,
        bits: all_of(&prim.kind),
        prim,
        is_staged: false,
        slots: Slots::none(),
    })
}
