//! The population of an empty index.

ghost use Rattle.std.specs.Prelude.{◌≡◌, ◌≤◌, ◌^◌, false, true, All, [], map, length, IfOk, OnOk, OnErr};
ghost use Rattle.std.specs.FinMap.{keys};
ghost use Rattle.hd_registry.specs.Entries.{HasRoom};
ghost use Rattle.hd_sync.specs.Syncing.{listed, Synced};
ghost use Rattle.hd_index.specs.Index.{EachIsUsed, HasSameEntries, Shows};
ghost use Rattle.hd_index.specs.inner.Jobs.{subject_of, wants_of};
ghost use Rattle.hd_index.specs.Reports.{ReportsAll};
ghost use Rattle.hd_rprim.specs.PrimRows.{rows_of};

use crate::job::RowJob;
use crate::jobs::jobs_of;
use crate::report::{Report, report_of};
use crate::table::{fill, table_of};
use hd_registry::Registry;
use hd_rprim::{Buffer, RowTable};
use hd_scene::{Kept, SceneIndex};
use hd_sync::Syncer;
use std::alloc::{AllocError, Global};
use std::mem::replace;

/// Fills an index that has no rows, given by its parts, with the rows of a scene.
pub(crate) fn populate<I: SceneIndex, Y: Syncer>(
    alloc: Global,
    rows: &mut RowTable,
    registry: &mut Registry<Buffer>,
    committed: &mut Kept,
    scene: &mut I,
    syncer: &mut Y,
) -> Result<Report, AllocError>
    requires in_step { I.is_in_step scene.old }
    requires few { length (keys (I.scene scene.old)) ≤ 2 ^ 20 }
    requires shows { Shows committed.old.scene rows.old registry.old }
    requires empty { rows_of committed.old.scene ≡ [] }
    ensures shows { Shows committed.new.scene rows.new registry.new }
    ensures committed { OnOk result (committed.new.scene ≡ I.scene scene.old) }
    ensures refused { OnErr result (committed.new.scene ≡ committed.old.scene) }
    ensures report { IfOk result (ReportsAll (I.scene scene.old)) }
    ensures in_step { I.is_in_step scene.new }
    ensures same_scene { I.scene scene.new ≡ I.scene scene.old }
    ensures same_origin { I.origin scene.new ≡ I.origin scene.old }
{
    let mut jobs = jobs_of(alloc, scene)?;
    let report = report_of(alloc, &jobs)?;
    let mut table = table_of(alloc, &jobs)?;
    sync(alloc, &mut jobs, registry, syncer)?;
    fill(&mut table, jobs);
    *rows = table;
    *committed = Kept::of(scene);
    Ok(report)
}

/// Synchronizes jobs with a registry, each of whose entries has users. Refused, its entries are as before.
fn sync<Y: Syncer>(
    alloc: Global,
    jobs: &mut Vec<RowJob>,
    registry: &mut Registry<Buffer>,
    syncer: &mut Y,
) -> Result<(), AllocError>
    requires not_staged { All (λ job. job.is_staged ≡ false) jobs.old.items }
    requires few { length jobs.old.items ≤ 2 ^ 20 }
    requires room { HasRoom (2 ^ 30) registry.old }
    requires used { EachIsUsed registry.old }
    ensures ok { OnOk result (Synced registry.old registry.new (map wants_of jobs.old.items) (map (λ job. listed job.slots) jobs.new.items)) }
    ensures staged { OnOk result (All (λ job. job.is_staged ≡ true) jobs.new.items) }
    ensures err { OnErr result (HasSameEntries registry.old registry.new) }
    ensures same_subjects { map subject_of jobs.new.items ≡ map subject_of jobs.old.items }
    ensures same_wants { map wants_of jobs.new.items ≡ map wants_of jobs.old.items }
{
    let spare = Registry::new(alloc)?;
    let taken = replace(registry, spare);
    let (synced, result) = syncer.sync_all(alloc, jobs.as_mut_slice(), taken);
    *registry = synced;
    if result.is_err() {
        registry.collect();
    }
    result
}
