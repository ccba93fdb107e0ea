//! The synchronization of jobs, one after another.

ghost use Rattle.std.specs.Prelude.{◌≡◌, ◌≤◌, ◌^◌, [], ◌∷◌, ◌++◌, length, map, false, true, All, OnOk, OnErr};
ghost use Rattle.hd_registry.specs.Entries.{HasRoom, Extends};
ghost use Rattle.hd_sync.specs.Syncing.{listed, Synced};

use crate::wants::{self, Slots};
use hd_registry::{Registry, Staging};
use std::alloc::{AllocError, Global};

/// Stages each job, registers what it wants and gives it the slots.
pub(crate) fn sync_each<T: Staging>(
    alloc: Global,
    jobs: &mut [T],
    registry: &mut Registry<T::Content>,
) -> Result<(), AllocError>
    requires not_staged { All (λ job. T.is_staged job ≡ false) jobs.old }
    requires few { length jobs.old ≤ 2 ^ 20 }
    requires room { HasRoom (2 ^ 30) registry.old }
    ensures ok { OnOk result (Synced registry.old registry.new (map T.wants jobs.old) (map T.given jobs.new)) }
    ensures staged { OnOk result (All (λ job. T.is_staged job ≡ true) jobs.new) }
    ensures err { OnErr result (Extends registry.old registry.new (λ _. 0)) }
    ensures same_subjects { map T.subject jobs.new ≡ map T.subject jobs.old }
    ensures same_wants { map T.wants jobs.new ≡ map T.wants jobs.old }
{
    let mut given = Vec::new(alloc);
    for job in jobs.iter_mut() {
        if let Err(refused) = sync_one(alloc, job, registry, &mut given) {
            wants::release_all(registry, given.as_slice());
            return Err(refused);
        }
    }
    Ok(())
}

/// Stages a job, registers what it wants, keeps the slots and gives them to it.
fn sync_one<T: Staging>(
    alloc: Global,
    job: &mut T,
    registry: &mut Registry<T::Content>,
    given: &mut Vec<Slots>,
) -> Result<(), AllocError>
    requires not_staged { T.is_staged job.old ≡ false }
    requires room { HasRoom 3 registry.old }
    ensures ok { OnOk result (Synced registry.old registry.new (T.wants job.old ∷ []) (T.given job.new ∷ [])) }
    ensures staged { OnOk result (T.is_staged job.new ≡ true) }
    ensures given { OnOk result (map listed given.new.items ≡ map listed given.old.items ++ T.given job.new ∷ []) }
    ensures err { OnErr result (Extends registry.old registry.new (λ _. 0)) }
    ensures not_given { OnErr result (given.new.items ≡ given.old.items) }
    ensures same_subject { T.subject job.new ≡ T.subject job.old }
    ensures same_wants { T.wants job.new ≡ T.wants job.old }
{
    let wanted = job.stage(alloc)?;
    let slots = wants::register_wants(alloc, registry, wanted)?;
    if let Err(refused) = wants::keep(given, &slots) {
        wants::release_slots(registry, &slots);
        return Err(refused);
    }
    job.give(slots.listed());
    Ok(())
}
