//! What stages jobs and registers their wants.

ghost use Rattle.std.specs.Prelude.{◌≡◌, ◌≤◌, ◌^◌, length, map, false, true, All, OnOk, OnErr};
ghost use Rattle.hd_registry.specs.Entries.{HasRoom, Extends};
ghost use Rattle.hd_sync.specs.Syncing.{Synced};

use crate::syncing;
use hd_registry::{Registry, Staging};
use std::alloc::{AllocError, Global};

/// Stages jobs and registers what they want.
///
/// The work is here and not in each impl: a method of an impl may call nothing that needs `Send` of a type that it knows by a
/// bound alone, and a registry needs it of its contents.
pub trait Syncer {
    /// Stages each job, registers the contents that it wants, in order, and gives it their slots. Refused, all slots
    /// that were kept have their contents and users as before; entries without users may have come.
    final fn sync_all<T: Staging + Send>(
        &mut self,
        alloc: Global,
        jobs: &mut [T],
        mut registry: Registry<T::Content>,
    ) -> (Registry<T::Content>, Result<(), AllocError>)
        requires not_staged { All (λ job. T.is_staged job ≡ false) jobs.old }
        requires few { length jobs.old ≤ 2 ^ 20 }
        requires room { HasRoom (2 ^ 30) registry }
        ensures ok { OnOk result.1 (Synced registry result.0 (map T.wants jobs.old) (map T.given jobs.new)) }
        ensures staged { OnOk result.1 (All (λ job. T.is_staged job ≡ true) jobs.new) }
        ensures err { OnErr result.1 (Extends registry result.0 (λ _. 0)) }
        ensures same_subjects { map T.subject jobs.new ≡ map T.subject jobs.old }
        ensures same_wants { map T.wants jobs.new ≡ map T.wants jobs.old }
    {
        let result = syncing::sync_each(alloc, jobs, &mut registry);
        (registry, result)
    }
}

/// Works on the caller.
#[derive(Drop)]
pub struct Plain {}

impl Plain {
    /// A syncer that works on the caller.
    pub fn new() -> Plain {
        Plain {}
    }
}

impl Syncer for Plain {}
