//! The registration and the release of what jobs want.

ghost use Rattle.std.specs.Prelude.{◌≡◌, ℕ, [], ◌∷◌, ◌++◌, map, None, IfOk, OnOk, OnErr};
ghost use Rattle.std.specs.Arc.{arc_value};
ghost use Rattle.std.specs.Option.{option_map};
ghost use Rattle.hd_registry.specs.Entries.{HasRoom, Extends};
ghost use Rattle.hd_registry.specs.Wanted.{contents_wanted};
ghost use Rattle.hd_sync.specs.Syncing.{listed, uses, uses_of, uses_all, Synced, HasUses, Drops};
ghost use Rattle.hd_sync.specs.inner.Steps.{SyncedOne};

use hd_registry::{Content, Registry, Slot, Wants};
use std::alloc::{AllocError, Global};
use std::sync::Arc;

/// The slots of the contents that a job wants.
#[derive(Clone, Copy)]
pub struct Slots {
    pub first: Option<Slot>,
    pub second: Option<Slot>,
    pub third: Option<Slot>,
}

impl Slots {
    /// No slots.
    pub fn none() -> Slots
        ensures { listed result ≡ None ∷ None ∷ None ∷ [] }
    {
        Slots {
            first: None,
            second: None,
            third: None,
        }
    }

    /// The slots in the order of the wants.
    pub fn listed(&self) -> [Option<Slot>; 3]
        ensures { result ≡ listed self.now }
    {
        [self.first, self.second, self.third]
    }
}

/// Registers what a job wants. Refused, all slots that were kept have their contents and users as before.
pub(crate) fn register_wants<C: Content>(
    alloc: Global,
    registry: &mut Registry<C>,
    wants: Wants<C>,
) -> Result<Slots, AllocError>
    requires { HasRoom 3 registry.old }
    ensures ok { IfOk result (λ slots. Synced registry.old registry.new (contents_wanted wants ∷ []) (listed slots ∷ [])) }
    ensures err { OnErr result (Extends registry.old registry.new (λ _. 0)) }
{
    let first = register_one(alloc, registry, wants.first)?;
    let second = match register_one(alloc, registry, wants.second) {
        Ok(second) => second,
        Err(refused) => {
            release_one(registry, first);
            return Err(refused);
        }
    };
    match register_one(alloc, registry, wants.third) {
        Ok(third) => Ok(Slots {
            first,
            second,
            third,
        }),
        Err(refused) => {
            release_one(registry, first);
            release_one(registry, second);
            Err(refused)
        }
    }
}

/// Registers one want.
fn register_one<C: Content>(
    alloc: Global,
    registry: &mut Registry<C>,
    want: Option<Arc<C>>,
) -> Result<Option<Slot>, AllocError>
    requires { HasRoom 1 registry.old }
    ensures ok { IfOk result (λ slot. SyncedOne registry.old registry.new (option_map arc_value want) slot) }
    ensures err { OnErr result (registry.new ≡ registry.old) }
{
    match want {
        None => Ok(None),
        Some(content) => {
            let slot = registry.register(alloc, content)?;
            Ok(Some(slot))
        }
    }
}

/// Adds the slots of a job to a list.
pub(crate) fn keep(given: &mut Vec<Slots>, slots: &Slots) -> Result<(), AllocError>
    ensures kept { OnOk result (given.new.items ≡ given.old.items ++ slots.now ∷ []) }
    ensures not_kept { OnErr result (given.new.items ≡ given.old.items) }
{
    given.push(Slots {
        first: slots.first,
        second: slots.second,
        third: slots.third,
    })?;
    Ok(())
}

/// Takes one user from each slot, as often as it is in the list.
pub fn release_all<C: Content>(registry: &mut Registry<C>, all: &[Slots])
    requires { HasUses (uses_all (map listed all.now)) registry.old }
    ensures { Drops registry.old registry.new (uses_all (map listed all.now)) }
{
    for slots in all {
        release_slots(registry, slots);
    }
}

/// Takes one user from each slot of a job.
pub(crate) fn release_slots<C: Content>(registry: &mut Registry<C>, slots: &Slots)
    requires { HasUses (uses_of (listed slots.now)) registry.old }
    ensures { Drops registry.old registry.new (uses_of (listed slots.now)) }
{
    release_one(registry, slots.first);
    release_one(registry, slots.second);
    release_one(registry, slots.third);
}

fn release_one<C: Content>(registry: &mut Registry<C>, slot: Option<Slot>)
    requires { HasUses (uses slot) registry.old }
    ensures { Drops registry.old registry.new (uses slot) }
{
    if let Some(slot) = slot {
        registry.release(slot);
    }
}
