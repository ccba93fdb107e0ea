//! New entries, at free places.

ghost use Rattle.std.specs.Prelude.{◌≡◌, ◌≤◌, ◌^◌, ℕ, length, true, None, IfOk, OnOk, OnErr};
ghost use Rattle.std.specs.Arc.{arc_value};
ghost use Rattle.hd_registry.specs.Entries.{entry_at, Registers, Unique, Lacks};
ghost use Rattle.hd_registry.specs.inner.Indexes.{is_found, IsIndexed};
ghost use Rattle.hd_registry.specs.inner.Steps.{Puts};

use crate::content::{ArcContent, Content, Entry};
use crate::digests;
use std::alloc::{AllocError, Global};
use std::collections::HashMap;
use std::sync::Arc;

/// Keeps a content that no entry has, with one user, at a free place, which is sought from a place on.
#[tactic(auto, using(crate::proofs::NewEntries::registers_put, crate::proofs::NewEntries::unique_put, crate::proofs::NewEntries::indexed_put, crate::proofs::NewEntries::indexed_more))]
pub(crate) fn put_new<C: Content>(
    alloc: Global,
    entries: &mut Vec<Option<Entry<C>>>,
    index: &mut HashMap<u64, Vec<usize>>,
    from: usize,
    content: Arc<C>,
) -> Result<usize, AllocError>
    requires new { Lacks entries.old.items (arc_value content) }
    requires unique { Unique entries.old.items }
    requires indexed { IsIndexed C.digest_of entries.old.items index.old }
    ensures ok { IfOk result (λ place. Registers entries.old.items place (arc_value content) entries.new.items) }
    ensures err { OnErr result (entries.new.items ≡ entries.old.items) }
    ensures unique { Unique entries.new.items }
    ensures indexed { IsIndexed C.digest_of entries.new.items index.new }
{
    let place = free_place(entries, from);
    let digest = content.digest();
    let entry = Entry {
        content: ArcContent::new(content),
        users: 1,
    };
    digests::add(alloc, index, digest, place)?;
    put(entries, place, entry)?;
    Ok(place)
}

/// The first free place from a place on, or the one after all entries.
#[tactic(auto, using(crate::proofs::NewEntries::free_end))]
fn free_place<C: Content>(entries: &[Option<Entry<C>>], from: usize) -> usize
    ensures within { result ≤ length entries.now }
    ensures free { entry_at entries.now result ≡ None }
{
    for place in from..entries.len() {
        if entries[place].is_none() {
            return place;
        }
    }
    entries.len()
}

#[tactic(auto, using(crate::proofs::NewEntries::puts_set, crate::proofs::NewEntries::puts_push))]
fn put<C: Content>(
    entries: &mut Vec<Option<Entry<C>>>,
    place: usize,
    entry: Entry<C>,
) -> Result<(), AllocError>
    requires { place ≤ length entries.old.items }
    ensures ok { OnOk result (Puts entries.old.items place entry entries.new.items) }
    ensures err { OnErr result (entries.new.items ≡ entries.old.items) }
{
    if place < entries.len() {
        entries[place] = Some(entry);
        return Ok(());
    }
    match entries.push(Some(entry)) {
        Ok(()) => Ok(()),
        Err(refused) => {
            let _ = refused;
            Err(AllocError)
        }
    }
}
