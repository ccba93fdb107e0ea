//! The collection of entries without users.

ghost use Rattle.std.specs.Prelude.{◌≡◌, ◌<◌, ℕ, length, map, slice_set};
ghost use Rattle.std.specs.List.{count_by};
ghost use Rattle.hd_registry.specs.Entries.{entry_at, is_unused, if_used};
ghost use Rattle.hd_registry.specs.inner.Indexes.{IsIndexed};

use crate::content::{Content, Entry};
use crate::digests;
use std::collections::HashMap;

/// Drops the entries without users, and answers how many.
pub(crate) fn collect<C: Content>(
    entries: &mut Vec<Option<Entry<C>>>,
    index: &mut HashMap<u64, Vec<usize>>,
) -> usize
    requires { IsIndexed C.digest_of entries.old.items index.old }
    ensures entries { entries.new.items ≡ map if_used entries.old.items }
    ensures indexed { IsIndexed C.digest_of entries.new.items index.new }
    ensures count { result ≡ count_by is_unused entries.old.items }
{
    let mut count = 0;
    let end = entries.len();
    for place in 0..end {
        if collect_at(entries, index, place) {
            count += 1;
        }
    }
    count
}

/// Drops the entry at a place, where it has no users, and answers whether it did.
fn collect_at<C: Content>(
    entries: &mut Vec<Option<Entry<C>>>,
    index: &mut HashMap<u64, Vec<usize>>,
    place: usize,
) -> bool
    requires within { place < length entries.old.items }
    requires indexed { IsIndexed C.digest_of entries.old.items index.old }
    ensures dropped { result ≡ is_unused (entry_at entries.old.items place) }
    ensures entries { entries.new.items ≡ slice_set entries.old.items place (if_used (entry_at entries.old.items place)) }
    ensures indexed { IsIndexed C.digest_of entries.new.items index.new }
{
    let digest = match &entries[place] {
        Some(entry) if entry.users == 0 => entry.content.arc().digest(),
        _ => return false,
    };
    digests::forget(index, digest, place);
    entries[place] = None;
    true
}
