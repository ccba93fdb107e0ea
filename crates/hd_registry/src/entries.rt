//! The entries of a registry, by place.

ghost use Rattle.std.specs.Prelude.{◌≡◌, ℕ, ◌+◌, ◌^◌, ◌<◌, ◌≤◌, ◌↔◌, [], ◌∷◌, ◌++◌, map, true, length, Some, None, IsTrue, IfSome, IfNone, is_some, slice_set};
ghost use Rattle.std.specs.Arc.{arc_value};
ghost use Rattle.hd_registry.specs.Entries.{content_at, users_at, entry_at, is_kept, is_unused, Registers, Raises, Lowers, HasRoom, Lacks};
ghost use Rattle.hd_registry.specs.inner.Indexes.{is_among, is_found};

use crate::content::{Content, Entry};
use std::collections::HashMap;
use std::sync::Arc;

/// The place of the entry with the content, among those that are found under its digest.
pub(crate) fn find<C: Content>(
    entries: &[Option<Entry<C>>],
    index: &HashMap<u64, Vec<usize>>,
    content: &C,
) -> Option<usize>
    ensures found { IfSome result (λ place. content_at entries.now place ≡ Some content.now) }
    ensures missing { IfNone result ((place : ℕ) → is_found index.now (C.digest_of content.now) place ≡ true → content_at entries.now place ≡ Some content.now → ⊥) }
{
    match index.get(&content.digest()) {
        Some(places) => find_among(entries, places.as_slice(), content),
        None => None,
    }
}

fn find_among<C: Content>(
    entries: &[Option<Entry<C>>],
    places: &[usize],
    content: &C,
) -> Option<usize>
    ensures found { IfSome result (λ place. content_at entries.now place ≡ Some content.now) }
    ensures missing { IfNone result ((place : ℕ) → is_among places.now place ≡ true → content_at entries.now place ≡ Some content.now → ⊥) }
{
    for place in places {
        if holds(entries, *place, content) {
            return Some(*place);
        }
    }
    None
}

/// Whether the entry at the place has the content.
fn holds<C: Content>(entries: &[Option<Entry<C>>], place: usize, content: &C) -> bool
    ensures { IsTrue result ↔ content_at entries.now place ≡ Some content.now }
{
    if place >= entries.len() {
        return false;
    }
    match &entries[place] {
        Some(entry) => **entry.content.arc() == *content,
        None => false,
    }
}

/// Adds a user.
pub(crate) fn raise<C: Content>(entries: &mut Vec<Option<Entry<C>>>, place: usize)
    requires kept { is_kept entries.old.items place ≡ true }
    requires room { users_at entries.old.items place + 1 < 2 ^ 64 }
    ensures { Raises entries.old.items place entries.new.items }
{
    if place < entries.len() {
        if let Some(entry) = &mut entries[place] {
            entry.users += 1;
        }
    }
}

/// Takes a user away.
pub(crate) fn lower<C: Content>(entries: &mut Vec<Option<Entry<C>>>, place: usize)
    requires { 1 ≤ users_at entries.old.items place }
    ensures { Lowers entries.old.items place entries.new.items }
{
    if place < entries.len() {
        if let Some(entry) = &mut entries[place] {
            entry.users -= 1;
        }
    }
}

/// The content of the entry at a place.
pub(crate) fn content<C: Content>(entries: &[Option<Entry<C>>], place: usize) -> &Arc<C>
    requires { is_kept entries.now place ≡ true }
    ensures { content_at entries.now place ≡ Some (arc_value result.now) }
{
    match &entries[place] {
        Some(entry) => entry.content.arc(),
        None => unreachable!(),
    }
}

/// The number of users of the entry at a place.
pub(crate) fn users<C: Content>(entries: &[Option<Entry<C>>], place: usize) -> u64
    ensures { result ≡ users_at entries.now place }
{
    if place >= entries.len() {
        return 0;
    }
    match &entries[place] {
        Some(entry) => entry.users,
        None => 0,
    }
}
