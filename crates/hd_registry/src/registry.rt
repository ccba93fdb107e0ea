//! A registry of contents.

ghost use Rattle.std.specs.Prelude.{◌≡◌, ◌+◌, ◌^◌, ◌<◌, ◌≤◌, [], true, Some, IfOk, OnErr};
ghost use Rattle.std.specs.Arc.{arc_value};
ghost use Rattle.std.specs.List.{count_by};
ghost use Rattle.hd_registry.specs.Entries.{content_at, users_at, is_kept, is_unused, live_entries, HasRoom, Unique, Registers, Raises, Lowers, Collects};

use crate::content::{Content, Entry, Slot};
use crate::{collecting, entries, putting};
use std::alloc::{AllocError, Global};
use std::collections::HashMap;
use std::marker::Model;
use std::sync::Arc;

/// Contents by slot, each once, with the number of its users.
#[derive(Drop)]
pub struct Registry<C: Content> {
    entries: Vec<Option<Entry<C>>>,

    /// The places of the contents with a digest, and maybe others.
    index: HashMap<u64, Vec<usize>>,

    /// Where a free place is sought from. All places before it are taken.
    first_free: usize,
}

impl<C: Content> Model for Registry<C> {
    ghost use Rattle.hd_registry.specs.Entries.{Entries, Unique};
    ghost use Rattle.hd_registry.specs.inner.Indexes.{IsIndexed};

    ghost Value = { Entries C };

    ghost view = { λ registry. registry.entries.items };

    ghost invariant = { λ registry. Unique registry.entries.items × IsIndexed C.digest_of registry.entries.items registry.index };
}

impl<C: Content> Registry<C> {
    /// The registry without entries.
    pub fn new(alloc: Global) -> Result<Registry<C>, AllocError>
        ensures { IfOk result (λ registry. registry ≡ []) }
    {
        Ok(Registry {
            entries: Vec::new(alloc),
            index: HashMap::new(alloc),
            first_free: 0,
        })
    }

    /// Adds a user to the slot of the content, which is a new one where no slot has it.
    pub fn register(&mut self, alloc: Global, content: Arc<C>) -> Result<Slot, AllocError>
        requires { HasRoom 1 self.old }
        ensures ok { IfOk result (λ slot. Registers self.old slot (arc_value content) self.new) }
        ensures err { OnErr result (self.new ≡ self.old) }
    {
        if let Some(place) = entries::find(&self.entries, &self.index, &content) {
            entries::raise(&mut self.entries, place);
            return Ok(Slot::at(place));
        }
        let place = putting::put_new(
            alloc,
            &mut self.entries,
            &mut self.index,
            self.first_free,
            content,
        )?;
        self.first_free = place;
        Ok(Slot::at(place))
    }

    /// Adds a user to a kept slot.
    pub fn retain(&mut self, slot: Slot)
        requires kept { is_kept self.old slot ≡ true }
        requires room { users_at self.old slot + 1 < 2 ^ 64 }
        ensures { Raises self.old slot self.new }
    {
        entries::raise(&mut self.entries, slot.place());
    }

    /// Takes a user from a slot. An entry without users stays until it is collected.
    pub fn release(&mut self, slot: Slot)
        requires { 1 ≤ users_at self.old slot }
        ensures { Lowers self.old slot self.new }
    {
        entries::lower(&mut self.entries, slot.place());
    }

    /// Drops the entries without users, and answers how many.
    pub fn collect(&mut self) -> usize
        ensures collects { Collects self.old self.new }
        ensures count { result ≡ count_by is_unused self.old }
    {
        self.first_free = 0;
        collecting::collect(&mut self.entries, &mut self.index)
    }

    /// The content of a kept slot.
    pub fn content(&self, slot: Slot) -> &Arc<C>
        requires { is_kept self.now slot ≡ true }
        ensures content { content_at self.now slot ≡ Some (arc_value result.now) }
        ensures unique { Unique self.now }
    {
        entries::content(&self.entries, slot.place())
    }

    /// The number of users of a kept slot.
    pub fn users(&self, slot: Slot) -> u64
        requires { is_kept self.now slot ≡ true }
        ensures { result ≡ users_at self.now slot }
    {
        entries::users(&self.entries, slot.place())
    }

    /// No two slots have equal content.
    pub fn contents_are_unique(&self)
        ensures { Unique self.now }
    {
        let _ = &self.entries;
    }

    /// How many entries are kept, those without users too.
    pub fn live(&self) -> usize
        ensures { result ≡ live_entries self.now }
    {
        self.entries.iter().filter(|entry| entry.is_some()).count()
    }
}
