//! Values by locator.

ghost use Rattle.std.specs.Prelude.{◌≡◌, ◌≢◌, ◌↔◌, ◌≤◌, IsTrue, [], ◌∷◌, length, map, None, IfOk, IfErr, OnOk, OnErr};
ghost use Rattle.std.specs.List.{insert};
ghost use Rattle.std.specs.FinMap.{empty, get, from_entries};
ghost use Rattle.std.specs.Option.{option_copied};
ghost use Rattle.hd_tokens.specs.Locators;
ghost use Rattle.hd_tokens.specs.Tables.{texts};
ghost use Rattle.hd_value.specs.Containers.{lookup};
ghost use Rattle.hd_path.specs.Names.{byte_order};
ghost use Rattle.hd_value.specs.Levels.{values_of};
ghost use Rattle.hd_value.specs.inner.Entries.{source_at, entry_at, entries_with, map_of_source, source_with, IsPlace, IsGap, AreEntries};
ghost use Rattle.hd_value.specs.Maps.{Map, set_at, overlaid_at, IsFree, IsPrefixFree};

mod overlaying;

use crate::element::{Element, LocatorText};
use crate::locator::Locator;
use crate::value::Value;
use overlaying::container_over;
use std::alloc::{AllocError, Global};
use std::cmp::Ordering;
use std::marker::Model;
use std::sync::Arc;

/// What is at a locator: a value, or the values below it.
#[cycle(container)]
#[derive(Drop)]
pub enum Source {
    Inner(Container),
    Leaf(Value),
}

/// A token of a level, and what is there.
#[cycle(container)]
#[derive(Drop)]
struct Entry {
    token: Element,
    source: Source,
}

/// Values by locator. Where a value is at a locator, none is below it. A copy shares what its source holds.
#[cycle(container)]
#[derive(Drop)]
pub struct Container {
    /// `None` for the empty container, which takes no memory.
    level: Option<Arc<Vec<Entry>>>,
}

impl Model for Container {
    ghost use Rattle.hd_value.specs.Maps.{Map, map_code};

    ghost Value = { Map };

    ghost coded = { map_code };

    ghost use Rattle.hd_value.specs.Levels.{level_map};
    ghost use Rattle.hd_value.specs.inner.Entries.{IsLevel};
    ghost use Rattle.hd_value.specs.inner.Depths.{depth};

    ghost view = { λ c. level_map c.level };

    ghost invariant = { λ c. IsLevel c.level };

    ghost size = { depth };

    ghost use Rattle.hd_value.specs.inner.Falls.{inner_falls};

    ghost size_decreases = { inner_falls };
}

impl Container {
    /// The container without values, which takes no memory.
    pub fn new() -> Container
        ensures { result ≡ empty }
    {
        Container { level: None }
    }

    /// What is at a locator: a value, the values below it, or nothing. The empty locator has nothing.
    pub fn get(&self, at: &Locator) -> Option<&Source>
        ensures { option_copied result ≡ lookup self.now at.now }
    {
        look(self, at.elements())
    }

    /// What is at the locator of these tokens. Asking takes no memory.
    pub fn get_at(&self, tokens: &[&str]) -> Option<&Source>
        ensures { option_copied result ≡ lookup self.now (texts tokens.now) }
    {
        look(self, tokens)
    }

    /// Whether no value is above the locator, so that one may be put there.
    pub fn is_free(&self, at: &Locator) -> bool
        ensures { IsTrue result ↔ IsFree self.now at.now }
    {
        is_free_after(self, at.elements())
    }

    /// Puts a value at a locator, in place of what was at or below it. Refused it changes nothing.
    pub fn set(&mut self, alloc: Global, at: &Locator, value: Value) -> Result<(), AllocError>
        requires named { at.now ≢ [] }
        requires free { IsFree self.old at.now }
        ensures ok { OnOk result (self.new ≡ set_at self.old at.now value) }
        ensures err { OnErr result (self.new ≡ self.old) }
    {
        let tokens = at.elements();
        put(self, alloc, &tokens[0], &tokens[1..], value)
    }

    /// Puts a value at the locator of these tokens of the program's own, which are not copied, in place of what was at or
    /// below it. Refused it changes nothing.
    pub fn set_at(
        &mut self,
        alloc: Global,
        tokens: &'static [&'static str],
        value: Value,
    ) -> Result<(), AllocError>
        requires named { tokens.now ≢ [] }
        requires free { IsFree self.old (texts tokens.now) }
        ensures ok { OnOk result (self.new ≡ set_at self.old (texts tokens.now) value) }
        ensures err { OnErr result (self.new ≡ self.old) }
    {
        self.set(alloc, &Locator::fixed(alloc, tokens)?, value)
    }

    /// The values of all parts, of which the first is the strongest: a value is kept exactly where no earlier part has a
    /// value at a locator that intersects its own.
    pub fn overlay(alloc: Global, parts: &[&Container]) -> Result<Container, AllocError>
        ensures { IfOk result (λ whole. (at : Locators.Locator) → get whole at ≡ overlaid_at (map (λ part. part.now) parts.now) at) }
    {
        let mut left = parts.len();
        if left == 0 {
            return Ok(Container::new());
        }
        left -= 1;
        let mut whole = parts[left].copy()?;
        while left > 0 {
            left -= 1;
            whole = container_over(parts[left], alloc, &whole)?;
        }
        Ok(whole)
    }

    /// No value is above another one, and none at the empty locator: a fact for proofs, which costs nothing.
    pub fn locators_are_prefix_free(&self)
        ensures rootless { get self.now [] ≡ None }
        ensures prefix_free { IsPrefixFree self.now }
    {
        let _ = self.entries();
    }

    /// A container that shares what this one holds.
    pub fn copy(&self) -> Result<Container, AllocError>
        ensures { IfOk result (λ copied. copied ≡ self.now) }
    {
        match &self.level {
            Some(level) => Ok(Container {
                level: Some(level.clone()?),
            }),
            None => Ok(Container { level: None }),
        }
    }

    /// The entries of the outermost level.
    fn entries(&self) -> &[Entry]
        ensures map { self.now ≡ from_entries (values_of result.now) }
        ensures entries { AreEntries result.now }
    {
        match &self.level {
            Some(level) => level.as_slice(),
            None => &[],
        }
    }

    /// The container whose outermost level has these entries.
    fn of_entries(alloc: Global, entries: Vec<Entry>) -> Result<Container, AllocError>
        requires { AreEntries entries.items }
        ensures { IfOk result (λ container. container ≡ from_entries (values_of entries.items)) }
    {
        Ok(Container {
            level: Some(Arc::new(alloc, entries)?),
        })
    }
}

impl Source {
    /// An equal source, which shares what this one holds.
    pub fn copy(&self) -> Result<Source, AllocError>
        ensures { IfOk result (λ copied. copied ≡ self.now) }
    {
        match self {
            Source::Inner(container) => Ok(Source::Inner(container.copy()?)),
            Source::Leaf(value) => Ok(Source::Leaf(value.copy()?)),
        }
    }
}

/// Where the entry with the token is, or else where one would be put.
fn place_of(entries: &[Entry], token: &str) -> Result<usize, usize>
    requires { AreEntries entries.now }
    ensures found { IfOk result (IsPlace token.now entries.now) }
    ensures missing { IfErr result (IsGap token.now entries.now) }
{
    entries.binary_search_by(
        |entry: &Entry| -> Ordering
            ensures { result ≡ byte_order entry.now.token token.entry.now }
        { entry.token.text().cmp(token) },
    )
}

/// The source of the entry with this token.
fn source_in<'a>(entries: &'a [Entry], token: &str) -> Option<&'a Source>
    requires { AreEntries entries.now }
    ensures { option_copied result ≡ source_at token.now entries.now }
{
    match place_of(entries, token) {
        Ok(i) => Some(&entries[i].source),
        Err(_) => None,
    }
}

/// What is at the locator of these tokens.
#[tactic(auto, using(crate::proofs::Getting::found_level))]
fn look<'a, T: LocatorText>(container: &'a Container, tokens: &[T]) -> Option<&'a Source>
    ensures { option_copied result ≡ lookup container.now (map T.bytes tokens.now) }
{
    let (first, rest) = tokens.split_first()?;
    let source = source_in(container.entries(), first.as_text())?;
    if rest.is_empty() {
        return Some(source);
    }
    match source {
        Source::Inner(inner) => look(inner, rest),
        Source::Leaf(_) => None,
    }
}

/// Whether no value of the container is above what these tokens name.
fn is_free_after(container: &Container, tokens: &[Element]) -> bool
    ensures { IsTrue result ↔ IsFree container.now tokens.now }
{
    match tokens.split_first() {
        None => true,
        Some((first, rest)) => match source_in(container.entries(), first.text()) {
            None => true,
            Some(Source::Leaf(_)) => rest.is_empty(),
            Some(Source::Inner(inner)) => is_free_after(inner, rest),
        },
    }
}

/// Puts a value at the locator of these tokens, in place of what was at or below it. A level that no other container
/// holds is changed where it is. Refused it changes nothing.
#[cycle(put)]
fn put(
    container: &mut Container,
    alloc: Global,
    first: &Element,
    rest: &[Element],
    value: Value,
) -> Result<(), AllocError>
    requires { IsFree container.old (first.now ∷ rest.now) }
    ensures ok { OnOk result (container.new ≡ set_at container.old (first.now ∷ rest.now) value) }
    ensures err { OnErr result (container.new ≡ container.old) }
{
    match &mut container.level {
        Some(level) => put_in(Arc::make_mut(level)?, alloc, first, rest, value),
        None => fill(container, alloc, first, rest, value),
    }
}

/// Puts a value into a level.
#[cycle(put)]
fn put_in(
    entries: &mut Vec<Entry>,
    alloc: Global,
    first: &Element,
    rest: &[Element],
    value: Value,
) -> Result<(), AllocError>
    requires entries { AreEntries entries.old.items }
    requires free { IsFree (from_entries (values_of entries.old.items)) (first.now ∷ rest.now) }
    ensures ok { OnOk result (entries.new.items ≡ entries_with first.now (source_with (source_at first.now entries.old.items) rest.now value) entries.old.items) }
    ensures err { OnErr result (entries.new.items ≡ entries.old.items) }
{
    match place_of(entries, first.text()) {
        Ok(i) => {
            let entry = &mut entries[i];
            put_at(&mut entry.source, alloc, rest, value)
        }
        Err(i) => insert_entry(entries, i, first, source_of(alloc, rest, value)?),
    }
}

/// Puts a value into a source, at what is left of its locator.
#[cycle(put)]
fn put_at(
    source: &mut Source,
    alloc: Global,
    rest: &[Element],
    value: Value,
) -> Result<(), AllocError>
    requires { IsFree (map_of_source (Some source.old)) rest.now }
    ensures ok { OnOk result (source.new ≡ source_with (Some source.old) rest.now value) }
    ensures err { OnErr result (source.new ≡ source.old) }
{
    match rest.split_first() {
        None => replace(source, alloc, rest, value),
        Some((first, more)) => match source {
            Source::Inner(inner) => put(inner, alloc, first, more, value),
            // No caller comes here: no value is above the locator.
            Source::Leaf(_) => replace(source, alloc, rest, value),
        },
    }
}

/// Puts a value into a container, in place of all its values.
fn fill(
    container: &mut Container,
    alloc: Global,
    first: &Element,
    rest: &[Element],
    value: Value,
) -> Result<(), AllocError>
    ensures ok { OnOk result (container.new ≡ set_at empty (first.now ∷ rest.now) value) }
    ensures err { OnErr result (container.new ≡ container.old) }
{
    *container = container_with(alloc, first, rest, value)?;
    Ok(())
}

/// Puts a value in place of a source, at what is left of its locator.
fn replace(
    source: &mut Source,
    alloc: Global,
    rest: &[Element],
    value: Value,
) -> Result<(), AllocError>
    ensures ok { OnOk result (source.new ≡ source_with None rest.now value) }
    ensures err { OnErr result (source.new ≡ source.old) }
{
    *source = source_of(alloc, rest, value)?;
    Ok(())
}

/// Puts an entry at a place among others.
fn insert_entry(
    entries: &mut Vec<Entry>,
    i: usize,
    token: &Element,
    source: Source,
) -> Result<(), AllocError>
    requires { i ≤ length entries.old.items }
    ensures ok { OnOk result (entries.new.items ≡ insert entries.old.items i (entry_at token.now source)) }
    ensures err { OnErr result (entries.new.items ≡ entries.old.items) }
{
    entries.insert(i, entry_at(token, source)?)?;
    Ok(())
}

/// The entry of a token and its source.
fn entry_at(token: &Element, source: Source) -> Result<Entry, AllocError>
    ensures { IfOk result (λ entry. entry ≡ entry_at token.now source) }
{
    Ok(Entry {
        token: token.copy()?,
        source,
    })
}

/// The source with this value alone, at what is left of its locator.
#[cycle(alone)]
fn source_of(alloc: Global, rest: &[Element], value: Value) -> Result<Source, AllocError>
    ensures { IfOk result (λ source. source ≡ source_with None rest.now value) }
{
    match rest.split_first() {
        None => Ok(Source::Leaf(value)),
        Some((first, more)) => Ok(Source::Inner(container_with(alloc, first, more, value)?)),
    }
}

/// The container with this value alone.
#[cycle(alone)]
fn container_with(
    alloc: Global,
    first: &Element,
    rest: &[Element],
    value: Value,
) -> Result<Container, AllocError>
    ensures { IfOk result (λ container. container ≡ set_at empty (first.now ∷ rest.now) value) }
{
    let source = source_of(alloc, rest, value)?;
    of_entry(alloc, entry_at(first, source)?)
}

/// The container whose outermost level has this entry alone.
fn of_entry(alloc: Global, entry: Entry) -> Result<Container, AllocError>
    requires { AreEntries (entry ∷ []) }
    ensures { IfOk result (λ container. container ≡ from_entries (values_of (entry ∷ []))) }
{
    Container::of_entries(alloc, Vec::from_array(alloc, [entry])?)
}

impl Clone for Entry {
    ghost is_clone = { λ entry copied. copied ≡ entry };

    fn clone(&self) -> Result<Entry, AllocError> {
        entry_at(&self.token, self.source.copy()?)
    }
}
