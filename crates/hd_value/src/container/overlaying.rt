//! Containers over one another.

ghost use Rattle.std.specs.Prelude.{◌≡◌, [], ◌∷◌, ◌++◌, IfOk, OnOk};
ghost use Rattle.hd_value.specs.inner.Entries.{entry_at, AreEntries};
ghost use Rattle.hd_value.specs.inner.Overlays.{merged_source, overlaid_on, IsOver};

use super::{Container, Entry, Source, entry_at};
use crate::element::Element;
use std::alloc::{AllocError, Global};
use std::cmp::Ordering;

/// The container over another one: the values of the other that intersect none of this one's come in. A level that
/// only one of the two has is shared.
#[cycle(overlay)]
pub(super) fn container_over(
    strong: &Container,
    alloc: Global,
    weak: &Container,
) -> Result<Container, AllocError>
    ensures { IfOk result (λ whole. whole ≡ overlaid_on strong.now weak.now) }
{
    let over = strong.entries();
    let under = weak.entries();
    if over.is_empty() {
        return weak.copy();
    }
    if under.is_empty() {
        return strong.copy();
    }
    let mut all = Vec::with_capacity(alloc, over.len().max(under.len()))?;
    merge(&mut all, over, alloc, under)?;
    Container::of_entries(alloc, all)
}

/// Adds the entries of both levels in one pass, the first over the second where a token is in both.
#[cycle(overlay)]
fn merge(
    all: &mut Vec<Entry>,
    over: &[Entry],
    alloc: Global,
    under: &[Entry],
) -> Result<(), AllocError>
    requires nothing { all.old.items ≡ [] }
    requires over { AreEntries over.now }
    requires under { AreEntries under.now }
    ensures { OnOk result (IsOver over.now under.now all.new.items) }
{
    let mut i = 0;
    let mut j = 0;
    while i < over.len() && j < under.len() {
        match over[i].token.compare(&under[j].token) {
            Ordering::Less => {
                push_copy(all, &over[i])?;
                i += 1;
            }
            Ordering::Greater => {
                push_copy(all, &under[j])?;
                j += 1;
            }
            Ordering::Equal => {
                let source = source_over(&over[i].source, alloc, &under[j].source)?;
                push_entry(all, &over[i].token, source)?;
                i += 1;
                j += 1;
            }
        }
    }
    append_copies(all, &over[i..])?;
    append_copies(all, &under[j..])
}

/// Adds copies of the entries at the end.
fn append_copies(all: &mut Vec<Entry>, entries: &[Entry]) -> Result<(), AllocError>
    ensures { OnOk result (all.new.items ≡ all.old.items ++ entries.now) }
{
    for entry in entries {
        push_copy(all, entry)?;
    }
    Ok(())
}

/// Adds a copy of the entry at the end.
fn push_copy(all: &mut Vec<Entry>, entry: &Entry) -> Result<(), AllocError>
    ensures { OnOk result (all.new.items ≡ all.old.items ++ entry.now ∷ []) }
{
    all.push(entry.clone()?)?;
    Ok(())
}

/// Adds the entry of a token and its source at the end.
fn push_entry(all: &mut Vec<Entry>, token: &Element, source: Source) -> Result<(), AllocError>
    ensures { OnOk result (all.new.items ≡ all.old.items ++ entry_at token.now source ∷ []) }
{
    all.push(entry_at(token, source)?)?;
    Ok(())
}

/// A source over another one at the same token.
#[cycle(overlay)]
fn source_over(strong: &Source, alloc: Global, weak: &Source) -> Result<Source, AllocError>
    ensures { IfOk result (λ source. source ≡ merged_source strong.now weak.now) }
{
    match (strong, weak) {
        (Source::Inner(inner), Source::Inner(below)) => {
            Ok(Source::Inner(container_over(inner, alloc, below)?))
        }
        _ => strong.copy(),
    }
}
