//! Lists in the values of used properties.

ghost use Rattle.std.specs.Prelude.{◌≡◌, ◌<◌, false, OnOk};
ghost use Rattle.hd_lexer.specs.declared.lexer.Kind.TheVariants.{CloseSquare};
ghost use Rattle.hd_usda.specs.reading.Cursor.{count, Gives};
ghost use Rattle.hd_usda.specs.reading.Loops.{all};
ghost use Rattle.hd_usda.specs.used.Elements.{one_more, next_element, list_of};

use crate::reading::cursor::Cursor;
use crate::used::numbers::need;
use hd_layer::{LayerFault, LayerWhy, Which};
use hd_lexer::Kind;
use hd_num::List;
use std::alloc::Global;

/// What a list may hold.
pub trait Element: Drop {
    ghost use Rattle.hd_usda.specs.used.Elements.{Reads};

    /// How it is read.
    ghost how: { Reads Self };

    /// Is it in the value of an attribute, and not of a relationship?
    fn is_in_attribute() -> bool
        ensures { result ≡ how.attribute };

    /// Does the next token count as its beginning?
    fn begins(cursor: &Cursor) -> bool
        ensures { result ≡ how.begins cursor.now };

    /// What is wrong with its first token beyond the limit of elements.
    fn beyond(text: &[u8]) -> LayerWhy
        ensures { result ≡ how.beyond text.now };

    /// Reads an element, which is the first or not.
    fn read(alloc: Global, cursor: &mut Cursor, first: bool) -> Result<Self, LayerFault>
        ensures gives { Gives (λ item. (item, cursor.new)) result (how.form first cursor.old) }
        ensures fewer { OnOk result (count cursor.new < count cursor.old) };
}

/// Reads an element after others.
#[tactic(auto, unfolding(crate::specs::used::Elements::one_more))]
fn one_more<T: Element>(
    alloc: Global,
    cursor: &mut Cursor,
    found: &mut Vec<T>,
) -> Result<(), LayerFault>
    ensures gives { Gives (λ _. (found.new.items, cursor.new)) result (one_more T.how found.old.items cursor.old) }
    ensures fewer { OnOk result (count cursor.new < count cursor.old) }
{
    if T::begins(cursor) && found.len() as u64 >= Which::Elements.number() {
        return Err(cursor.fault(T::beyond(cursor.text())));
    }
    found.push(T::read(alloc, cursor, false)?)?;
    Ok(())
}

/// Reads a comma, and the element after it if there is one.
#[tactic(auto, unfolding(crate::specs::used::Elements::next_element))]
fn next_element<T: Element>(
    alloc: Global,
    cursor: &mut Cursor,
    found: &mut Vec<T>,
) -> Result<(), LayerFault>
    ensures gives { Gives (λ _. (found.new.items, cursor.new)) result (next_element T.how found.old.items cursor.old) }
    ensures fewer { OnOk result (count cursor.new < count cursor.old) }
{
    need(cursor, T::is_in_attribute(), Kind::Comma)?;
    if !cursor.is(Kind::CloseSquare) {
        one_more(alloc, cursor, found)?;
    }
    Ok(())
}

/// Reads the elements after the first, to the closing bracket.
#[tactic(auto, using(crate::proofs::Collecting::collecting))]
fn rest_of_list<T: Element>(
    alloc: Global,
    cursor: &mut Cursor,
    found: &mut Vec<T>,
) -> Result<(), LayerFault>
    ensures gives { Gives (λ _. (found.new.items, cursor.new)) result (all CloseSquare (next_element T.how) found.old.items cursor.old) }
    ensures fewer { OnOk result (count cursor.new < count cursor.old) }
{
    'rest: while !cursor.passes(Kind::CloseSquare) {
        next_element(alloc, cursor, found)?;
    }
    Ok(())
}

/// Reads a list.
#[tactic(auto, unfolding(crate::specs::used::Elements::list_of))]
pub fn list_of<T: Element>(alloc: Global, cursor: &mut Cursor) -> Result<List<T>, LayerFault>
    ensures gives { Gives (λ items. (items, cursor.new)) result (list_of T.how cursor.old) }
    ensures fewer { OnOk result (count cursor.new < count cursor.old) }
{
    let mut found = Vec::new(alloc);
    need(cursor, T::is_in_attribute(), Kind::OpenSquare)?;
    if !cursor.passes(Kind::CloseSquare) {
        found.push(T::read(alloc, cursor, true)?)?;
        rest_of_list(alloc, cursor, &mut found)?;
    }
    Ok(List::of(alloc, found)?)
}
