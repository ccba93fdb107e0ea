//! What is before the value of a property: its list op, its type and its name.

ghost use Rattle.std.specs.Prelude.{◌≡◌, ◌≤◌, ◌<◌, IsAscii, OnOk, IfOk};
ghost use Rattle.hd_lexer.specs.declared.lexer.Kind.TheVariants.{Colon};
ghost use Rattle.hd_tokens.specs.Names.{is_any};
ghost use Rattle.hd_usda.specs.reading.Cursor.{count, Gives};
ghost use Rattle.hd_usda.specs.reading.Loops.{chain};
ghost use Rattle.hd_usda.specs.grammar.Header.{reserved_words, list_op, past_modifiers, own_type, next_word, pname};
ghost use Rattle.hd_usda.specs.inner.PropertyViews.{name_view, type_view};

use crate::grammar::metadata::is_list_op;
use crate::reading::cursor::Cursor;
use hd_layer::{LayerFault, LayerWhy};
use hd_lexer::Kind;
use std::alloc::Global;

/// A name of words that colons join, and the line of the last.
#[derive(Drop)]
pub struct PropertyName {
    pub name: Vec<u8>,
    pub line: u32,
}

/// A type: its word, and whether it has the brackets of an array.
#[derive(Clone, Copy)]
pub struct OwnType<'a> {
    pub word: &'a [u8],
    pub brackets: bool,
}

/// Is the word none that may be a type?
fn is_reserved(word: &[u8]) -> bool
    ensures { result ≡ is_any reserved_words word.now }
{
    word == b"def".as_slice()
        || word == b"over".as_slice()
        || word == b"class".as_slice()
        || word == b"custom".as_slice()
        || word == b"uniform".as_slice()
        || word == b"varying".as_slice()
        || word == b"rel".as_slice()
        || word == b"connect".as_slice()
        || word == b"timeSamples".as_slice()
        || word == b"variantSet".as_slice()
        || is_list_op(word)
}

/// Passes a list op, and says whether it is there.
#[tactic(auto, unfolding(crate::specs::grammar::Header::list_op, crate::specs::reading::Cursor::is_word))]
pub fn list_op(cursor: &mut Cursor) -> Result<bool, LayerFault>
    ensures gives { Gives (λ listed. (listed, cursor.new)) result (list_op cursor.old) }
    ensures fewer { OnOk result (count cursor.new ≤ count cursor.old) }
{
    if !cursor.is(Kind::Word) || !is_list_op(cursor.text()) {
        return Ok(false);
    }
    let is_reorder = cursor.is_word(b"reorder");
    let fault = cursor.fault(LayerWhy::LeftOut);
    cursor.passes(Kind::Word);
    if is_reorder && (cursor.is_word(b"nameChildren") || cursor.is_word(b"properties")) {
        return Err(fault);
    }
    Ok(true)
}

/// Passes what may be before a type.
#[tactic(auto, unfolding(crate::specs::grammar::Header::past_modifiers, crate::specs::grammar::Header::past_word))]
pub fn pass_modifiers(cursor: &mut Cursor)
    ensures rest { cursor.new ≡ past_modifiers cursor.old }
    ensures fewer { count cursor.new ≤ count cursor.old }
{
    cursor.passes_word(b"custom");
    if !cursor.passes_word(b"uniform") {
        cursor.passes_word(b"varying");
    }
}

/// Reads a type.
#[tactic(auto, unfolding(crate::specs::grammar::Header::own_type))]
pub fn own_type<'a>(cursor: &mut Cursor<'a>) -> Result<OwnType<'a>, LayerFault>
    ensures gives { Gives (λ own. (type_view own, cursor.new)) result (own_type cursor.old) }
    ensures fewer { OnOk result (count cursor.new < count cursor.old) }
{
    let word = cursor.text();
    if cursor.is(Kind::Word) && is_reserved(word) {
        return Err(cursor.fault(LayerWhy::Syntax));
    }
    cursor.take(Kind::Word)?;
    let brackets = cursor.passes(Kind::OpenSquare);
    if brackets {
        cursor.take(Kind::CloseSquare)?;
    }
    Ok(OwnType { word, brackets })
}

#[tactic(auto, unfolding(crate::specs::grammar::Header::next_word))]
fn next_word(cursor: &mut Cursor, name: &mut PropertyName) -> Result<(), LayerFault>
    requires { IsAscii name.old.name.items }
    ensures gives { Gives (λ _. (name_view name.new, cursor.new)) result (next_word (name_view name.old) cursor.old) }
    ensures ascii { OnOk result (IsAscii name.new.name.items) }
    ensures fewer { OnOk result (count cursor.new < count cursor.old) }
{
    let word = cursor.text();
    name.line = cursor.line();
    cursor.take(Kind::Word)?;
    name.name.push(b':')?;
    name.name.extend_from_slice(word)?;
    Ok(())
}

fn more_words(cursor: &mut Cursor, name: &mut PropertyName) -> Result<(), LayerFault>
    requires { IsAscii name.old.name.items }
    ensures gives { Gives (λ _. (name_view name.new, cursor.new)) result (chain Colon next_word (name_view name.old) cursor.old) }
    ensures ascii { OnOk result (IsAscii name.new.name.items) }
    ensures fewer { OnOk result (count cursor.new ≤ count cursor.old) }
{
    'words: while cursor.passes(Kind::Colon) {
        next_word(cursor, name)?;
    }
    Ok(())
}

/// Reads a name.
#[tactic(auto, unfolding(crate::specs::grammar::Header::pname))]
pub fn pname(alloc: Global, cursor: &mut Cursor) -> Result<PropertyName, LayerFault>
    ensures gives { Gives (λ name. (name_view name, cursor.new)) result (pname cursor.old) }
    ensures ascii { IfOk result (λ name. IsAscii name.name.items) }
    ensures fewer { OnOk result (count cursor.new < count cursor.old) }
{
    let word = cursor.text();
    let line = cursor.line();
    cursor.take(Kind::Word)?;
    let mut name = PropertyName {
        name: Vec::from_slice(alloc, word)?,
        line,
    };
    more_words(cursor, &mut name)?;
    Ok(name)
}
