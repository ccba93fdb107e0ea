//! Metadata that is read past.

ghost use Rattle.std.specs.Prelude.{◌≡◌, ◌<◌, ◌≤◌, ◌&&◌, codes, OnOk};
ghost use Rattle.std.specs.Str.{bytes_eq};
ghost use Rattle.hd_lexer.specs.declared.lexer.Kind.TheVariants.{CloseRound};
ghost use Rattle.hd_usda.specs.reading.Cursor.{count, Gives};
ghost use Rattle.hd_usda.specs.reading.Loops.{past};
ghost use Rattle.hd_usda.specs.grammar.Metadata.{list_ops, left_out_keys, is_off, after_key, keyed, entry, metadata};
ghost use Rattle.hd_tokens.specs.Names.{is_any};

use crate::grammar::value::value;
use crate::reading::cursor::Cursor;
use hd_layer::{LayerFault, LayerWhy, Which};
use hd_lexer::Kind;

/// May the word be before a key or a property?
pub fn is_list_op(word: &[u8]) -> bool
    ensures { result ≡ is_any list_ops word.now }
{
    word == b"add".as_slice()
        || word == b"append".as_slice()
        || word == b"prepend".as_slice()
        || word == b"delete".as_slice()
        || word == b"reorder".as_slice()
}

/// Is the meaning of the key left out?
fn is_left_out(key: &[u8]) -> bool
    ensures { result ≡ is_any left_out_keys key.now }
{
    key == b"references".as_slice()
        || key == b"payload".as_slice()
        || key == b"inherits".as_slice()
        || key == b"specializes".as_slice()
        || key == b"variants".as_slice()
        || key == b"variantSets".as_slice()
        || key == b"relocates".as_slice()
        || key == b"subLayers".as_slice()
}

fn is_active(key: &[u8]) -> bool
    ensures { result ≡ bytes_eq key.now (codes "active") }
{
    key == b"active".as_slice()
}

/// Does the next token say that a prim is not active?
#[tactic(auto, unfolding(crate::specs::grammar::Metadata::is_off))]
fn is_off(cursor: &Cursor) -> bool
    ensures { result ≡ is_off cursor.now }
{
    cursor.is_word(b"false") || (cursor.is(Kind::Number) && cursor.text() == b"0".as_slice())
}

/// Reads what is after a key in this line.
#[tactic(auto, unfolding(crate::specs::grammar::Metadata::after_key))]
fn after_key(cursor: &mut Cursor, key: &[u8], line: u32) -> Result<(), LayerFault>
    ensures gives { Gives (λ _. cursor.new) result (after_key key.now line cursor.old) }
    ensures fewer { OnOk result (count cursor.new < count cursor.old) }
{
    if is_left_out(key) {
        return Err(LayerFault::At {
            line,
            why: LayerWhy::LeftOut,
        });
    }
    cursor.take(Kind::Equals)?;
    if is_active(key) && is_off(cursor) {
        return Err(cursor.fault(LayerWhy::LeftOut));
    }
    // One bracket is open already.
    value(cursor, Which::Nesting.number() - 1)
}

/// Reads an entry with a key.
#[tactic(auto, unfolding(crate::specs::grammar::Metadata::keyed))]
fn keyed(cursor: &mut Cursor) -> Result<(), LayerFault>
    ensures gives { Gives (λ _. cursor.new) result (keyed cursor.old) }
    ensures fewer { OnOk result (count cursor.new < count cursor.old) }
{
    let word = cursor.text();
    let line = cursor.line();
    cursor.take(Kind::Word)?;
    if is_list_op(word) && cursor.is(Kind::Word) {
        let key = cursor.text();
        let line = cursor.line();
        cursor.next();
        after_key(cursor, key, line)
    } else {
        after_key(cursor, word, line)
    }
}

#[tactic(auto, unfolding(crate::specs::grammar::Metadata::entry))]
fn entry(cursor: &mut Cursor) -> Result<(), LayerFault>
    ensures gives { Gives (λ _. cursor.new) result (entry cursor.old) }
    ensures fewer { OnOk result (count cursor.new < count cursor.old) }
{
    if !cursor.passes(Kind::Text) {
        keyed(cursor)?;
    }
    cursor.passes(Kind::Semicolon);
    Ok(())
}

/// Reads the entries to the closing bracket.
#[tactic(auto, using(crate::proofs::Passing::passing))]
fn entries(cursor: &mut Cursor) -> Result<(), LayerFault>
    ensures gives { Gives (λ _. cursor.new) result (past CloseRound entry cursor.old) }
    ensures fewer { OnOk result (count cursor.new < count cursor.old) }
{
    'rest: while !cursor.passes(Kind::CloseRound) {
        entry(cursor)?;
    }
    Ok(())
}

/// Reads past the metadata, if there is any.
#[tactic(auto, unfolding(crate::specs::grammar::Metadata::metadata))]
pub fn metadata(cursor: &mut Cursor) -> Result<(), LayerFault>
    ensures gives { Gives (λ _. cursor.new) result (metadata cursor.old) }
    ensures fewer { OnOk result (count cursor.new ≤ count cursor.old) }
{
    if cursor.passes(Kind::OpenRound) {
        entries(cursor)?;
    }
    Ok(())
}
