//! Values that are read past.

ghost use Rattle.std.specs.Prelude.{◌<◌, ◌≤◌, OnOk};
ghost use Rattle.hd_lexer.specs.declared.lexer.Kind.TheVariants.{Colon, CloseRound, CloseSquare};
ghost use Rattle.hd_usda.specs.reading.Cursor.{count, Gives};
ghost use Rattle.hd_usda.specs.reading.Loops.{past, chain};
ghost use Rattle.hd_usda.specs.grammar.Value.{type_name, next_word, more_words, key, next_of_tuple, next_of_list, entry_of_dict, tuple, list, dict, plain_value, value, some_value};

use crate::reading::cursor::Cursor;
use hd_layer::{LayerFault, LayerWhy, Which};
use hd_lexer::Kind;

/// Passes a type.
#[tactic(auto, unfolding(crate::specs::grammar::Value::type_name))]
fn type_name(cursor: &mut Cursor) -> Result<(), LayerFault>
    ensures gives { Gives (λ _. cursor.new) result (type_name cursor.old) }
    ensures fewer { OnOk result (count cursor.new < count cursor.old) }
{
    cursor.take(Kind::Word)?;
    if cursor.passes(Kind::OpenSquare) {
        cursor.take(Kind::CloseSquare)?;
    }
    Ok(())
}

#[tactic(auto, unfolding(crate::specs::grammar::Value::next_word))]
fn next_word(cursor: &mut Cursor) -> Result<(), LayerFault>
    ensures gives { Gives (λ _. (tt, cursor.new)) result (next_word tt cursor.old) }
    ensures fewer { OnOk result (count cursor.new < count cursor.old) }
{
    cursor.take(Kind::Word)
}

/// Passes words after colons.
fn more_words(cursor: &mut Cursor) -> Result<(), LayerFault>
    ensures gives { Gives (λ _. (tt, cursor.new)) result (chain Colon next_word tt cursor.old) }
    ensures fewer { OnOk result (count cursor.new ≤ count cursor.old) }
{
    'words: while cursor.passes(Kind::Colon) {
        next_word(cursor)?;
    }
    Ok(())
}

/// Passes the key of a dictionary's entry.
#[tactic(auto, unfolding(crate::specs::grammar::Value::key, crate::specs::grammar::Value::more_words))]
fn key(cursor: &mut Cursor) -> Result<(), LayerFault>
    ensures gives { Gives (λ _. cursor.new) result (key cursor.old) }
    ensures fewer { OnOk result (count cursor.new < count cursor.old) }
{
    if cursor.passes(Kind::Text) {
        return Ok(());
    }
    cursor.take(Kind::Word)?;
    more_words(cursor)
}

#[cycle(value)]
#[tactic(auto, unfolding(crate::specs::grammar::Value::next_of_tuple))]
fn next_of_tuple(cursor: &mut Cursor, level: u64) -> Result<(), LayerFault>
    ensures gives { Gives (λ _. cursor.new) result (next_of_tuple (value level) cursor.old) }
    ensures fewer { OnOk result (count cursor.new < count cursor.old) }
{
    cursor.take(Kind::Comma)?;
    value(cursor, level)
}

#[cycle(value)]
#[tactic(auto, unfolding(crate::specs::grammar::Value::next_of_list))]
fn next_of_list(cursor: &mut Cursor, level: u64) -> Result<(), LayerFault>
    ensures gives { Gives (λ _. cursor.new) result (next_of_list (value level) cursor.old) }
    ensures fewer { OnOk result (count cursor.new < count cursor.old) }
{
    cursor.take(Kind::Comma)?;
    if !cursor.is(Kind::CloseSquare) {
        value(cursor, level)?;
    }
    Ok(())
}

#[cycle(value)]
#[tactic(auto, unfolding(crate::specs::grammar::Value::entry_of_dict))]
fn entry_of_dict(cursor: &mut Cursor, level: u64) -> Result<(), LayerFault>
    ensures gives { Gives (λ _. cursor.new) result (entry_of_dict (value level) cursor.old) }
    ensures fewer { OnOk result (count cursor.new < count cursor.old) }
{
    type_name(cursor)?;
    key(cursor)?;
    cursor.take(Kind::Equals)?;
    value(cursor, level)?;
    cursor.passes(Kind::Semicolon);
    Ok(())
}

#[cycle(value)]
#[tactic(auto, unfolding(crate::specs::grammar::Value::tuple))]
fn tuple(cursor: &mut Cursor, level: u64) -> Result<(), LayerFault>
    ensures gives { Gives (λ _. cursor.new) result (tuple (value level) cursor.old) }
    ensures fewer { OnOk result (count cursor.new < count cursor.old) }
{
    value(cursor, level)?;
    rest_of_tuple(cursor, level)
}

#[cycle(value)]
#[tactic(auto, using(crate::proofs::Passing::passing))]
fn rest_of_tuple(cursor: &mut Cursor, level: u64) -> Result<(), LayerFault>
    ensures gives { Gives (λ _. cursor.new) result (past CloseRound (next_of_tuple (value level)) cursor.old) }
    ensures fewer { OnOk result (count cursor.new < count cursor.old) }
{
    'rest: while !cursor.passes(Kind::CloseRound) {
        next_of_tuple(cursor, level)?;
    }
    Ok(())
}

#[cycle(value)]
#[tactic(auto, unfolding(crate::specs::grammar::Value::list))]
fn list(cursor: &mut Cursor, level: u64) -> Result<(), LayerFault>
    ensures gives { Gives (λ _. cursor.new) result (list (value level) cursor.old) }
    ensures fewer { OnOk result (count cursor.new < count cursor.old) }
{
    if cursor.passes(Kind::CloseSquare) {
        return Ok(());
    }
    value(cursor, level)?;
    rest_of_list(cursor, level)
}

#[cycle(value)]
#[tactic(auto, using(crate::proofs::Passing::passing))]
fn rest_of_list(cursor: &mut Cursor, level: u64) -> Result<(), LayerFault>
    ensures gives { Gives (λ _. cursor.new) result (past CloseSquare (next_of_list (value level)) cursor.old) }
    ensures fewer { OnOk result (count cursor.new < count cursor.old) }
{
    'rest: while !cursor.passes(Kind::CloseSquare) {
        next_of_list(cursor, level)?;
    }
    Ok(())
}

#[cycle(value)]
#[tactic(auto, using(crate::proofs::Passing::passing), unfolding(crate::specs::grammar::Value::dict))]
fn dict(cursor: &mut Cursor, level: u64) -> Result<(), LayerFault>
    ensures gives { Gives (λ _. cursor.new) result (dict (value level) cursor.old) }
    ensures fewer { OnOk result (count cursor.new < count cursor.old) }
{
    'rest: while !cursor.passes(Kind::CloseCurly) {
        entry_of_dict(cursor, level)?;
    }
    Ok(())
}

/// Passes a value of one token.
#[tactic(auto, unfolding(crate::specs::grammar::Value::plain_value))]
fn plain_value(cursor: &mut Cursor) -> Result<(), LayerFault>
    ensures gives { Gives (λ _. cursor.new) result (plain_value cursor.old) }
    ensures fewer { OnOk result (count cursor.new < count cursor.old) }
{
    if cursor.passes(Kind::Word)
        || cursor.passes(Kind::Number)
        || cursor.passes(Kind::Text)
        || cursor.passes(Kind::Asset)
        || cursor.passes(Kind::PathText)
    {
        Ok(())
    } else {
        Err(cursor.fault(LayerWhy::Syntax))
    }
}

/// Passes a value in which so many brackets may open, each inside the one before.
#[cycle(value)]
#[tactic(auto, unfolding(crate::specs::grammar::Value::value))]
pub fn value(cursor: &mut Cursor, level: u64) -> Result<(), LayerFault>
    ensures gives { Gives (λ _. cursor.new) result (value level cursor.old) }
    ensures fewer { OnOk result (count cursor.new < count cursor.old) }
{
    if level == 0 {
        if cursor.is(Kind::OpenRound) || cursor.is(Kind::OpenSquare) || cursor.is(Kind::OpenCurly) {
            Err(cursor.fault(LayerWhy::Limit(Which::Nesting)))
        } else {
            plain_value(cursor)
        }
    } else if cursor.passes(Kind::OpenRound) {
        tuple(cursor, level - 1)
    } else if cursor.passes(Kind::OpenSquare) {
        list(cursor, level - 1)
    } else if cursor.passes(Kind::OpenCurly) {
        dict(cursor, level - 1)
    } else {
        plain_value(cursor)
    }
}

/// Passes a value after an equals sign, if one is there.
#[tactic(auto, unfolding(crate::specs::grammar::Value::some_value))]
pub fn some_value(cursor: &mut Cursor) -> Result<(), LayerFault>
    ensures gives { Gives (λ _. cursor.new) result (some_value cursor.old) }
    ensures fewer { OnOk result (count cursor.new ≤ count cursor.old) }
{
    if cursor.passes(Kind::Equals) {
        value(cursor, Which::Nesting.number())?;
    }
    Ok(())
}
