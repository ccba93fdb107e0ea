//! The tokens of values of used properties: numbers, and what closes and parts them.

ghost use Rattle.std.specs.List.{list_all};
ghost use Rattle.hd_num.specs.Matrices.{is_within};
ghost use Rattle.std.specs.Prelude.{◌≡◌, ◌≤◌, ◌<◌, ◌^◌, unsigned_abs, OnOk, IfOk, true, false};
ghost use Rattle.hd_lexer.specs.declared.lexer.Kind.TheVariants.{End};
ghost use Rattle.hd_usda.specs.reading.Cursor.{count, same_kind, Gives};
ghost use Rattle.hd_lexer.specs.inner.DecimalViews.{decimal_view};
ghost use Rattle.hd_usda.specs.used.Numbers.{is_non_finite_text, is_non_finite, wrong_token_fault, need, allows, checked_number, number, triple, row};

use crate::reading::cursor::Cursor;
use hd_layer::{LayerFault, LayerWhy, Which};
use hd_lexer::{Decimal, Kind, amount, is_fractional, is_one, is_turn, is_zero, parts_of};
use hd_num::Vec3;

/// What is demanded of a number in its place.
#[derive(Clone, Copy)]
pub enum NumberRule {
    Any,
    /// A multiple of 90.
    Turn,
    Zero,
    One,
}

fn is_non_finite_text(text: &[u8]) -> bool
    ensures { result ≡ is_non_finite_text text.now }
{
    text == b"inf".as_slice() || text == b"-inf".as_slice() || text == b"nan".as_slice()
}

/// Is the next token a number that is not finite?
pub fn is_non_finite(cursor: &Cursor) -> bool
    ensures { result ≡ is_non_finite cursor.now }
{
    cursor.is(Kind::Number) && is_non_finite_text(cursor.text())
}

/// What is wrong with a token that does not belong in a value.
#[tactic(auto, unfolding(crate::specs::used::Numbers::wrong_token_fault))]
fn wrong_token_fault(attribute: bool, cursor: &Cursor) -> LayerWhy
    ensures { result ≡ wrong_token_fault attribute cursor.now }
{
    if attribute && is_non_finite(cursor) {
        LayerWhy::LeftOut
    } else {
        LayerWhy::Syntax
    }
}

/// Passes the next token, which is of this kind, in the value of an attribute or of a relationship.
#[tactic(auto, unfolding(crate::specs::used::Numbers::need))]
pub fn need(cursor: &mut Cursor, attribute: bool, kind: Kind) -> Result<(), LayerFault>
    requires { same_kind End kind ≡ false }
    ensures gives { Gives (λ _. cursor.new) result (need attribute kind cursor.old) }
    ensures fewer { OnOk result (count cursor.new < count cursor.old) }
{
    if cursor.passes(kind) {
        Ok(())
    } else {
        Err(cursor.fault(wrong_token_fault(attribute, cursor)))
    }
}

/// Has the number a meaning in its place?
fn allows(demand: NumberRule, number: &Decimal) -> bool
    ensures { result ≡ allows demand (decimal_view number.now) }
{
    match demand {
        NumberRule::Any => true,
        NumberRule::Turn => is_turn(number),
        NumberRule::Zero => is_zero(number),
        NumberRule::One => is_one(number),
    }
}

/// What a finite number in this line gives.
fn checked_number(demand: NumberRule, line: u32, number: &Decimal) -> Result<i64, LayerFault>
    ensures gives { Gives (λ n. n) result (checked_number demand line (decimal_view number.now)) }
    ensures bound { IfOk result (λ n. unsigned_abs n ≤ 1048576) }
{
    if !allows(demand, number) {
        return Err(LayerFault::At {
            line,
            why: LayerWhy::LeftOut,
        });
    }
    if is_fractional(number) {
        return Err(LayerFault::At {
            line,
            why: LayerWhy::Fraction,
        });
    }
    match amount(number) {
        Some(n) => Ok(n),
        None => Err(LayerFault::At {
            line,
            why: LayerWhy::Limit(Which::Literal),
        }),
    }
}

/// Reads a number.
#[tactic(auto, unfolding(crate::specs::used::Numbers::number))]
pub fn number(cursor: &mut Cursor, demand: NumberRule) -> Result<i64, LayerFault>
    ensures gives { Gives (λ n. (n, cursor.new)) result (number demand cursor.old) }
    ensures fewer { OnOk result (count cursor.new < count cursor.old) }
    ensures bound { IfOk result (λ n. unsigned_abs n ≤ 1048576) }
{
    let text = cursor.text();
    let line = cursor.line();
    need(cursor, true, Kind::Number)?;
    if is_non_finite_text(text) {
        return Err(LayerFault::At {
            line,
            why: LayerWhy::LeftOut,
        });
    }
    checked_number(demand, line, &parts_of(text))
}

/// Reads three numbers.
#[tactic(auto, unfolding(crate::specs::used::Numbers::triple))]
pub fn triple(cursor: &mut Cursor, demand: NumberRule) -> Result<Vec3, LayerFault>
    ensures gives { Gives (λ t. (t, cursor.new)) result (triple demand cursor.old) }
    ensures fewer { OnOk result (count cursor.new < count cursor.old) }
{
    need(cursor, true, Kind::OpenRound)?;
    let x = number(cursor, demand)?;
    need(cursor, true, Kind::Comma)?;
    let y = number(cursor, demand)?;
    need(cursor, true, Kind::Comma)?;
    let z = number(cursor, demand)?;
    need(cursor, true, Kind::CloseRound)?;
    Ok(Vec3 { x, y, z })
}

/// Reads a row of a matrix, the last of whose four numbers is not kept.
#[tactic(auto, unfolding(crate::specs::used::Numbers::row))]
pub fn row(cursor: &mut Cursor, last: NumberRule) -> Result<[i64; 3], LayerFault>
    ensures gives { Gives (λ r. (r, cursor.new)) result (row last cursor.old) }
    ensures fewer { OnOk result (count cursor.new < count cursor.old) }
    ensures bound { IfOk result (λ r. list_all (is_within (2 ^ 30)) r ≡ true) }
{
    need(cursor, true, Kind::OpenRound)?;
    let x = number(cursor, NumberRule::Any)?;
    need(cursor, true, Kind::Comma)?;
    let y = number(cursor, NumberRule::Any)?;
    need(cursor, true, Kind::Comma)?;
    let z = number(cursor, NumberRule::Any)?;
    need(cursor, true, Kind::Comma)?;
    number(cursor, last)?;
    need(cursor, true, Kind::CloseRound)?;
    Ok([x, y, z])
}
