//! The values of used attributes.

ghost use Rattle.std.specs.Prelude.{◌≡◌, ◌<◌, ◌∷◌, [], OnOk, IfOk, true};
ghost use Rattle.hd_num.specs.Matrices.{in_range};
ghost use Rattle.hd_usda.specs.reading.Cursor.{count, Gives};
ghost use Rattle.hd_tokens.specs.Properties.{visibilities, purposes};
ghost use Rattle.hd_layer.specs.declared.spec.RawValue.TheVariants as raw;
ghost use Rattle.hd_usda.specs.used.Numbers.{number, triple};
ghost use Rattle.hd_usda.specs.used.Values.{numbers, triples, op_entry, op_entries, one_of, rows, single, value_of, used_value};

use crate::reading::cursor::Cursor;
use crate::reading::text::as_token;
use crate::used::elements::{Element, list_of};
use crate::used::numbers::{NumberRule, is_non_finite, need, number, row, triple};
use hd_layer::{LayerFault, LayerWhy, RawValue, Which};
use hd_lexer::Kind;
use hd_num::{List, Matrix, Vec3};
use hd_path::Token;
use hd_tokens::{AttributeKind, is_op_entry, is_purpose, is_visibility};
use std::alloc::{AllocError, Global};

impl Element for i64 {
    ghost how = { numbers };

    fn is_in_attribute() -> bool {
        true
    }

    fn begins(cursor: &Cursor) -> bool {
        cursor.is(Kind::Number)
    }

    fn beyond(_text: &[u8]) -> LayerWhy {
        LayerWhy::Limit(Which::Elements)
    }

    fn read(_alloc: Global, cursor: &mut Cursor, _first: bool) -> Result<i64, LayerFault> {
        number(cursor, NumberRule::Any)
    }
}

impl Element for Vec3 {
    ghost how = { triples };

    fn is_in_attribute() -> bool {
        true
    }

    fn begins(cursor: &Cursor) -> bool {
        cursor.is(Kind::OpenRound) || is_non_finite(cursor)
    }

    fn beyond(_text: &[u8]) -> LayerWhy {
        LayerWhy::Limit(Which::Elements)
    }

    fn read(_alloc: Global, cursor: &mut Cursor, _first: bool) -> Result<Vec3, LayerFault> {
        triple(cursor, NumberRule::Any)
    }
}

/// Reads an entry of an op order.
#[tactic(auto, using(crate::proofs::Ascii::op_entry_ascii), unfolding(crate::specs::used::Values::op_entry))]
fn op_entry(alloc: Global, cursor: &mut Cursor, first: bool) -> Result<Token, LayerFault>
    ensures gives { Gives (λ word. (word, cursor.new)) result (op_entry first cursor.old) }
    ensures fewer { OnOk result (count cursor.new < count cursor.old) }
{
    let text = cursor.text();
    let fault = cursor.fault(LayerWhy::LeftOut);
    need(cursor, true, Kind::Text)?;
    if !is_op_entry(first, text) {
        return Err(fault);
    }
    as_token(alloc, text)
}

impl Element for Token {
    ghost how = { op_entries };

    fn is_in_attribute() -> bool {
        true
    }

    fn begins(cursor: &Cursor) -> bool {
        cursor.is(Kind::Text)
    }

    fn beyond(_text: &[u8]) -> LayerWhy {
        LayerWhy::Limit(Which::Elements)
    }

    fn read(alloc: Global, cursor: &mut Cursor, first: bool) -> Result<Token, LayerFault> {
        op_entry(alloc, cursor, first)
    }
}

/// Reads a visibility.
#[tactic(auto, using(crate::proofs::Ascii::visibility_ascii), unfolding(crate::specs::used::Values::one_of))]
fn visibility(alloc: Global, cursor: &mut Cursor) -> Result<Token, LayerFault>
    ensures gives { Gives (λ word. (word, cursor.new)) result (one_of visibilities cursor.old) }
    ensures fewer { OnOk result (count cursor.new < count cursor.old) }
{
    let text = cursor.text();
    let fault = cursor.fault(LayerWhy::LeftOut);
    need(cursor, true, Kind::Text)?;
    if !is_visibility(text) {
        return Err(fault);
    }
    as_token(alloc, text)
}

/// Reads a purpose.
#[tactic(auto, using(crate::proofs::Ascii::purpose_ascii), unfolding(crate::specs::used::Values::one_of))]
fn purpose(alloc: Global, cursor: &mut Cursor) -> Result<Token, LayerFault>
    ensures gives { Gives (λ word. (word, cursor.new)) result (one_of purposes cursor.old) }
    ensures fewer { OnOk result (count cursor.new < count cursor.old) }
{
    let text = cursor.text();
    let fault = cursor.fault(LayerWhy::LeftOut);
    need(cursor, true, Kind::Text)?;
    if !is_purpose(text) {
        return Err(fault);
    }
    as_token(alloc, text)
}

/// Reads the rows of a matrix.
#[tactic(auto, unfolding(crate::specs::used::Values::rows, hd_num::specs::Matrices::in_range))]
fn rows(cursor: &mut Cursor) -> Result<[[i64; 3]; 4], LayerFault>
    ensures gives { Gives (λ rows. (rows, cursor.new)) result (rows cursor.old) }
    ensures fewer { OnOk result (count cursor.new < count cursor.old) }
    ensures bound { IfOk result (λ rows. in_range rows ≡ true) }
{
    need(cursor, true, Kind::OpenRound)?;
    let x = row(cursor, NumberRule::Zero)?;
    need(cursor, true, Kind::Comma)?;
    let y = row(cursor, NumberRule::Zero)?;
    need(cursor, true, Kind::Comma)?;
    let z = row(cursor, NumberRule::Zero)?;
    need(cursor, true, Kind::Comma)?;
    let origin = row(cursor, NumberRule::One)?;
    need(cursor, true, Kind::CloseRound)?;
    Ok([x, y, z, origin])
}

/// Reads a matrix. Numbers within the limit of a literal are in its range.
#[tactic(auto, unfolding(hd_num::specs::Matrices::if_in_range))]
fn matrix(cursor: &mut Cursor) -> Result<Matrix, LayerFault>
    ensures gives { Gives (λ matrix. (matrix, cursor.new)) result (rows cursor.old) }
    ensures fewer { OnOk result (count cursor.new < count cursor.old) }
{
    match Matrix::of_rows(rows(cursor)?) {
        Some(matrix) => Ok(matrix),
        None => unreachable!(),
    }
}

/// The list of one item.
fn one<T: Drop>(alloc: Global, item: T) -> Result<List<T>, AllocError>
    ensures { IfOk result (λ list. list ≡ item ∷ []) }
{
    let mut items = Vec::new(alloc);
    items.push(item)?;
    List::of(alloc, items)
}

/// Reads a triple as a list of one.
fn one_triple(
    alloc: Global,
    cursor: &mut Cursor,
    demand: NumberRule,
) -> Result<RawValue, LayerFault>
    ensures gives { Gives (λ value. (value, cursor.new)) result (single raw.Triples (triple demand) cursor.old) }
    ensures fewer { OnOk result (count cursor.new < count cursor.old) }
{
    let triple = triple(cursor, demand)?;
    Ok(RawValue::Triples(one(alloc, triple)?))
}

/// Reads an angle as a list of one.
fn one_angle(alloc: Global, cursor: &mut Cursor) -> Result<RawValue, LayerFault>
    ensures gives { Gives (λ value. (value, cursor.new)) result (single raw.Numbers (number NumberRule.Turn) cursor.old) }
    ensures fewer { OnOk result (count cursor.new < count cursor.old) }
{
    let degrees = number(cursor, NumberRule::Turn)?;
    Ok(RawValue::Numbers(one(alloc, degrees)?))
}

/// Reads the value that an attribute has by its role.
fn value_of(alloc: Global, cursor: &mut Cursor, role: AttributeKind) -> Result<RawValue, LayerFault>
    ensures gives { Gives (λ value. (value, cursor.new)) result (value_of role cursor.old) }
    ensures fewer { OnOk result (count cursor.new < count cursor.old) }
{
    match role {
        AttributeKind::Points | AttributeKind::Colors | AttributeKind::ByteColors => {
            Ok(RawValue::Triples(list_of(alloc, cursor)?))
        }
        AttributeKind::Numbers => Ok(RawValue::Numbers(list_of(alloc, cursor)?)),
        AttributeKind::OpOrder => Ok(RawValue::Words(list_of(alloc, cursor)?)),
        AttributeKind::Visibility => {
            let word = visibility(alloc, cursor)?;
            Ok(RawValue::Words(one(alloc, word)?))
        }
        AttributeKind::Purpose => {
            let word = purpose(alloc, cursor)?;
            Ok(RawValue::Words(one(alloc, word)?))
        }
        AttributeKind::Vector | AttributeKind::ByteColor => one_triple(
            alloc,
            cursor,
            NumberRule::Any,
        ),
        AttributeKind::Angle => one_angle(alloc, cursor),
        AttributeKind::Angles => one_triple(alloc, cursor, NumberRule::Turn),
        AttributeKind::Transform => Ok(RawValue::Matrix(matrix(cursor)?)),
    }
}

/// Reads the value of a used attribute.
#[tactic(auto, unfolding(crate::specs::used::Values::used_value))]
pub fn used_value(
    alloc: Global,
    cursor: &mut Cursor,
    role: AttributeKind,
) -> Result<RawValue, LayerFault>
    ensures gives { Gives (λ value. (value, cursor.new)) result (used_value role cursor.old) }
    ensures fewer { OnOk result (count cursor.new < count cursor.old) }
{
    if cursor.is_word(b"None") {
        return Err(cursor.fault(LayerWhy::LeftOut));
    }
    value_of(alloc, cursor, role)
}
