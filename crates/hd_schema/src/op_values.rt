//! The transform ops that properties give.

ghost use Rattle.std.specs.Prelude.{◌≡◌, drop};
ghost use Rattle.std.specs.Option.{option_map};
ghost use Rattle.hd_schema.specs.OpValues.{number, triple, matrix, quarters, turn, turns, kind_of, op_of_kind};

use hd_layer::RawValue;
use hd_num::{Axis, Matrix, Op, Vec3};
use hd_tokens::part_len;

/// The op that a value gives, by the kind in the name of its property.
pub fn op_of(name: &str, value: &RawValue) -> Option<Op>
    ensures { result ≡ op_of_kind (kind_of name.now) value.now }
{
    op_of_kind(kind_of(name.as_bytes()), value)
}

/// The kind of an op: what follows `xformOp:`, up to the next colon.
fn kind_of(name: &[u8]) -> &[u8]
    ensures { result.now ≡ kind_of name.now }
{
    let rest = past_prefix(name);
    &rest[..part_len(rest)]
}

/// What follows the eight bytes of `xformOp:`.
fn past_prefix(name: &[u8]) -> &[u8]
    ensures { result.now ≡ drop 8 name.now }
{
    if name.len() < 8 { &[] } else { &name[8..] }
}

/// The op of a kind that a value gives.
fn op_of_kind(kind: &[u8], value: &RawValue) -> Option<Op>
    ensures { result ≡ op_of_kind kind.now value.now }
{
    if kind == b"translate".as_slice() {
        translation(value)
    } else if kind == b"scale".as_slice() {
        scaling(value)
    } else if kind == b"rotateX".as_slice() {
        turn(Axis::X, value)
    } else if kind == b"rotateY".as_slice() {
        turn(Axis::Y, value)
    } else if kind == b"rotateZ".as_slice() {
        turn(Axis::Z, value)
    } else if kind == b"rotateXYZ".as_slice() {
        turns_of(value)
    } else if kind == b"transform".as_slice() {
        transform(value)
    } else {
        None
    }
}

fn translation(value: &RawValue) -> Option<Op>
    ensures { result ≡ option_map Op.Translate (triple value.now) }
{
    Some(Op::Translate(triple(value)?))
}

fn scaling(value: &RawValue) -> Option<Op>
    ensures { result ≡ option_map Op.Scale (triple value.now) }
{
    Some(Op::Scale(triple(value)?))
}

fn turn(axis: Axis, value: &RawValue) -> Option<Op>
    ensures { result ≡ option_map (turn axis) (number value.now) }
{
    Some(Op::Rotate(axis, quarters(number(value)?)))
}

fn turns_of(value: &RawValue) -> Option<Op>
    ensures { result ≡ option_map turns (triple value.now) }
{
    Some(turns(triple(value)?))
}

fn transform(value: &RawValue) -> Option<Op>
    ensures { result ≡ option_map Op.Transform (matrix value.now) }
{
    Some(Op::Transform(matrix(value)?))
}

/// So many degrees in quarter turns, from 0 to 3.
fn quarters(degrees: i64) -> u8
    ensures { result ≡ quarters degrees }
{
    (degrees / 90).rem_euclid(4) as u8
}

/// A turn about x, then y, then z.
fn turns(degrees: Vec3) -> Op
    ensures { result ≡ turns degrees }
{
    Op::RotateXyz(
        quarters(degrees.x),
        quarters(degrees.y),
        quarters(degrees.z),
    )
}

/// The only number of a value.
fn number(value: &RawValue) -> Option<i64>
    ensures { result ≡ number value.now }
{
    match value {
        RawValue::Numbers(numbers) => match numbers.items() {
            [n] => Some(*n),
            _ => None,
        },
        _ => None,
    }
}

/// The only triple of a value.
pub fn triple(value: &RawValue) -> Option<Vec3>
    ensures { result ≡ triple value.now }
{
    match value {
        RawValue::Triples(triples) => match triples.items() {
            [v] => Some(*v),
            _ => None,
        },
        _ => None,
    }
}

/// The matrix of a value.
fn matrix(value: &RawValue) -> Option<Matrix>
    ensures { result ≡ matrix value.now }
{
    match value {
        RawValue::Matrix(matrix) => Some(*matrix),
        _ => None,
    }
}
