//! What the values of properties become.

ghost use Rattle.std.specs.Prelude.{◌≡◌, map, IfOk};
ghost use Rattle.std.specs.Option.{option_map};
ghost use Rattle.hd_schema.specs.Colors.{byte_of, light_of, byte_color, light_color};
ghost use Rattle.hd_schema.specs.OpValues.{numbers, triples, triple};
ghost use Rattle.hd_schema.specs.Values.{words, word, paths, op, attribute_value, content_value, value_of};

use crate::op_values::{op_of, triple};
use hd_layer::RawValue;
use hd_num::{List, Rgb, Vec3};
use hd_tokens::{AttributeKind, Content, content_of};
use hd_value::Value;
use std::alloc::{AllocError, Global};

/// What the value of the used property of this name becomes: `None` where no used property has the name, or the
/// value hasn't the property's form. Long lists are shared and not copied.
#[tactic(auto, unfolding(crate::specs::Values::value_of))]
pub fn value_of(alloc: Global, name: &str, value: &RawValue) -> Result<Option<Value>, AllocError>
    ensures { IfOk result (λ made. made ≡ value_of name.now value.now) }
{
    match content_of(name.as_bytes()) {
        Some(content) => content_value(alloc, content, name, value),
        None => Ok(None),
    }
}

/// The same by what the value of the property is.
fn content_value(
    alloc: Global,
    content: Content,
    name: &str,
    value: &RawValue,
) -> Result<Option<Value>, AllocError>
    ensures { IfOk result (λ made. made ≡ content_value content name.now value.now) }
{
    match content {
        Content::Attribute(kind) => attribute_value(alloc, kind, name, value),
        Content::Targets => path_list(value),
    }
}

/// The same of an attribute by its kind.
fn attribute_value(
    alloc: Global,
    kind: AttributeKind,
    name: &str,
    value: &RawValue,
) -> Result<Option<Value>, AllocError>
    ensures { IfOk result (λ made. made ≡ attribute_value kind name.now value.now) }
{
    match kind {
        AttributeKind::Points => vector_list(value),
        AttributeKind::Numbers => number_list(value),
        AttributeKind::Colors => light_colors(alloc, value),
        AttributeKind::ByteColors => byte_colors(alloc, value),
        AttributeKind::OpOrder => word_list(value),
        AttributeKind::Visibility | AttributeKind::Purpose => word(value),
        AttributeKind::Vector
        | AttributeKind::Angle
        | AttributeKind::Angles
        | AttributeKind::Transform => Ok(op(name, value)),
        AttributeKind::ByteColor => Ok(color(value)),
    }
}

fn vector_list(value: &RawValue) -> Result<Option<Value>, AllocError>
    ensures { IfOk result (λ made. made ≡ option_map Value.Vecs (triples value.now)) }
{
    match value {
        RawValue::Triples(triples) => Ok(Some(Value::Vecs(triples.copy()?))),
        _ => Ok(None),
    }
}

fn number_list(value: &RawValue) -> Result<Option<Value>, AllocError>
    ensures { IfOk result (λ made. made ≡ option_map Value.Ints (numbers value.now)) }
{
    match value {
        RawValue::Numbers(numbers) => Ok(Some(Value::Ints(numbers.copy()?))),
        _ => Ok(None),
    }
}

fn word_list(value: &RawValue) -> Result<Option<Value>, AllocError>
    ensures { IfOk result (λ made. made ≡ option_map Value.Tokens (words value.now)) }
{
    match value {
        RawValue::Words(words) => Ok(Some(Value::Tokens(words.copy()?))),
        _ => Ok(None),
    }
}

fn path_list(value: &RawValue) -> Result<Option<Value>, AllocError>
    ensures { IfOk result (λ made. made ≡ option_map Value.Paths (paths value.now)) }
{
    match value {
        RawValue::Paths(paths) => Ok(Some(Value::Paths(paths.copy()?))),
        _ => Ok(None),
    }
}

/// The only word.
fn word(value: &RawValue) -> Result<Option<Value>, AllocError>
    ensures { IfOk result (λ made. made ≡ option_map Value.Token (word value.now)) }
{
    match value {
        RawValue::Words(words) => match words.items() {
            [word] => Ok(Some(Value::Token(word.copy()?))),
            _ => Ok(None),
        },
        _ => Ok(None),
    }
}

/// The op of the kind in the name.
fn op(name: &str, value: &RawValue) -> Option<Value>
    ensures { result ≡ op name.now value.now }
{
    Some(Value::Op(op_of(name, value)?))
}

/// The only triple, as a color.
fn color(value: &RawValue) -> Option<Value>
    ensures { result ≡ option_map (λ t. Value.Color (byte_color t)) (triple value.now) }
{
    Some(Value::Color(byte_color(triple(value)?)))
}

/// Colors by bytes.
fn byte_colors(alloc: Global, value: &RawValue) -> Result<Option<Value>, AllocError>
    ensures { IfOk result (λ made. made ≡ option_map (λ vs. Value.Colors (map byte_color vs)) (triples value.now)) }
{
    match value {
        RawValue::Triples(triples) => {
            let colors = all_byte_colors(alloc, triples.items())?;
            Ok(Some(Value::Colors(List::of(alloc, colors)?)))
        }
        _ => Ok(None),
    }
}

/// Colors that are lit or dark.
fn light_colors(alloc: Global, value: &RawValue) -> Result<Option<Value>, AllocError>
    ensures { IfOk result (λ made. made ≡ option_map (λ vs. Value.Colors (map light_color vs)) (triples value.now)) }
{
    match value {
        RawValue::Triples(triples) => {
            let colors = all_light_colors(alloc, triples.items())?;
            Ok(Some(Value::Colors(List::of(alloc, colors)?)))
        }
        _ => Ok(None),
    }
}

fn all_byte_colors(alloc: Global, triples: &[Vec3]) -> Result<Vec<Rgb>, AllocError>
    ensures { IfOk result (λ colors. colors.items ≡ map byte_color triples.now) }
{
    triples.iter().map(|v| byte_color(*v)).collect(alloc)
}

fn all_light_colors(alloc: Global, triples: &[Vec3]) -> Result<Vec<Rgb>, AllocError>
    ensures { IfOk result (λ colors. colors.items ≡ map light_color triples.now) }
{
    triples.iter().map(|v| light_color(*v)).collect(alloc)
}

fn byte_color(v: Vec3) -> Rgb
    ensures { result ≡ byte_color v }
{
    Rgb {
        r: byte_of(v.x),
        g: byte_of(v.y),
        b: byte_of(v.z),
    }
}

fn light_color(v: Vec3) -> Rgb
    ensures { result ≡ light_color v }
{
    Rgb {
        r: light_of(v.x),
        g: light_of(v.y),
        b: light_of(v.z),
    }
}

/// The number, but 0 below 0 and 255 above 255.
fn byte_of(n: i64) -> u8
    ensures { result ≡ byte_of n }
{
    if n < 0 {
        0
    } else if n > 255 {
        255
    } else {
        n as u8
    }
}

/// No light below 1, and full light from 1 on.
fn light_of(n: i64) -> u8
    ensures { result ≡ light_of n }
{
    if n < 1 { 0 } else { 255 }
}
