//! Attributes of a prim.

ghost use Rattle.std.specs.Prelude.{◌≡◌, ◌≤◌, ◌<◌, IsAscii, OnOk, IfOk};
ghost use Rattle.hd_layer.specs.declared.fault.LayerFault.TheVariants.{At};
ghost use Rattle.hd_lexer.specs.declared.lexer.Kind.TheVariants.{CloseCurly};
ghost use Rattle.hd_usda.specs.reading.Cursor.{count, Gives};
ghost use Rattle.hd_usda.specs.reading.Loops.{past};
ghost use Rattle.hd_usda.specs.grammar.Attribute.{point_tail, tail_at, with_tail, is_samples, has_wrong_type, is_misnamed, no_tail, new_attribute, sample, next_sample, samples, samples_value, plain_value, tail_value, own_role, has_other_value, is_left_out, after_pname, attribute};
ghost use Rattle.hd_usda.specs.inner.PropertyViews.{name_view, attribute_header_view, properties_view};

use crate::grammar::header::{PropertyName, own_type, pname};
use crate::grammar::kept::{PrimProperties, keep};
use crate::grammar::metadata::metadata;
use crate::grammar::name_set::{NameSet, new_name};
use crate::grammar::rule::{PropertyRule, before_value, is_for_use, needs_value};
use crate::grammar::value::{some_value, value};
use crate::reading::cursor::Cursor;
use crate::used::values::used_value;
use hd_layer::{LayerFault, LayerWhy, Which};
use hd_lexer::Kind;
use hd_tokens::{AttributeKind, allows, attribute_kind_of, is_target_name};
use std::alloc::{AllocError, Global};

/// What is after the name of an attribute.
#[derive(Clone, Copy)]
pub enum Tail {
    Plain,
    Connect,
    Samples,
    /// A point, and neither of the two words.
    Other,
}

/// What is before the name of an attribute.
#[derive(Clone, Copy)]
pub struct AttributeHeader<'a> {
    pub listed: bool,
    pub word: &'a [u8],
    pub brackets: bool,
}

/// Reads what is after the point of a tail.
#[tactic(auto, unfolding(crate::specs::grammar::Attribute::point_tail))]
fn point_tail(cursor: &mut Cursor) -> Tail
    ensures tail { (result, cursor.new) ≡ point_tail cursor.old }
    ensures fewer { count cursor.new ≤ count cursor.old }
{
    if cursor.passes_word(b"connect") {
        Tail::Connect
    } else if cursor.passes_word(b"timeSamples") {
        Tail::Samples
    } else {
        Tail::Other
    }
}

/// Reads the kind of a tail.
#[tactic(auto, unfolding(crate::specs::grammar::Attribute::tail_at))]
fn tail_at(cursor: &mut Cursor) -> Tail
    ensures tail { (result, cursor.new) ≡ tail_at cursor.old }
    ensures fewer { count cursor.new ≤ count cursor.old }
{
    if cursor.passes(Kind::Point) {
        point_tail(cursor)
    } else {
        Tail::Plain
    }
}

/// The name of an attribute with its tail, as names are told apart.
fn with_tail(alloc: Global, tail: Tail, name: &[u8]) -> Result<Vec<u8>, AllocError>
    ensures { IfOk result (λ key. key.items ≡ with_tail tail name.now) }
{
    let mut key = Vec::from_slice(alloc, name)?;
    match tail {
        Tail::Connect => key.extend_from_slice(b".connect")?,
        Tail::Samples => key.extend_from_slice(b".timeSamples")?,
        Tail::Plain | Tail::Other => {}
    }
    Ok(key)
}

fn is_samples(tail: Tail) -> bool
    ensures { result ≡ is_samples tail }
{
    match tail {
        Tail::Samples => true,
        Tail::Plain | Tail::Connect | Tail::Other => false,
    }
}

/// Is an attribute of this role left out, for its type or its tail?
fn has_wrong_type(role: Option<AttributeKind>, header: &AttributeHeader, tail: Tail) -> bool
    ensures { result ≡ has_wrong_type role (attribute_header_view header.now) tail }
{
    match role {
        None => false,
        Some(role) => header.listed
            || !allows(role, header.word, header.brackets)
            || is_samples(tail),
    }
}

/// Is the name of an attribute left out?
fn is_misnamed(name: &[u8], header: &AttributeHeader, tail: Tail) -> bool
    ensures { result ≡ is_misnamed name.now (attribute_header_view header.now) tail }
{
    is_target_name(name) || has_wrong_type(attribute_kind_of(name), header, tail)
}

/// Is the tail of connections or samples?
fn has_other_value(tail: Tail) -> bool
    ensures { result ≡ has_other_value tail }
{
    match tail {
        Tail::Plain | Tail::Other => false,
        Tail::Connect | Tail::Samples => true,
    }
}

/// Is an attribute left out for its name, or for a tail where a value is needed?
fn is_left_out(rule: PropertyRule, name: &[u8], header: &AttributeHeader, tail: Tail) -> bool
    ensures { result ≡ is_left_out rule name.now (attribute_header_view header.now) tail }
{
    (is_for_use(rule) && is_misnamed(name, header, tail))
        || (needs_value(rule) && has_other_value(tail))
}

/// What is wrong with what is after a point in place of a tail.
fn no_tail(cursor: &Cursor, left_out: bool, line: u32) -> LayerFault
    ensures { result ≡ At (no_tail left_out line cursor.now).line (no_tail left_out line cursor.now).why }
{
    if left_out {
        LayerFault::At {
            line,
            why: LayerWhy::LeftOut,
        }
    } else if cursor.is(Kind::Word) {
        cursor.fault(LayerWhy::LeftOut)
    } else {
        cursor.fault(LayerWhy::Syntax)
    }
}

/// Adds the name of an attribute with its tail.
fn new_attribute(
    alloc: Global,
    cursor: &Cursor,
    tail: Tail,
    left_out: bool,
    name: &PropertyName,
    seen: &mut NameSet,
) -> Result<(), LayerFault>
    ensures { Gives (λ _. seen.new) result (new_attribute tail left_out (name_view name.now) seen.old cursor.now) }
{
    match tail {
        Tail::Other => Err(no_tail(cursor, left_out, name.line)),
        Tail::Plain | Tail::Connect | Tail::Samples => {
            let key = with_tail(alloc, tail, &name.name)?;
            new_name(seen, left_out, key, name.line)
        }
    }
}

/// Passes a time and its value.
#[tactic(auto, unfolding(crate::specs::grammar::Attribute::sample))]
fn sample(cursor: &mut Cursor) -> Result<(), LayerFault>
    ensures gives { Gives (λ _. cursor.new) result (sample cursor.old) }
    ensures fewer { OnOk result (count cursor.new < count cursor.old) }
{
    cursor.take(Kind::Number)?;
    cursor.take(Kind::Colon)?;
    // One bracket is open already.
    value(cursor, Which::Nesting.number() - 1)
}

#[tactic(auto, unfolding(crate::specs::grammar::Attribute::next_sample))]
fn next_sample(cursor: &mut Cursor) -> Result<(), LayerFault>
    ensures gives { Gives (λ _. cursor.new) result (next_sample cursor.old) }
    ensures fewer { OnOk result (count cursor.new < count cursor.old) }
{
    cursor.take(Kind::Comma)?;
    if !cursor.is(Kind::CloseCurly) {
        sample(cursor)?;
    }
    Ok(())
}

#[tactic(auto, using(crate::proofs::Passing::passing))]
fn rest_of_samples(cursor: &mut Cursor) -> Result<(), LayerFault>
    ensures gives { Gives (λ _. cursor.new) result (past CloseCurly next_sample cursor.old) }
    ensures fewer { OnOk result (count cursor.new < count cursor.old) }
{
    'rest: while !cursor.passes(Kind::CloseCurly) {
        next_sample(cursor)?;
    }
    Ok(())
}

/// Passes samples.
#[tactic(auto, unfolding(crate::specs::grammar::Attribute::samples))]
fn samples(cursor: &mut Cursor) -> Result<(), LayerFault>
    ensures gives { Gives (λ _. cursor.new) result (samples cursor.old) }
    ensures fewer { OnOk result (count cursor.new < count cursor.old) }
{
    cursor.take(Kind::OpenCurly)?;
    if cursor.passes(Kind::CloseCurly) {
        return Ok(());
    }
    sample(cursor)?;
    rest_of_samples(cursor)
}

#[tactic(auto, unfolding(crate::specs::grammar::Attribute::samples_value))]
fn samples_value(cursor: &mut Cursor) -> Result<(), LayerFault>
    ensures gives { Gives (λ _. cursor.new) result (samples_value cursor.old) }
    ensures fewer { OnOk result (count cursor.new ≤ count cursor.old) }
{
    cursor.take(Kind::Equals)?;
    samples(cursor)
}

/// Reads the plain value of an attribute that is used or not.
fn plain_value(
    alloc: Global,
    cursor: &mut Cursor,
    role: Option<AttributeKind>,
    name: &[u8],
    body: &mut PrimProperties,
) -> Result<(), LayerFault>
    requires { IsAscii name.now }
    ensures gives { Gives (λ _. (properties_view body.new, cursor.new)) result (plain_value role name.now (properties_view body.old) cursor.old) }
    ensures fewer { OnOk result (count cursor.new ≤ count cursor.old) }
{
    match role {
        None => some_value(cursor),
        Some(role) => {
            if cursor.passes(Kind::Equals) {
                let value = used_value(alloc, cursor, role)?;
                keep(alloc, body, name, value)?;
            }
            Ok(())
        }
    }
}

/// Reads what a tail says.
fn tail_value(
    alloc: Global,
    cursor: &mut Cursor,
    tail: Tail,
    role: Option<AttributeKind>,
    name: &[u8],
    body: &mut PrimProperties,
) -> Result<(), LayerFault>
    requires { IsAscii name.now }
    ensures gives { Gives (λ _. (properties_view body.new, cursor.new)) result (tail_value tail role name.now (properties_view body.old) cursor.old) }
    ensures fewer { OnOk result (count cursor.new ≤ count cursor.old) }
{
    match tail {
        Tail::Plain => plain_value(alloc, cursor, role, name, body),
        Tail::Connect => some_value(cursor),
        Tail::Samples => samples_value(cursor),
        Tail::Other => Err(cursor.fault(LayerWhy::Syntax)),
    }
}

fn own_role(rule: PropertyRule, name: &[u8]) -> Option<AttributeKind>
    ensures { result ≡ own_role rule name.now }
{
    if is_for_use(rule) {
        attribute_kind_of(name)
    } else {
        None
    }
}

/// Reads what is after the name of an attribute.
#[tactic(auto, unfolding(crate::specs::grammar::Attribute::after_pname))]
fn after_pname(
    alloc: Global,
    cursor: &mut Cursor,
    rule: PropertyRule,
    header: &AttributeHeader,
    name: &PropertyName,
    body: &mut PrimProperties,
) -> Result<(), LayerFault>
    requires { IsAscii name.now.name.items }
    ensures gives { Gives (λ _. (properties_view body.new, cursor.new)) result (after_pname rule (attribute_header_view header.now) (name_view name.now) (properties_view body.old) cursor.old) }
    ensures fewer { OnOk result (count cursor.new ≤ count cursor.old) }
{
    let tail = tail_at(cursor);
    let left_out = is_left_out(rule, &name.name, header, tail);
    new_attribute(alloc, cursor, tail, left_out, name, &mut body.properties)?;
    before_value(cursor, rule)?;
    let role = own_role(rule, &name.name);
    tail_value(alloc, cursor, tail, role, &name.name, body)?;
    metadata(cursor)
}

/// Reads an attribute.
#[tactic(auto, unfolding(crate::specs::grammar::Attribute::attribute))]
pub fn attribute(
    alloc: Global,
    cursor: &mut Cursor,
    rule: PropertyRule,
    listed: bool,
    body: &mut PrimProperties,
) -> Result<(), LayerFault>
    ensures gives { Gives (λ _. (properties_view body.new, cursor.new)) result (attribute rule listed (properties_view body.old) cursor.old) }
    ensures fewer { OnOk result (count cursor.new < count cursor.old) }
{
    let own = own_type(cursor)?;
    let name = pname(alloc, cursor)?;
    let header = AttributeHeader {
        listed,
        word: own.word,
        brackets: own.brackets,
    };
    after_pname(alloc, cursor, rule, &header, &name, body)
}
