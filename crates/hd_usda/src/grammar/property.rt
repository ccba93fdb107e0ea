//! The properties of a prim.

ghost use Rattle.std.specs.Prelude.{◌≡◌, ◌≤◌, ◌<◌, IsAscii, OnOk};
ghost use Rattle.hd_usda.specs.reading.Cursor.{count, Gives};
ghost use Rattle.hd_usda.specs.grammar.Property.{relation_value, is_misnamed_relation, relation, relation_or_attribute, property};
ghost use Rattle.hd_usda.specs.inner.PropertyViews.{properties_view};

use crate::grammar::attribute::attribute;
use crate::grammar::header::{list_op, pass_modifiers, pname};
use crate::grammar::kept::{PrimProperties, keep};
use crate::grammar::metadata::metadata;
use crate::grammar::name_set::new_name;
use crate::grammar::rule::{PropertyRule, before_value, is_for_use};
use crate::grammar::value::some_value;
use crate::reading::cursor::Cursor;
use crate::used::targets::targets;
use hd_layer::{LayerFault, RawValue};
use hd_lexer::Kind;
use hd_tokens::{attribute_kind_of, is_target_name};
use std::alloc::Global;

/// Reads the value of a relationship that is used or not.
#[tactic(auto, unfolding(crate::specs::grammar::Property::relation_value, crate::specs::grammar::Value::some_value))]
fn relation_value(
    alloc: Global,
    cursor: &mut Cursor,
    used: bool,
    name: &[u8],
    body: &mut PrimProperties,
) -> Result<(), LayerFault>
    requires { IsAscii name.now }
    ensures gives { Gives (λ _. (properties_view body.new, cursor.new)) result (relation_value used name.now (properties_view body.old) cursor.old) }
    ensures fewer { OnOk result (count cursor.new ≤ count cursor.old) }
{
    if used && cursor.passes(Kind::Equals) {
        let paths = targets(alloc, cursor)?;
        return keep(alloc, body, name, RawValue::Paths(paths));
    }
    some_value(cursor)
}

/// Is the name of a relationship left out?
fn is_misnamed_relation(listed: bool, name: &[u8]) -> bool
    ensures { result ≡ is_misnamed_relation listed name.now }
{
    attribute_kind_of(name).is_some() || (listed && is_target_name(name))
}

/// Reads a relationship after its `rel`.
#[tactic(auto, unfolding(crate::specs::grammar::Property::relation))]
fn relation(
    alloc: Global,
    cursor: &mut Cursor,
    rule: PropertyRule,
    listed: bool,
    body: &mut PrimProperties,
) -> Result<(), LayerFault>
    ensures gives { Gives (λ _. (properties_view body.new, cursor.new)) result (relation rule listed (properties_view body.old) cursor.old) }
    ensures fewer { OnOk result (count cursor.new < count cursor.old) }
{
    let name = pname(alloc, cursor)?;
    let left_out = is_for_use(rule) && is_misnamed_relation(listed, &name.name);
    let key = Vec::from_slice(alloc, &name.name)?;
    new_name(&mut body.properties, left_out, key, name.line)?;
    before_value(cursor, rule)?;
    let targeted = is_for_use(rule) && is_target_name(&name.name);
    relation_value(alloc, cursor, targeted, &name.name, body)?;
    metadata(cursor)
}

/// Reads a relationship or an attribute after what may be before it.
#[tactic(auto, unfolding(crate::specs::grammar::Property::relation_or_attribute))]
fn relation_or_attribute(
    alloc: Global,
    cursor: &mut Cursor,
    rule: PropertyRule,
    listed: bool,
    body: &mut PrimProperties,
) -> Result<(), LayerFault>
    ensures gives { Gives (λ _. (properties_view body.new, cursor.new)) result (relation_or_attribute rule listed (properties_view body.old) cursor.old) }
    ensures fewer { OnOk result (count cursor.new < count cursor.old) }
{
    if cursor.passes_word(b"rel") {
        relation(alloc, cursor, rule, listed, body)
    } else {
        attribute(alloc, cursor, rule, listed, body)
    }
}

/// Reads a property.
#[tactic(auto, unfolding(crate::specs::grammar::Property::property))]
pub fn property(
    alloc: Global,
    cursor: &mut Cursor,
    rule: PropertyRule,
    body: &mut PrimProperties,
) -> Result<(), LayerFault>
    ensures gives { Gives (λ _. (properties_view body.new, cursor.new)) result (property rule (properties_view body.old) cursor.old) }
    ensures fewer { OnOk result (count cursor.new < count cursor.old) }
{
    let listed = list_op(cursor)?;
    pass_modifiers(cursor);
    relation_or_attribute(alloc, cursor, rule, listed, body)
}
