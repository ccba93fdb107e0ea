//! The container of a flat prim.

ghost use Rattle.std.specs.Prelude.{◌≡◌, List, Some, codes, unwrap_or, IsTrue, IfOk, OnOk};
ghost use Rattle.std.specs.Option.{option_and_then};
ghost use Rattle.hd_tokens.specs.Tables.{texts};
ghost use Rattle.hd_value.specs.Maps.{Map};
ghost use Rattle.hd_value.specs.Schema.{IsInstanced};
ghost use Rattle.hd_scene.specs.Scenes.{prim_of};
ghost use Rattle.hd_flattening.specs.Flat.{first_of};
ghost use Rattle.hd_flattening.specs.Flattened.{flat_values, matrix_value};
ghost use Rattle.hd_flattening.specs.inner.Inheriting.{inherited_from, IsFlat};
ghost use Rattle.hd_flattening.specs.inner.FlatLocators.{binding_value, flat_locators, is_among, with_all_passed, with_passed, with_value, IsWithin};

use crate::inherited::Inherited;
use crate::values::{copy_of, value_at};
use hd_num::{List, Matrix};
use hd_path::{Path, Token};
use hd_scene::{Entry, Prim};
use hd_tokens::locators;
use hd_value::{Container, Value};
use std::alloc::{AllocError, Global};

/// The flattened prim, given what it inherits.
pub(crate) fn flat_prim(
    alloc: Global,
    inherited: &Inherited,
    entry: Entry,
) -> Result<Prim, AllocError>
    requires { IsInstanced entry.values }
    ensures { IfOk result (λ prim. (above : List Map) → inherited.now ≡ inherited_from above → prim ≡ prim_of (Some (record { kind = entry.kind; values = flat_values entry.values above }))) }
{
    let values = flat_values(alloc, inherited, &entry.values)?;
    let kind = entry.kind;
    Prim::of(alloc, Some(Entry { kind, values }))
}

/// The flattened values of a prim, given what it inherits.
fn flat_values(
    alloc: Global,
    inherited: &Inherited,
    values: &Container,
) -> Result<Container, AllocError>
    requires { IsInstanced values.now }
    ensures { IfOk result (IsFlat flat_values values.now inherited.now) }
{
    let own = inherited.for_children(values)?;
    let colors = inherited.colors(values)?;
    let mut flat = Container::new();
    let matrix = matrix_value(own.matrix);
    put(&mut flat, alloc, locators::XFORM_MATRIX, Some(matrix))?;
    let visibility = Value::Flag(own.is_visible);
    put(&mut flat, alloc, locators::VISIBILITY, Some(visibility))?;
    let purpose = Value::Token(purpose_or_default(alloc, own.purpose)?);
    put(&mut flat, alloc, locators::PURPOSE, Some(purpose))?;
    let binding = binding_value(alloc, own.binding)?;
    put(&mut flat, alloc, locators::BINDING, binding)?;
    let colors = Value::Colors(colors);
    put(&mut flat, alloc, locators::COLOR, Some(colors))?;
    pass_all(&mut flat, alloc, values)?;
    Ok(flat)
}

fn matrix_value(matrix: Option<Matrix>) -> Value
    ensures { result ≡ matrix_value matrix }
{
    match matrix {
        Some(matrix) => Value::Matrix(matrix),
        None => Value::Out,
    }
}

fn purpose_or_default(alloc: Global, purpose: Option<Token>) -> Result<Token, AllocError>
    ensures { IfOk result (λ token. token ≡ unwrap_or purpose (codes "default")) }
{
    match purpose {
        Some(purpose) => Ok(purpose),
        None => Token::new(alloc, "default"),
    }
}

/// A binding of the first path, where there is one.
fn binding_value(alloc: Global, binding: Option<List<Path>>) -> Result<Option<Value>, AllocError>
    ensures { IfOk result (λ value. value ≡ binding_value (option_and_then first_of binding)) }
{
    let Some(paths) = binding else {
        return Ok(None);
    };
    match paths.items().first() {
        Some(path) => {
            let first = List::of(alloc, vec![in alloc; path.copy()?]?)?;
            Ok(Some(Value::Paths(first)))
        }
        None => Ok(None),
    }
}

/// Adds what passes of a prim's own values.
fn pass_all(flat: &mut Container, alloc: Global, values: &Container) -> Result<(), AllocError>
    requires { IsWithin flat_locators flat.old }
    ensures { OnOk result (flat.new ≡ with_all_passed values.now flat.old) }
{
    pass(flat, alloc, values, locators::POINTS)?;
    pass(flat, alloc, values, locators::FACE_VERTEX_COUNTS)?;
    pass(flat, alloc, values, locators::FACE_VERTEX_INDICES)?;
    pass(flat, alloc, values, locators::POSITIONS)?;
    pass(flat, alloc, values, locators::PROTO_INDICES)?;
    pass(flat, alloc, values, locators::PROTOTYPES)?;
    pass(flat, alloc, values, locators::MATERIAL_COLOR8)?;
    pass(flat, alloc, values, locators::INSTANCED_BY)
}

/// Adds the value at the locator of these tokens, where there is one.
fn pass(
    flat: &mut Container,
    alloc: Global,
    values: &Container,
    tokens: &'static [&'static str],
) -> Result<(), AllocError>
    requires among { IsTrue (is_among flat_locators (texts tokens.now)) }
    requires within { IsWithin flat_locators flat.old }
    ensures ok { OnOk result (flat.new ≡ with_passed values.now flat.old (texts tokens.now)) }
    ensures within { IsWithin flat_locators flat.new }
{
    let value = copy_of(value_at(values, tokens))?;
    put(flat, alloc, tokens, value)
}

/// Puts a value, where there is one, at the locator of these tokens.
fn put(
    flat: &mut Container,
    alloc: Global,
    tokens: &'static [&'static str],
    value: Option<Value>,
) -> Result<(), AllocError>
    requires among { IsTrue (is_among flat_locators (texts tokens.now)) }
    requires within { IsWithin flat_locators flat.old }
    ensures ok { OnOk result (flat.new ≡ with_value flat.old (texts tokens.now) value) }
    ensures within { IsWithin flat_locators flat.new }
{
    match value {
        Some(value) => flat.set_at(alloc, tokens, value),
        None => Ok(()),
    }
}
