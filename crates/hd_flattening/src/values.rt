//! The values that flattening reads in a container.

ghost use Rattle.std.specs.Prelude.{◌≡◌, ◌<◌, length, IfOk, option_copied};
ghost use Rattle.std.specs.FinMap.{get};
ghost use Rattle.hd_tokens.specs.Tables.{texts};
ghost use Rattle.hd_flattening.specs.Values.{colors_of, is_set, op_of, paths_of, token_of, tokens_of};

use hd_num::{List, Op, Rgb};
use hd_path::{Path, Token};
use hd_value::{Container, Source, Value};
use std::alloc::AllocError;

/// The value at the locator of these tokens.
pub(crate) fn value_at<'a>(values: &'a Container, tokens: &[&str]) -> Option<&'a Value>
    requires { 0 < length tokens.now }
    ensures { option_copied result ≡ get values.now (texts tokens.now) }
{
    match values.get_at(tokens) {
        Some(Source::Leaf(value)) => Some(value),
        Some(Source::Inner(_)) => None,
        None => None,
    }
}

/// The tokens of a value, and none of another value.
pub(crate) fn tokens_of<'a>(value: Option<&'a Value>) -> &'a [Token]
    ensures { result.now ≡ tokens_of (option_copied value.entry) }
{
    match value {
        Some(Value::Tokens(tokens)) => tokens.items(),
        _ => &[],
    }
}

pub(crate) fn token_of<'a>(value: Option<&'a Value>) -> Option<&'a Token>
    ensures { option_copied result ≡ token_of (option_copied value.entry) }
{
    match value {
        Some(Value::Token(token)) => Some(token),
        _ => None,
    }
}

pub(crate) fn paths_of<'a>(value: Option<&'a Value>) -> Option<&'a List<Path>>
    ensures { option_copied result ≡ paths_of (option_copied value.entry) }
{
    match value {
        Some(Value::Paths(paths)) => Some(paths),
        _ => None,
    }
}

/// The colors of a value, which shares them.
pub(crate) fn colors_of(value: Option<&Value>) -> Result<List<Rgb>, AllocError>
    ensures { IfOk result (λ colors. colors ≡ colors_of (option_copied value.entry)) }
{
    match value {
        Some(Value::Colors(colors)) => colors.copy(),
        _ => Ok(List::empty()),
    }
}

pub(crate) fn op_of(value: Option<&Value>) -> Option<Op>
    ensures { result ≡ op_of (option_copied value.entry) }
{
    match value {
        Some(Value::Op(op)) => Some(*op),
        _ => None,
    }
}

/// Whether there is a flag that is set.
pub(crate) fn is_set(value: Option<&Value>) -> bool
    ensures { result ≡ is_set (option_copied value.entry) }
{
    match value {
        Some(Value::Flag(flag)) => *flag,
        _ => false,
    }
}

/// An equal value, where there is one.
pub(crate) fn copy_of(value: Option<&Value>) -> Result<Option<Value>, AllocError>
    ensures { IfOk result (λ copy. copy ≡ option_copied value.entry) }
{
    match value {
        Some(value) => Ok(Some(value.copy()?)),
        None => Ok(None),
    }
}
