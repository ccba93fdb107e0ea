//! The matrix that a prim's own ops make.

ghost use Rattle.std.specs.Prelude.{◌≡◌};
ghost use Rattle.hd_flattening.specs.Local.{begins_with_reset, compose, listed_op, matrix_of, ops_product};

use crate::values::{op_of, value_at};
use hd_num::{Matrix, Op};
use hd_path::Token;
use hd_tokens::{OP_PREFIX, locators};
use hd_value::Container;

/// The product of the listed ops, from the last to the first, each multiplied on the right, or `None` where it is out
/// of range.
pub(crate) fn ops_product(values: &Container, entries: &[Token]) -> Option<Matrix>
    ensures { result ≡ ops_product values.now entries.now }
{
    let mut product = Some(Matrix::identity());
    let mut left = entries.len();
    while left > 0 {
        left -= 1;
        let op = listed_op(values, &entries[left]);
        product = compose(product, matrix_of(op));
    }
    product
}

/// The op that an entry of the order lists, where it has a value.
fn listed_op(values: &Container, entry: &Token) -> Option<Op>
    ensures { result ≡ listed_op values.now entry.now }
{
    match entry.text().strip_prefix(OP_PREFIX) {
        Some(name) => op_of(value_at(values, &locators::xform_op(name))),
        None => None,
    }
}

/// The matrix of an op; without an op it is the identity.
fn matrix_of(op: Option<Op>) -> Option<Matrix>
    ensures { result ≡ matrix_of op }
{
    match op {
        Some(op) => op.matrix(),
        None => Some(Matrix::identity()),
    }
}

/// One matrix and then another one, or `None` where either or the product is out of range.
pub(crate) fn compose(first: Option<Matrix>, next: Option<Matrix>) -> Option<Matrix>
    ensures { result ≡ compose first next }
{
    match (first, next) {
        (Some(first), Some(next)) => first.compose(&next),
        _ => None,
    }
}

/// Whether the first entry of the order leaves out the matrix of the parent.
pub(crate) fn begins_with_reset(entries: &[Token]) -> bool
    ensures { result ≡ begins_with_reset entries.now }
{
    match entries.first() {
        Some(entry) => entry.text() == "!resetXformStack!",
        None => false,
    }
}
