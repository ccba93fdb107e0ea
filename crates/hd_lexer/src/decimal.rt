//! What the text of a number says.

ghost use Rattle.std.specs.Prelude.{◌≡◌, ◌≤◌, ◌+◌, min, drop, IfSome, unsigned_abs, true};
ghost use Rattle.std.specs.List.{list_all};
ghost use Rattle.hd_layer.specs.declared.limits.Which.TheVariants.{Literal};
ghost use Rattle.hd_layer.specs.Limits.{limit_of};
ghost use Rattle.hd_lexer.specs.Lexing.{begins};
ghost use Rattle.hd_lexer.specs.Decimals.{is_minus, is_zero_digit, digits_from, parts_of, amount, is_fractional, within_limit};
ghost use Rattle.hd_lexer.specs.inner.DecimalViews.{decimal_view};

use crate::lexer::{digits_len, fraction_len, sign_len};
use hd_layer::Which;
use std::cmp::min;

/// The parts of a number.
#[derive(Clone, Copy)]
pub struct Decimal<'a> {
    pub negative: bool,
    /// The digits before the point.
    pub whole: &'a [u8],
    /// The point and the digits after it.
    pub fraction: &'a [u8],
    pub exponent: &'a [u8],
}

pub fn begins_minus(text: &[u8]) -> bool
    ensures { result ≡ begins is_minus text.now }
{
    match text {
        [] => false,
        [b, ..] => *b == b'-',
    }
}

/// The parts of the text of a number.
#[tactic(auto, unfolding(crate::specs::Decimals::parts_of))]
pub fn parts_of(text: &[u8]) -> Decimal<'_>
    ensures { decimal_view result ≡ parts_of text.now }
{
    let unsigned = &text[sign_len(text)..];
    let (whole, after) = unsigned.split_at(digits_len(unsigned));
    let (fraction, exponent) = after.split_at(fraction_len(true, after));
    Decimal {
        negative: begins_minus(text),
        whole,
        fraction,
        exponent,
    }
}

pub fn are_zeros(digits: &[u8]) -> bool
    ensures { result ≡ list_all is_zero_digit digits.now }
{
    digits.iter().all(|b| *b == b'0')
}

/// Are the digits after the point all 0?
fn has_zeros_after(fraction: &[u8]) -> bool
    ensures { result ≡ list_all is_zero_digit (drop 1 fraction.now) }
{
    match fraction {
        [] => true,
        [_, digits @ ..] => are_zeros(digits),
    }
}

fn is_some(bytes: &[u8]) -> bool
    ensures { result ≡ begins (λ b. true) bytes.now }
{
    !bytes.is_empty()
}

/// Has the number an exponent, or a digit other than 0 after the point?
pub fn is_fractional(number: &Decimal) -> bool
    ensures { result ≡ is_fractional (decimal_view number.now) }
{
    !has_zeros_after(number.fraction) || is_some(number.exponent)
}

/// What digits say, or the first number beyond the limit where they say more.
fn magnitude(digits: &[u8]) -> u64
    ensures { result ≡ min (digits_from 0 digits.now) (limit_of Literal + 1) }
{
    let beyond = Which::Literal.number() + 1;
    let mut n: u64 = 0;
    for b in digits {
        n = min(10 * n + u64::from(b.saturating_sub(b'0')), beyond);
    }
    n
}

/// The number, if it is within the limit.
fn within_limit(n: i64) -> Option<i64>
    ensures is { result ≡ within_limit n }
    ensures bound { IfSome result (λ m. unsigned_abs m ≤ 1048576) }
{
    if n.unsigned_abs() <= Which::Literal.number() {
        Some(n)
    } else {
        None
    }
}

/// The number before the point, if it is within the limit.
pub fn amount(number: &Decimal) -> Option<i64>
    ensures is { result ≡ within_limit (amount (decimal_view number.now)) }
    ensures bound { IfSome result (λ m. unsigned_abs m ≤ 1048576) }
{
    let n = magnitude(number.whole) as i64;
    if number.negative {
        within_limit(0 - n)
    } else {
        within_limit(n)
    }
}
