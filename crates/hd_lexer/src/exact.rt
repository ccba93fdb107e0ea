//! Numbers that are judged by their exact value, their exponent included.

ghost use Rattle.std.specs.Prelude.{◌≡◌, ◌≤◌, ◌<◌, ◌+◌, ◌*◌, ◌^◌, ◌==◌, nat_le, min, length};
ghost use Rattle.hd_lexer.specs.Decimals.{digits_from};
ghost use Rattle.hd_lexer.specs.inner.DecimalViews.{decimal_view};
ghost use Rattle.hd_lexer.specs.Exact.{after_point, is_zero, sum_from, digit_sum, zeros_from, last_zeros, signed_exponent, exponent_of, places_left, places_right, is_turn, is_one};

use crate::decimal::{Decimal, are_zeros, begins_minus};
use crate::lexer::sign_len;
use std::cmp::min;

/// More places than a text has bytes.
const FAR: u128 = 1 << 66;

/// The digits after the point.
fn after_point<'a>(number: &Decimal<'a>) -> &'a [u8]
    ensures { result.now ≡ after_point (decimal_view number.now) }
{
    match number.fraction {
        [] => &[],
        [_, digits @ ..] => digits,
    }
}

/// Is each digit 0?
pub fn is_zero(number: &Decimal) -> bool
    ensures { result ≡ is_zero (decimal_view number.now) }
{
    are_zeros(number.whole) && are_zeros(after_point(number))
}

/// The sum of digits, and of what is before them.
fn sum_from(before: u128, digits: &[u8]) -> u128
    requires { before ≤ 2 ^ 80 }
    ensures sum { result ≡ sum_from before digits.now }
    ensures bound { result ≤ before + 256 * length digits.now }
{
    let mut sum = before;
    for b in digits {
        sum += u128::from(b.saturating_sub(b'0'));
    }
    sum
}

fn digit_sum(number: &Decimal) -> u128
    ensures { result ≡ digit_sum (decimal_view number.now) }
{
    sum_from(sum_from(0, number.whole), after_point(number))
}

/// How many digits 0 end the digits, where so many end those before them.
fn zeros_from(before: u128, digits: &[u8]) -> u128
    requires { before ≤ 2 ^ 80 }
    ensures zeros { result ≡ zeros_from before digits.now }
    ensures bound { result ≤ before + length digits.now }
{
    let mut zeros = before;
    for b in digits {
        zeros = if *b == b'0' { zeros + 1 } else { 0 };
    }
    zeros
}

fn last_zeros(number: &Decimal) -> u128
    ensures zeros { result ≡ last_zeros (decimal_view number.now) }
    ensures bound { result < 2 ^ 65 }
{
    zeros_from(zeros_from(0, number.whole), after_point(number))
}

/// What digits say, or `FAR` where they say more.
fn magnitude(digits: &[u8]) -> u128
    ensures { result ≡ min (digits_from 0 digits.now) (2 ^ 66) }
{
    let mut n: u128 = 0;
    for b in digits {
        n = min(10 * n + u128::from(b.saturating_sub(b'0')), FAR);
    }
    n
}

/// The exponent after its letter.
fn signed_exponent<'a>(number: &Decimal<'a>) -> &'a [u8]
    ensures { result.now ≡ signed_exponent (decimal_view number.now) }
{
    match number.exponent {
        [] => &[],
        [_, after @ ..] => after,
    }
}

/// The number that the exponent says, or `FAR` where it says more.
fn exponent_of(number: &Decimal) -> u128
    ensures { result ≡ min (exponent_of (decimal_view number.now)) (2 ^ 66) }
{
    let exponent = signed_exponent(number);
    magnitude(&exponent[sign_len(exponent)..])
}

/// Is the number a multiple of 90?
pub fn is_turn(number: &Decimal) -> bool
    ensures { result ≡ is_turn (decimal_view number.now) }
{
    is_zero(number) || (digit_sum(number) % 9 == 0 && says_tens(number))
}

/// Does the last digit other than 0 say tens or more?
fn says_tens(number: &Decimal) -> bool
    ensures { result ≡ nat_le (places_left (decimal_view number.now) + 1) (places_right (decimal_view number.now)) }
{
    let left = after_point(number).len() as u128;
    let right = last_zeros(number);
    let exponent = exponent_of(number);
    if begins_minus(signed_exponent(number)) {
        left + exponent + 1 <= right
    } else {
        left + 1 <= right + exponent
    }
}

/// Does the last digit other than 0 say ones?
fn says_ones(number: &Decimal) -> bool
    ensures { result ≡ (places_left (decimal_view number.now) == places_right (decimal_view number.now)) }
{
    let left = after_point(number).len() as u128;
    let right = last_zeros(number);
    let exponent = exponent_of(number);
    if begins_minus(signed_exponent(number)) {
        left + exponent == right
    } else {
        left == right + exponent
    }
}

/// Is the number 1?
pub fn is_one(number: &Decimal) -> bool
    ensures { result ≡ is_one (decimal_view number.now) }
{
    !number.negative && digit_sum(number) == 1 && says_ones(number)
}
