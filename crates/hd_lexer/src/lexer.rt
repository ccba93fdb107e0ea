//! Tokens: what begins at a byte of the text.

ghost use Rattle.std.specs.Prelude.{◌≡◌, ◌≤◌, ◌+◌, ◌<◌, length, take, drop, codes, nat_eq, IfSome, IsTrue};
ghost use Rattle.std.specs.List.{prefix_len, starts_with};
ghost use Rattle.hd_path.specs.Names.{is_digit};
ghost use Rattle.hd_lexer.specs.Lexing.{is_sign, is_exponent, is_space, is_blank, is_comment, mark_of, token_of, no_token, word_kind, word_token, fraction_len, sign_len, exponent_len, mantissa_len, number_len, number_token, signed_token, inside_len, on_line, between_three, short_token, quoted_token, line_after, line_over, blank_more, tokens_from};
ghost use Rattle.hd_lexer.specs.inner.Scanned.{token_view, quoting_view, front, BeginsToken};

use hd_path::{is_letter, word_len};
use hd_tokens::is_non_finite_word;

/// What a token is.
#[derive(Clone, Copy, Debug, PartialEq, Eq)]
pub enum Kind {
    Word,
    Number,
    /// A string, without what encloses it.
    Text,
    Asset,
    PathText,
    OpenRound,
    CloseRound,
    OpenSquare,
    CloseSquare,
    OpenCurly,
    CloseCurly,
    Equals,
    Comma,
    Colon,
    Semicolon,
    Point,
    /// No token can be formed.
    Bad,
    /// The end of the text.
    End,
}

/// A token without its line, and how many bytes of it follow its first one.
#[derive(Clone, Copy, Debug)]
pub struct RawToken<'a> {
    pub kind: Kind,
    pub text: &'a [u8],
    pub more: usize,
}

/// How text is enclosed.
#[derive(Clone, Copy)]
struct Quoting<'a> {
    /// What closes it.
    close: &'a [u8],
    /// May a line feed be in it?
    lines: bool,
    /// Does a backslash take the byte after it along?
    escapes: bool,
}

fn is_sign(b: u8) -> bool
    ensures { result ≡ is_sign b }
{
    b == b'+' || b == b'-'
}

fn is_exponent(b: u8) -> bool
    ensures { result ≡ is_exponent b }
{
    b == b'e' || b == b'E'
}

/// Is the byte white space?
pub fn is_space(b: u8) -> bool
    ensures { result ≡ is_space b }
{
    b == b' ' || b == b'\t' || b == b'\r' || b == b'\n'
}

/// White space, or the beginning of a comment.
fn is_blank(b: u8) -> bool
    ensures { result ≡ is_blank b }
{
    is_space(b) || b == b'#'
}

/// The kind of a token of one byte.
fn mark_of(b: u8) -> Kind
    ensures { result ≡ mark_of b }
{
    match b {
        b'(' => Kind::OpenRound,
        b')' => Kind::CloseRound,
        b'[' => Kind::OpenSquare,
        b']' => Kind::CloseSquare,
        b'{' => Kind::OpenCurly,
        b'}' => Kind::CloseCurly,
        b'=' => Kind::Equals,
        b',' => Kind::Comma,
        b':' => Kind::Colon,
        b';' => Kind::Semicolon,
        b'.' => Kind::Point,
        _ => Kind::Bad,
    }
}

pub fn digits_len(bytes: &[u8]) -> usize
    ensures count { result ≡ prefix_len is_digit bytes.now }
    ensures bound { result ≤ length bytes.now }
{
    bytes.iter().take_while(|b| b.is_ascii_digit()).count()
}

/// How many bytes are before the end of the line.
fn line_len(bytes: &[u8]) -> usize
    ensures count { result ≡ prefix_len is_comment bytes.now }
    ensures bound { result ≤ length bytes.now }
{
    bytes.iter().take_while(|b| **b != b'\n').count()
}

/// How many bytes of a sign are at the front.
pub fn sign_len(bytes: &[u8]) -> usize
    ensures count { result ≡ sign_len bytes.now }
    ensures bound { result ≤ length bytes.now }
{
    match bytes {
        [b, ..] if is_sign(*b) => 1,
        _ => 0,
    }
}

/// How many bytes of a point and digits are at the front, where the digits may be missing or not.
pub fn fraction_len(may_miss: bool, bytes: &[u8]) -> usize
    ensures count { result ≡ fraction_len may_miss bytes.now }
    ensures bound { result ≤ length bytes.now }
{
    match bytes {
        [] => 0,
        [b, after @ ..] => {
            let digits = digits_len(after);
            if *b == b'.' && (may_miss || digits != 0) {
                digits + 1
            } else {
                0
            }
        }
    }
}

/// How many bytes of an exponent are at the front.
fn exponent_len(bytes: &[u8]) -> usize
    ensures count { result ≡ exponent_len bytes.now }
    ensures bound { result ≤ length bytes.now }
{
    match bytes {
        [] => 0,
        [b, after @ ..] => {
            let sign = sign_len(after);
            let digits = digits_len(&after[sign..]);
            if is_exponent(*b) && digits != 0 {
                sign + digits + 1
            } else {
                0
            }
        }
    }
}

/// How many bytes of digits with a point are at the front, and 0 where no digit is among them.
fn mantissa_len(bytes: &[u8]) -> usize
    ensures count { result ≡ mantissa_len bytes.now }
    ensures bound { result ≤ length bytes.now }
{
    let digits = digits_len(bytes);
    digits + fraction_len(digits != 0, &bytes[digits..])
}

/// How many bytes of a number without sign are at the front.
fn number_len(bytes: &[u8]) -> usize
    ensures count { result ≡ number_len bytes.now }
    ensures bound { result ≤ length bytes.now }
{
    let mantissa = mantissa_len(bytes);
    if mantissa == 0 {
        0
    } else {
        mantissa + exponent_len(&bytes[mantissa..])
    }
}

/// How many bytes are before the first close, if there is one.
fn inside_len(how: &Quoting, bytes: &[u8]) -> Option<usize>
    requires { 0 < length how.now.close.now }
    ensures place { result ≡ inside_len (quoting_view how.now) bytes.now }
    ensures bound { IfSome result (λ n. n + length how.now.close.now ≤ length bytes.now) }
{
    let mut escaped = false;
    for (i, b) in bytes.iter().enumerate() {
        if *b == b'\n' && !how.lines {
            return None;
        }
        if escaped {
            escaped = false;
        } else if bytes[i..].starts_with(how.close) {
            return Some(i);
        } else {
            escaped = how.escapes && *b == b'\\';
        }
    }
    None
}

/// The token of the first byte and so many after it.
fn token_of(kind: Kind, all: &[u8], more: usize) -> RawToken<'_>
    requires { more < length all.now }
    ensures is { token_view result ≡ token_of kind all.now more }
    ensures within { result.more ≡ more }
{
    RawToken {
        kind,
        text: &all[..more + 1],
        more,
    }
}

fn no_token<'a>() -> RawToken<'a>
    ensures is { token_view result ≡ no_token }
    ensures within { result.more ≡ 0 }
{
    RawToken {
        kind: Kind::Bad,
        text: &[],
        more: 0,
    }
}

fn word_kind(text: &[u8]) -> Kind
    ensures { result ≡ word_kind text.now }
{
    if is_non_finite_word(text) {
        Kind::Number
    } else {
        Kind::Word
    }
}

/// The word at these bytes, of which so many follow the first.
fn word_token(all: &[u8], more: usize) -> RawToken<'_>
    requires { more < length all.now }
    ensures is { token_view result ≡ word_token all.now more }
    ensures within { result.more ≡ more }
{
    token_of(word_kind(&all[..more + 1]), all, more)
}

/// The number of so many bytes at the front.
fn number_token(all: &[u8], len: usize) -> RawToken<'_>
    requires some { 0 < len }
    requires within { len ≤ length all.now }
    ensures is { token_view result ≡ number_token all.now len }
    ensures within { result.more < length all.now }
{
    RawToken {
        kind: Kind::Number,
        text: &all[..len],
        more: len - 1,
    }
}

/// Do the bytes begin with `-inf`?
fn begins_minus_inf(bytes: &[u8]) -> bool
    ensures is { result ≡ starts_with nat_eq bytes.now (codes "-inf") }
    ensures bound { IsTrue result → 4 ≤ length bytes.now }
{
    bytes.starts_with(b"-inf".as_slice())
}

/// What begins with a sign.
fn signed_token(all: &[u8]) -> RawToken<'_>
    requires { 0 < length all.now }
    ensures is { token_view result ≡ signed_token all.now }
    ensures within { result.more < length all.now }
{
    let len = number_len(&all[1..]);
    if len != 0 {
        token_of(Kind::Number, all, len)
    } else if begins_minus_inf(all) {
        token_of(Kind::Number, all, 3)
    } else {
        no_token()
    }
}

/// What is after its mark on one line, with its closing mark.
fn short_token<'a>(kind: Kind, mark: u8, escapes: bool, bytes: &'a [u8]) -> RawToken<'a>
    ensures is { token_view result ≡ short_token kind bytes.now (inside_len (on_line mark escapes) bytes.now) }
    ensures within { result.more ≤ length bytes.now }
{
    let close = [mark];
    let how = Quoting {
        close: &close,
        lines: false,
        escapes,
    };
    match inside_len(&how, bytes) {
        Some(n) => RawToken {
            kind,
            text: &bytes[..n],
            more: n + 1,
        },
        None => no_token(),
    }
}

/// How many bytes are before three closing marks.
fn long_len(mark: u8, escapes: bool, bytes: &[u8]) -> Option<usize>
    ensures place { result ≡ inside_len (between_three mark escapes) bytes.now }
    ensures bound { IfSome result (λ n. n + 3 ≤ length bytes.now) }
{
    let close = [mark, mark, mark];
    let how = Quoting {
        close: &close,
        lines: true,
        escapes,
    };
    inside_len(&how, bytes)
}

/// What begins with this mark, before these bytes.
fn quoted_token<'a>(kind: Kind, mark: u8, escapes: bool, bytes: &'a [u8]) -> RawToken<'a>
    ensures is { token_view result ≡ quoted_token kind mark escapes bytes.now }
    ensures within { result.more ≤ length bytes.now }
{
    let opening = [mark, mark];
    if !bytes.starts_with(opening.as_slice()) {
        return short_token(kind, mark, escapes, bytes);
    }
    match long_len(mark, escapes, &bytes[2..]) {
        Some(n) => RawToken {
            kind,
            text: &bytes[2..n + 2],
            more: n + 5,
        },
        None => short_token(kind, mark, escapes, bytes),
    }
}

/// The token at the front.
#[tactic(auto, unfolding(crate::specs::Lexing::raw_token_at))]
pub fn raw_token_at(all: &[u8]) -> RawToken<'_>
    ensures is { token_view result ≡ front all.now }
    ensures within { 0 < length all.now → result.more < length all.now }
{
    match all {
        [] => RawToken {
            kind: Kind::End,
            text: all,
            more: 0,
        },
        [b, bytes @ ..] => {
            if is_letter(*b) {
                return word_token(all, word_len(bytes));
            }
            let len = number_len(all);
            if len != 0 {
                number_token(all, len)
            } else if is_sign(*b) {
                signed_token(all)
            } else if *b == b'"' || *b == b'\'' {
                quoted_token(Kind::Text, *b, true, bytes)
            } else if *b == b'@' {
                quoted_token(Kind::Asset, *b, false, bytes)
            } else if *b == b'<' {
                short_token(Kind::PathText, b'>', false, bytes)
            } else {
                token_of(mark_of(*b), all, 0)
            }
        }
    }
}

/// Of a blank, how many bytes follow the first: a comment goes to the end of the line.
fn blank_more(b: u8, bytes: &[u8]) -> usize
    ensures count { result ≡ blank_more b bytes.now }
    ensures bound { result ≤ length bytes.now }
{
    if b == b'#' { line_len(bytes) } else { 0 }
}

/// The line after a byte.
fn line_after(line: u32, b: u8) -> u32
    ensures { result ≡ line_after line b }
{
    if b == b'\n' && line < u32::MAX {
        line + 1
    } else {
        line
    }
}

/// The line after some bytes.
pub fn line_over(line: u32, bytes: &[u8]) -> u32
    ensures { result ≡ line_over line bytes.now }
{
    let mut at = line;
    for b in bytes {
        at = line_after(at, *b);
    }
    at
}

/// The bytes after the first and so many more, and their line.
pub fn passed(bytes: &[u8], line: u32, more: usize) -> (&[u8], u32)
    requires { more < length bytes.now }
    ensures rest { result.0.now ≡ drop (more + 1) bytes.now }
    ensures line { result.1 ≡ line_over line (take (more + 1) bytes.now) }
{
    let (front, rest) = bytes.split_at(more + 1);
    (rest, line_over(line, front))
}

/// The bytes from the next token on, and its line.
pub fn without_blanks(bytes: &[u8], line: u32) -> (&[u8], u32)
    ensures same { tokens_from result.1 result.0.now ≡ tokens_from line bytes.now }
    ensures begins { BeginsToken result.0.now }
{
    let mut rest = bytes;
    let mut at = line;
    loop {
        match rest {
            [] => return (rest, at),
            [b, after @ ..] => {
                if !is_blank(*b) {
                    return (rest, at);
                }
                let more = blank_more(*b, after);
                (rest, at) = passed(rest, at, more);
            }
        }
    }
}
