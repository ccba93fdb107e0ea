//! The words of a line.

ghost use Rattle.std.specs.Prelude.{◌≡◌, ◌∷◌, [], ◌≤◌, length, IfSome};
ghost use Rattle.std.specs.List.{prefix_len};
ghost use Rattle.std.specs.Option.{IfNone};
ghost use Rattle.hd_script.specs.Lines.{is_gap, is_solid, without_gaps, word_at, words};
ghost use Rattle.hd_script.specs.inner.Views.{word_view};

use std::marker::Model;

/// A word, and all that is after it in the line.
#[derive(Clone, Copy)]
pub struct Word<'a> {
    pub text: &'a str,
    pub after: &'a str,
}

/// A line that is read once, from left to right: the words that are left of it.
#[derive(Drop)]
pub struct Words<'a> {
    rest: &'a str,
}

impl<'a> Model for Words<'a> {
    ghost use Rattle.std.specs.Prelude.{List};
    ghost use Rattle.hd_script.specs.Lines.{Word, words};

    ghost Value = { List Word };

    ghost view = { λ w. words w.rest.now };
}

/// How many spaces and tabs are at the front.
fn gap_len(text: &[u8]) -> usize
    ensures count { result ≡ prefix_len is_gap text.now }
    ensures bound { result ≤ length text.now }
{
    text.iter()
        .take_while(|b| **b == b' ' || **b == b'\t')
        .count()
}

/// How many bytes are before the first space or tab.
fn solid_len(text: &[u8]) -> usize
    ensures count { result ≡ prefix_len is_solid text.now }
    ensures bound { result ≤ length text.now }
{
    text.iter()
        .take_while(|b| **b != b' ' && **b != b'\t')
        .count()
}

/// The bytes from the first that is neither space nor tab on.
pub fn without_gaps(bytes: &[u8]) -> &[u8]
    ensures { result.now ≡ without_gaps bytes.now }
{
    &bytes[gap_len(bytes)..]
}

/// The text from its first word on.
fn from_word(text: &str) -> &str
    ensures { result.now ≡ without_gaps text.now }
{
    &text[gap_len(text.as_bytes())..]
}

/// The word at the front of a text.
fn word_at(text: &str) -> Word<'_>
    ensures { word_view result ≡ word_at text.now }
{
    let len = solid_len(text.as_bytes());
    Word {
        text: &text[..len],
        after: &text[len..],
    }
}

impl<'a> Words<'a> {
    /// The words of a text.
    pub fn new(text: &'a str) -> Self
        ensures { result ≡ words text.now }
    {
        Words { rest: text }
    }

    /// Passes the next word, if one is left.
    pub fn next(&mut self) -> Option<Word<'a>>
        ensures some { IfSome result (λ word. self.old ≡ word_view word ∷ self.new) }
        ensures none { IfNone result (self.old ≡ []) }
        ensures stays { IfNone result (self.new ≡ self.old) }
    {
        let rest = from_word(self.rest);
        if rest.is_empty() {
            return None;
        }
        let word = word_at(rest);
        self.rest = word.after;
        Some(word)
    }
}
