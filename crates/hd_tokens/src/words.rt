//! Words, and the names of properties.

ghost use Rattle.std.specs.Prelude.{◌≡◌, ◌≤◌, length};
ghost use Rattle.std.specs.List.{list_all, prefix_len};
ghost use Rattle.hd_path.specs.Names.{is_word, is_identifier};
ghost use Rattle.hd_tokens.specs.Names.{is_non_finite_word, is_plain_word, is_part, is_joined};

use hd_path::{is_letter, is_word};

fn are_words(bytes: &[u8]) -> bool
    ensures { result ≡ list_all is_word bytes.now }
{
    bytes.iter().all(|b| is_word(*b))
}

/// Is the text an ASCII identifier?
pub fn is_identifier(text: &[u8]) -> bool
    ensures { result ≡ is_identifier text.now }
{
    match text {
        [] => false,
        [b, bytes @ ..] => is_letter(*b) && are_words(bytes),
    }
}

/// Is the text `inf` or `nan`, which are numbers and no words?
pub fn is_non_finite_word(text: &[u8]) -> bool
    ensures { result ≡ is_non_finite_word text.now }
{
    text == b"inf".as_slice() || text == b"nan".as_slice()
}

fn is_plain_word(text: &[u8]) -> bool
    ensures { result ≡ is_plain_word text.now }
{
    is_identifier(text) && !is_non_finite_word(text)
}

/// The number of bytes before the next colon.
pub fn part_len(text: &[u8]) -> usize
    ensures count { result ≡ prefix_len is_part text.now }
    ensures bound { result ≤ length text.now }
{
    text.iter().take_while(|b| **b != b':').count()
}

/// Is the text words that colons join, as the name of a property is?
pub fn is_joined(text: &[u8]) -> bool
    ensures { result ≡ is_joined text.now }
{
    let mut rest = text;
    'parts: loop {
        let (word, after) = rest.split_at(part_len(rest));
        if !is_plain_word(word) {
            return false;
        }
        match after {
            [] => return true,
            [_, next @ ..] => rest = next,
        }
    }
}
