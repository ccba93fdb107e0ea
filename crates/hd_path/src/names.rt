//! The bytes of a name, and the first fault of a text.

ghost use Rattle.std.specs.Prelude.{◌≡◌, ◌+◌, ◌^◌, ◌<◌, ◌≤◌, length, drop};
ghost use Rattle.std.specs.List.{prefix_len};
ghost use Rattle.std.specs.Result.{result_err};
ghost use Rattle.hd_path.specs.Names.{is_letter, is_word, identifier_len};
ghost use Rattle.hd_path.specs.Parsing.{pieces, names_at, path_of_text};

use crate::fault::PathFault;
use crate::{MAX_DEPTH, MAX_NAME_LEN};

/// Is the byte a letter of names: an ASCII letter, or an underscore?
pub fn is_letter(byte: u8) -> bool
    ensures { result ≡ is_letter byte }
{
    matches!(byte, b'A'..=b'Z' | b'a'..=b'z' | b'_')
}

/// May the byte are in a name: a letter of names, or an ASCII digit?
pub fn is_word(byte: u8) -> bool
    ensures { result ≡ is_word byte }
{
    is_letter(byte) || byte.is_ascii_digit()
}

/// How many bytes at the front may are in a name.
pub fn word_len(bytes: &[u8]) -> usize
    ensures len { result ≡ prefix_len is_word bytes.now }
    ensures within { result ≤ length bytes.now }
{
    bytes.iter().take_while(|byte| is_word(**byte)).count()
}

/// How many bytes at the front belong to an identifier: none where the first is no letter of names.
#[tactic(auto, using(crate::proofs::Bytes::identifier_lens))]
pub fn identifier_len(bytes: &[u8]) -> usize
    ensures len { result ≡ identifier_len bytes.now }
    ensures within { result ≤ length bytes.now }
{
    match bytes {
        [first, ..] if is_letter(*first) => word_len(bytes),
        _ => 0,
    }
}

/// How many bytes from a place on belong to an identifier.
pub(crate) fn identifier_len_at(text: &[u8], start: usize) -> usize
    requires { start ≤ length text.now }
    ensures len { result ≡ identifier_len (drop start text.now) }
    ensures within { start + result ≤ length text.now }
{
    identifier_len(&text[start..])
}

/// The first fault of the names that are between slashes in `rest`, which begins at `place` of the whole text,
/// after so many names.
#[tactic(auto, using(crate::proofs::Scanning::scan_steps))]
fn check_names(rest: &[u8], place: usize, before: usize) -> Result<(), PathFault>
    requires room { place + length rest.now < 2 ^ 64 }
    requires shallow { before ≤ 32 }
    ensures { result_err result ≡ result_err (names_at place before (pieces rest.now)) }
{
    let len = identifier_len(rest);
    if len == 0 {
        return Err(PathFault::Syntax { at: place });
    }
    if before == MAX_DEPTH {
        return Err(PathFault::TooDeep);
    }
    if len > MAX_NAME_LEN {
        return Err(PathFault::NameTooLong);
    }
    if len == rest.len() {
        return Ok(());
    }
    if rest[len] != b'/' {
        return Err(PathFault::Syntax { at: place + len });
    }
    check_names(&rest[len + 1..], place + len + 1, before + 1)
}

/// The first fault of a text that spells no path.
pub(crate) fn check_path(text: &[u8]) -> Result<(), PathFault>
    ensures { result_err result ≡ result_err (path_of_text text.now) }
{
    match text {
        [b'/'] => Ok(()),
        [b'/', names @ ..] => check_names(names, 1, 0),
        _ => Err(PathFault::Syntax { at: 0 }),
    }
}
