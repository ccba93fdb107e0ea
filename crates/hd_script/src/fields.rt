//! What a word says.

ghost use Rattle.std.specs.Prelude.{◌≡◌, IfOk, IsTrue};
ghost use Rattle.std.specs.List.{list_all};
ghost use Rattle.hd_path.specs.Names.{is_digit};
ghost use Rattle.hd_layer.specs.Edits.{may_be_set};
ghost use Rattle.hd_layer.specs.WellFormed.{is_below_root};
ghost use Rattle.hd_lexer.specs.Lexing.{begins};
ghost use Rattle.hd_tokens.specs.Names.{is_joined};
ghost use Rattle.hd_script.specs.Faults.{Gives};
ghost use Rattle.hd_script.specs.Fields.{is_number, number, within_frame, size, is_name_byte, is_point, is_file_name, file_name, identifier, prim_type, below_root, prim_path, property_name, property_fault, property};
ghost use Rattle.hd_script.specs.WellFormed.{is_size};

use crate::fault::LineFault;
use hd_layer::{LayerFault, LayerWhy, Property, Which};
use hd_path::{Path, PathFault, Token, identifier_len, is_word};
use hd_tokens::is_joined;
use hd_usda::read_property;
use std::alloc::Global;

/// The most digits of a number.
const MAX_DIGITS: usize = 9;

/// The most bytes of the name of a file.
const MAX_FILE_NAME_LEN: usize = 64;

fn are_digits(text: &[u8]) -> bool
    ensures { result ≡ list_all is_digit text.now }
{
    text.iter().all(|b| b.is_ascii_digit())
}

fn is_number(text: &str) -> bool
    ensures { result ≡ is_number text.now }
{
    text.len() >= 1 && text.len() <= MAX_DIGITS && are_digits(text.as_bytes())
}

/// The number of one to nine digits.
#[tactic(auto, unfolding(crate::specs::Fields::number))]
pub fn number(text: &str) -> Result<u32, LineFault>
    ensures { Gives (λ n. n) result (number text.now) }
{
    if !is_number(text) {
        return Err(LineFault::Syntax);
    }
    match text.parse::<u32>() {
        Ok(n) => Ok(n),
        Err(_) => Err(LineFault::Syntax),
    }
}

fn within_frame(n: u32) -> Result<u32, LineFault>
    ensures given { Gives (λ m. m) result (within_frame n) }
    ensures within { IfOk result (λ m. IsTrue (is_size m)) }
{
    if n == 0 {
        Err(LineFault::Syntax)
    } else if u64::from(n) > Which::Frame.number() {
        Err(LineFault::Limit(Which::Frame))
    } else {
        Ok(n)
    }
}

/// The width or the height of a frame.
#[tactic(auto, unfolding(crate::specs::Fields::size))]
pub fn size(text: &str) -> Result<u32, LineFault>
    ensures given { Gives (λ n. n) result (size text.now) }
    ensures within { IfOk result (λ n. IsTrue (is_size n)) }
{
    within_frame(number(text)?)
}

fn is_name_byte(b: u8) -> bool
    ensures { result ≡ is_name_byte b }
{
    is_word(b) || b == b'-' || b == b'.'
}

fn are_name_bytes(text: &[u8]) -> bool
    ensures { result ≡ list_all is_name_byte text.now }
{
    text.iter().all(|b| is_name_byte(*b))
}

fn begins_point(text: &[u8]) -> bool
    ensures { result ≡ begins is_point text.now }
{
    match text {
        [] => false,
        [b, ..] => *b == b'.',
    }
}

fn is_file_name(text: &[u8]) -> bool
    ensures { result ≡ is_file_name text.now }
{
    text.len() >= 1
        && text.len() <= MAX_FILE_NAME_LEN
        && are_name_bytes(text)
        && !begins_point(text)
}

/// The name of a file.
#[tactic(auto, unfolding(crate::specs::Fields::file_name))]
pub fn file_name(alloc: Global, text: &str) -> Result<Token, LineFault>
    ensures { Gives (λ name. name) result (file_name text.now) }
{
    if is_file_name(text.as_bytes()) {
        Ok(Token::new(alloc, text)?)
    } else {
        Err(LineFault::Syntax)
    }
}

/// An identifier within the limit, whose first fault is that of a name in a path.
fn identifier(alloc: Global, text: &str) -> Result<Token, LineFault>
    ensures { Gives (λ name. name) result (identifier text.now) }
{
    let len = identifier_len(text.as_bytes());
    if len == 0 {
        Err(LineFault::Syntax)
    } else if len as u64 > Which::Name.number() {
        Err(LineFault::Limit(Which::Name))
    } else if len < text.len() {
        Err(LineFault::Syntax)
    } else {
        Ok(Token::new(alloc, text)?)
    }
}

/// The type of a prim, where `-` is for none.
#[tactic(auto, unfolding(crate::specs::Fields::prim_type))]
pub fn prim_type(alloc: Global, text: &str) -> Result<Token, LineFault>
    ensures { Gives (λ kind. kind) result (prim_type text.now) }
{
    if text == "-" {
        Ok(Token::new(alloc, "")?)
    } else {
        identifier(alloc, text)
    }
}

/// The path of a prim.
#[tactic(auto, unfolding(crate::specs::Fields::prim_path))]
pub fn prim_path(alloc: Global, text: &str) -> Result<Path, LineFault>
    ensures given { Gives (λ path. path) result (prim_path text.now) }
    ensures below_root { IfOk result (λ path. IsTrue (is_below_root path)) }
{
    match Path::parse(alloc, text) {
        Ok(path) => {
            if path.depth() == 0 {
                Err(LineFault::Syntax)
            } else {
                Ok(path)
            }
        }
        Err(PathFault::Syntax { .. }) => Err(LineFault::Syntax),
        Err(PathFault::TooDeep) => Err(LineFault::Limit(Which::Depth)),
        Err(PathFault::NameTooLong) => Err(LineFault::Limit(Which::Name)),
        Err(PathFault::NoMemory) => Err(LineFault::NoMemory),
    }
}

/// The name of a property.
#[tactic(auto, unfolding(crate::specs::Fields::property_name))]
pub fn property_name(alloc: Global, text: &str) -> Result<Token, LineFault>
    ensures { Gives (λ name. name) result (property_name text.now) }
{
    if is_joined(text.as_bytes()) {
        Ok(Token::new(alloc, text)?)
    } else {
        Err(LineFault::Syntax)
    }
}

/// What is wrong with a property. The text of a property has no header, is UTF-8 and names it once.
fn property_fault(why: LayerWhy) -> LineFault
    ensures { result ≡ property_fault why }
{
    match why {
        LayerWhy::Syntax | LayerWhy::Header | LayerWhy::NotUtf8 | LayerWhy::Twice => {
            LineFault::Syntax
        }
        LayerWhy::LeftOut => LineFault::LeftOut,
        LayerWhy::Fraction => LineFault::Fraction,
        LayerWhy::Limit(which) => LineFault::Limit(which),
    }
}

/// The property with its value, `None` for one that is not used.
#[tactic(auto, unfolding(crate::specs::Fields::property))]
pub fn property(alloc: Global, text: &str) -> Result<Option<Property>, LineFault>
    ensures given { Gives (λ found. found) result (property text.now) }
    ensures well_formed { IfOk result (λ found. IsTrue (may_be_set found)) }
{
    match read_property(alloc, text) {
        Ok(found) => Ok(found),
        Err(LayerFault::NoMemory) => Err(LineFault::NoMemory),
        Err(LayerFault::At { why, .. }) => Err(property_fault(why)),
    }
}
