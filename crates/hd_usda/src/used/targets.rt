//! The paths of used relationships.

ghost use Rattle.std.specs.Prelude.{◌≡◌, ◌≤◌, ◌<◌, true, false, nat_lt, length, count_by, IfOk, IfErr, OnOk};
ghost use Rattle.std.specs.List.{prefix_len};
ghost use Rattle.hd_path.specs.Parsing.{is_slash};
ghost use Rattle.hd_layer.specs.declared.fault.LayerFault.TheVariants.{NoMemory};
ghost use Rattle.hd_layer.specs.declared.limits.Which.TheVariants.{Depth};
ghost use Rattle.hd_usda.specs.reading.Cursor.{count, Gives};
ghost use Rattle.hd_layer.specs.Limits.{limit_of};
ghost use Rattle.hd_usda.specs.used.Targets.{no_slash, are_identifiers, is_prim_path, has_long, names_of, path_in, beyond_list, target, one_target, in_list, targets};

use crate::reading::cursor::Cursor;
use crate::reading::text::{as_text, no_memory};
use crate::reading::words::is_long;
use crate::used::elements::{Element, list_of};
use hd_layer::{LayerFault, LayerWhy, Which};
use hd_lexer::Kind;
use hd_num::List;
use hd_path::Path;
use hd_tokens::is_identifier;
use std::alloc::Global;

/// How many bytes are before the next slash.
fn name_len(text: &[u8]) -> usize
    ensures count { result ≡ prefix_len no_slash text.now }
    ensures bound { result ≤ length text.now }
{
    text.iter().take_while(|b| **b != b'/').count()
}

/// Is each name between slashes an identifier?
fn are_identifiers(text: &[u8]) -> bool
    ensures { result ≡ are_identifiers text.now }
{
    let mut rest = text;
    'parts: loop {
        let (name, after) = rest.split_at(name_len(rest));
        if !is_identifier(name) {
            return false;
        }
        match after {
            [] => return true,
            [_, next @ ..] => rest = next,
        }
    }
}

fn is_prim_path(text: &[u8]) -> bool
    ensures { result ≡ is_prim_path text.now }
{
    match text {
        [] => false,
        [b, names @ ..] => *b == b'/' && are_identifiers(names),
    }
}

fn slash_count(text: &[u8]) -> usize
    ensures { result ≡ count_by is_slash text.now }
{
    text.iter().filter(|b| **b == b'/').count()
}

/// Is a name longer than it may be?
fn has_long(text: &[u8]) -> bool
    ensures { result ≡ has_long text.now }
{
    let mut rest = text;
    'parts: loop {
        let (name, after) = rest.split_at(name_len(rest));
        if is_long(name) {
            return true;
        }
        match after {
            [] => return false,
            [_, next @ ..] => rest = next,
        }
    }
}

/// The path that a text spells, which is one within the limits.
fn spelled(alloc: Global, text: &[u8]) -> Result<Path, LayerFault>
    requires path { is_prim_path text.now ≡ true }
    requires shallow { nat_lt (limit_of Depth) (count_by is_slash text.now) ≡ false }
    requires short { has_long text.now ≡ false }
    ensures path { IfOk result (λ path. path ≡ names_of text.now) }
    ensures memory { IfErr result (λ fault. fault ≡ NoMemory) }
{
    match Path::parse(alloc, as_text(text)) {
        Ok(path) => Ok(path),
        Err(fault) => Err(no_memory(fault)),
    }
}

/// The path that a text in this line spells, which may be none, or one beyond the limits.
fn path_in(alloc: Global, line: u32, text: &[u8]) -> Result<Path, LayerFault>
    ensures { Gives (λ path. path) result (path_in line text.now) }
{
    if !is_prim_path(text) {
        return Err(LayerFault::At {
            line,
            why: LayerWhy::LeftOut,
        });
    }
    if slash_count(text) as u64 > Which::Depth.number() {
        return Err(LayerFault::At {
            line,
            why: LayerWhy::Limit(Which::Depth),
        });
    }
    if has_long(text) {
        return Err(LayerFault::At {
            line,
            why: LayerWhy::Limit(Which::Name),
        });
    }
    spelled(alloc, text)
}

/// What is wrong with a path beyond the limit of elements.
fn beyond_list(text: &[u8]) -> LayerWhy
    ensures { result ≡ beyond_list text.now }
{
    if is_prim_path(text) && slash_count(text) as u64 > Which::Depth.number() {
        LayerWhy::Limit(Which::Depth)
    } else if is_prim_path(text) && has_long(text) {
        LayerWhy::Limit(Which::Name)
    } else {
        LayerWhy::Limit(Which::Elements)
    }
}

/// Reads a path.
#[tactic(auto, unfolding(crate::specs::used::Targets::target))]
fn target(alloc: Global, cursor: &mut Cursor) -> Result<Path, LayerFault>
    ensures gives { Gives (λ path. (path, cursor.new)) result (target cursor.old) }
    ensures fewer { OnOk result (count cursor.new < count cursor.old) }
{
    let text = cursor.text();
    let line = cursor.line();
    cursor.take(Kind::PathText)?;
    path_in(alloc, line, text)
}

impl Element for Path {
    ghost how = { in_list };

    fn is_in_attribute() -> bool {
        false
    }

    fn begins(cursor: &Cursor) -> bool {
        cursor.is(Kind::PathText)
    }

    fn beyond(text: &[u8]) -> LayerWhy {
        beyond_list(text)
    }

    fn read(alloc: Global, cursor: &mut Cursor, _first: bool) -> Result<Path, LayerFault> {
        target(alloc, cursor)
    }
}

/// Reads one path, as a list.
#[tactic(auto, unfolding(crate::specs::used::Targets::one_target))]
fn one_target(alloc: Global, cursor: &mut Cursor) -> Result<List<Path>, LayerFault>
    ensures gives { Gives (λ paths. (paths, cursor.new)) result (one_target cursor.old) }
    ensures fewer { OnOk result (count cursor.new < count cursor.old) }
{
    let mut paths = Vec::new(alloc);
    paths.push(target(alloc, cursor)?)?;
    Ok(List::of(alloc, paths)?)
}

/// Reads the targets of a relationship.
#[tactic(auto, unfolding(crate::specs::used::Targets::targets))]
pub fn targets(alloc: Global, cursor: &mut Cursor) -> Result<List<Path>, LayerFault>
    ensures gives { Gives (λ paths. (paths, cursor.new)) result (targets cursor.old) }
    ensures fewer { OnOk result (count cursor.new < count cursor.old) }
{
    if cursor.passes_word(b"None") {
        Ok(List::empty())
    } else if cursor.is(Kind::PathText) {
        one_target(alloc, cursor)
    } else {
        list_of(alloc, cursor)
    }
}
