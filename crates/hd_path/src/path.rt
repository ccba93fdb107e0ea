//! Paths of prims.

ghost use Rattle.std.specs.Prelude.{◌≡◌, ◌≢◌, ◌↔◌, ◌+◌, ◌-◌, ◌<◌, ◌≤◌, ℕ, List, [], ◌∷◌, ◌++◌, length, take, drop, slice_index, slice_index_or, string_bytes, IfOk, IsTrue, count_by};
ghost use Rattle.hd_path.specs.Changes.{child_of, replace_prefix};
ghost use Rattle.hd_path.specs.Faults.{Gives};
ghost use Rattle.hd_path.specs.Names.{IsName};
ghost use Rattle.hd_path.specs.Parsing.{is_slash, path_of_text};
ghost use Rattle.hd_path.specs.Paths;
ghost use Rattle.hd_path.specs.Paths.{names_text, path_text, is_prefix, IsPath};
ghost use Rattle.hd_path.specs.Texts.{names_in, IsSlashed};
ghost use Rattle.hd_path.specs.inner.TextPrefixes.{GoesOnAtSlash};

use crate::fault::PathFault;
use crate::names::{check_path, identifier_len, identifier_len_at};
use crate::{MAX_DEPTH, MAX_NAME_LEN};
use std::alloc::{AllocError, Global};
use std::marker::Model;
use std::sync::ArcStr;

/// A path from the root: at most 32 names of at most 64 bytes. A copy shares the text of its source.
#[derive(Drop)]
pub struct Path {
    /// Each name after a slash, and `None` for the root.
    shared: Option<ArcStr>,
}

impl Model for Path {
    ghost use Rattle.hd_path.specs.Paths;
    ghost use Rattle.hd_path.specs.Texts.{held_text, names_in, IsSlashed};

    ghost Value = { Paths.Path };

    ghost view = { λ path. names_in (held_text path.shared) };

    ghost invariant = { λ path. IsSlashed (held_text path.shared) };
}

impl Path {
    /// The path without names, which takes no memory.
    pub fn root() -> Path
        ensures { result ≡ [] }
    {
        Path { shared: None }
    }

    /// The path that a text spells: `/`, or names that each are after a slash.
    ///
    /// The first fault from the left decides: `Syntax` at the first byte at which no path goes on, `TooDeep` at a
    /// 33rd name, `NameTooLong` at the 65th byte of a name.
    pub fn parse(alloc: Global, text: &str) -> Result<Path, PathFault>
        ensures exact { Gives (path_of_text text.now) result }
        ensures found { IfOk result (λ names. IsPath names × (path_text names ≡ text.now)) }
        ensures only { (names : Paths.Path) → IsPath names → path_text names ≡ text.now → Gives (Ok names) result }
    {
        check_path(text.as_bytes())?;
        if text.len() == 1 {
            return Ok(Path::root());
        }
        Ok(Path::from_slashed(alloc, text)?)
    }

    /// At most 32 names, each an identifier of at most 64 bytes: a fact for proofs, which costs nothing.
    pub fn is_path(&self)
        ensures { IsPath self.now }
    {
        let _ = &self.shared;
    }

    /// How many names the path has, at most 32.
    #[tactic(auto, using(crate::proofs::Building::depths))]
    pub fn depth(&self) -> usize
        ensures names { result ≡ length self.now }
        ensures bound { result ≤ 32 }
    {
        slash_count(self.names_text().as_bytes())
    }

    /// The name at a place, counted from the root's children on.
    pub fn name(&self, i: usize) -> &str
        requires { i < length self.now }
        ensures { result.now ≡ slice_index_or self.now i [] }
    {
        let text = self.names_text();
        let start = name_start(text.as_bytes(), i);
        let len = identifier_len_at(text.as_bytes(), start);
        &text[start..start + len]
    }

    /// Whether the path begins with the names of the other, which may be the whole path.
    pub fn has_prefix(&self, other: &Path) -> bool
        ensures { result ≡ is_prefix other.now self.now }
    {
        goes_on_at_slash(self.names_text().as_bytes(), other.names_text().as_bytes())
    }

    /// The path without its last name.
    #[tactic(auto, using(crate::proofs::Building::slashed_texts))]
    pub fn parent(&self, alloc: Global) -> Result<Path, AllocError>
        requires { 0 < length self.now }
        ensures { IfOk result (λ parent. parent ≡ take (length self.now - 1) self.now) }
    {
        Path::from_slashed(alloc, self.slashed_parent())
    }

    /// The path with one more name.
    ///
    /// `Syntax` where it is no identifier, at the first byte at which none goes on, then `NameTooLong` of more than
    /// 64 bytes, then `TooDeep` where the path has 32 names.
    pub fn child(&self, alloc: Global, name: &str) -> Result<Path, PathFault>
        ensures { Gives (child_of self.now name.now) result }
    {
        let len = identifier_len(name.as_bytes());
        if len == 0 || len < name.len() {
            return Err(PathFault::Syntax { at: len });
        }
        if len > MAX_NAME_LEN {
            return Err(PathFault::NameTooLong);
        }
        if self.depth() == MAX_DEPTH {
            return Err(PathFault::TooDeep);
        }
        Ok(self.with_name(alloc, name)?)
    }

    /// The path with the names of `to` in place of those of `from`, with which it begins. `TooDeep` where that has
    /// more than 32 names.
    #[tactic(auto, using(crate::proofs::Building::slashed_texts))]
    pub fn replace_prefix(&self, alloc: Global, from: &Path, to: &Path) -> Result<Path, PathFault>
        requires { IsTrue (is_prefix from.now self.now) }
        ensures { Gives (replace_prefix self.now from.now to.now) result }
    {
        if self.depth() - from.depth() + to.depth() > MAX_DEPTH {
            return Err(PathFault::TooDeep);
        }
        Ok(to.followed_by(alloc, self.slashed_after(from))?)
    }

    /// The text of the path: `/` for the root, and else each name after a slash.
    pub fn as_text(&self) -> &str
        ensures { result.now ≡ path_text self.now }
    {
        let text = self.names_text();
        if text.is_empty() { "/" } else { text }
    }

    /// The text of the path, as a text of its own.
    pub fn to_text(&self, alloc: Global) -> Result<String, AllocError>
        ensures { IfOk result (λ text. string_bytes text ≡ path_text self.now) }
    {
        String::from_str(alloc, self.as_text())
    }

    /// A path that shares the text of this one.
    pub fn copy(&self) -> Result<Path, AllocError>
        ensures { IfOk result (λ copied. copied ≡ self.now) }
    {
        match &self.shared {
            Some(text) => Ok(Path {
                shared: Some(text.clone()?),
            }),
            None => Ok(Path::root()),
        }
    }

    /// Each name after a slash.
    fn names_text(&self) -> &str
        ensures text { result.now ≡ names_text self.now }
        ensures path { IsPath self.now }
    {
        match &self.shared {
            Some(text) => text.as_str(),
            None => "",
        }
    }

    /// Each name but the last after a slash.
    fn slashed_parent(&self) -> &str
        requires { 0 < length self.now }
        ensures text { result.now ≡ names_text (take (length self.now - 1) self.now) }
        ensures path { IsPath (take (length self.now - 1) self.now) }
    {
        let text = self.names_text();
        let start = last_name_start(text.as_bytes());
        &text[..start - 1]
    }

    /// Each name after those of the prefix, after a slash.
    fn slashed_after(&self, prefix: &Path) -> &str
        requires { IsTrue (is_prefix prefix.now self.now) }
        ensures text { result.now ≡ names_text (drop (length prefix.now) self.now) }
        ensures path { IsPath (drop (length prefix.now) self.now) }
    {
        let front = prefix.names_text();
        &self.names_text()[front.len()..]
    }

    /// The path whose names are in this text, each after a slash.
    fn from_slashed(alloc: Global, text: &str) -> Result<Path, AllocError>
        requires { IsSlashed text.now }
        ensures { IfOk result (λ path. path ≡ names_in text.now) }
    {
        Path::from_slashed_string(String::from_str(alloc, text)?)
    }

    /// The same of a text that it takes over.
    fn from_slashed_string(text: String) -> Result<Path, AllocError>
        requires { IsSlashed (string_bytes text) }
        ensures { IfOk result (λ path. path ≡ names_in (string_bytes text)) }
    {
        if text.is_empty() {
            return Ok(Path::root());
        }
        Ok(Path {
            shared: Some(ArcStr::from_string(text)?),
        })
    }

    /// The path with one more name, for which there is room.
    fn with_name(&self, alloc: Global, name: &str) -> Result<Path, AllocError>
        requires name { IsName name.now }
        requires room { length self.now < 32 }
        ensures { IfOk result (λ path. path ≡ self.now ++ name.now ∷ []) }
    {
        let parent = self.names_text();
        let mut text = String::with_capacity(alloc, parent.len() + 1 + name.len())?;
        text.push_str(parent)?;
        text.push('/')?;
        text.push_str(name)?;
        Path::from_slashed_string(text)
    }

    /// The path with the names that are in `rest`, each after a slash.
    fn followed_by(&self, alloc: Global, rest: &str) -> Result<Path, AllocError>
        requires names { IsSlashed rest.now }
        requires room { length self.now + length (names_in rest.now) ≤ 32 }
        ensures { IfOk result (λ path. path ≡ self.now ++ names_in rest.now) }
    {
        let front = self.names_text();
        let mut text = String::with_capacity(alloc, front.len() + rest.len())?;
        text.push_str(front)?;
        text.push_str(rest)?;
        Path::from_slashed_string(text)
    }
}

fn slash_count(text: &[u8]) -> usize
    ensures { result ≡ count_by is_slash text.now }
{
    text.iter().filter(|byte| **byte == b'/').count()
}

/// Whether the text begins with the front, and ends there or goes on at a slash.
#[tactic(auto, using(crate::proofs::Prefixes::slash_tests))]
fn goes_on_at_slash(text: &[u8], front: &[u8]) -> bool
    ensures { IsTrue result ↔ GoesOnAtSlash text.now front.now }
{
    text.starts_with(front) && (text.len() == front.len() || text[front.len()] == b'/')
}

/// Where the name with this number begins.
fn name_start(text: &[u8], number: usize) -> usize
    requires names { IsSlashed text.now }
    requires in_range { number < length (names_in text.now) }
    ensures { result ≡ length (names_text (take number (names_in text.now))) + 1 }
{
    let mut start = 1;
    for _name in 0..number {
        start += identifier_len_at(text, start) + 1;
    }
    start
}

/// Where what is after the last slash begins, and 0 where there is none.
fn last_name_start(text: &[u8]) -> usize
    ensures within { result ≤ length text.now }
    ensures slash { 0 < result → slice_index text.now (result - 1) ≡ 47 }
    ensures after { (k : ℕ) → result ≤ k → k < length text.now → slice_index text.now k ≢ 47 }
{
    let mut start = text.len();
    while start > 0 && text[start - 1] != b'/' {
        start -= 1;
    }
    start
}
