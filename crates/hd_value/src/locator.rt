//! Places in a container.

ghost use Rattle.std.specs.Prelude.{◌≡◌, ◌<◌, ◌++◌, length, slice_index_or, [], IfOk, OnOk};
ghost use Rattle.hd_tokens.specs.Tables.{texts};
ghost use Rattle.hd_value.specs.Locators.{intersects};
ghost use Rattle.hd_path.specs.Paths.{is_prefix};

use crate::element::Element;
use smallvec::SmallVec;
use std::alloc::{AllocError, Global};
use std::marker::Model;

/// How many tokens a locator keeps without an allocation.
const INLINE_TOKENS: usize = 3;

/// A place in a container: tokens, from the outermost in. The empty locator names the whole.
#[derive(Drop)]
pub struct Locator {
    tokens: SmallVec<Element, INLINE_TOKENS>,
}

impl Model for Locator {
    ghost use Rattle.hd_tokens.specs.Locators;

    ghost Value = { Locators.Locator };

    ghost view = { λ locator. locator.tokens.items };
}

impl Locator {
    /// The locator of these tokens, from the outermost in.
    pub fn of(alloc: Global, tokens: &[&str]) -> Result<Locator, AllocError>
        ensures { IfOk result (λ locator. locator ≡ texts tokens.now) }
    {
        let mut kept = SmallVec::with_capacity(alloc, tokens.len())?;
        push_texts(&mut kept, alloc, tokens)?;
        Ok(Locator { tokens: kept })
    }

    /// The locator of these tokens of the program's own, which are not copied: one of at most three takes no memory.
    pub fn fixed(alloc: Global, tokens: &'static [&'static str]) -> Result<Locator, AllocError>
        ensures { IfOk result (λ locator. locator ≡ texts tokens.now) }
    {
        let mut kept = SmallVec::with_capacity(alloc, tokens.len())?;
        for token in tokens {
            kept.push(Element::fixed(token))?;
        }
        Ok(Locator { tokens: kept })
    }

    /// How many tokens the locator has.
    pub fn len(&self) -> usize
        ensures { result ≡ length self.now }
    {
        self.elements().len()
    }

    /// The token with this number, counted from 0 at the outermost.
    pub fn token(&self, i: usize) -> &str
        requires { i < length self.now }
        ensures { result.now ≡ slice_index_or self.now i [] }
    {
        self.elements()[i].text()
    }

    /// Whether one of the two locators begins with the other.
    pub fn intersects(&self, other: &Locator) -> bool
        ensures { result ≡ intersects self.now other.now }
    {
        self.is_prefix_of(other) || other.is_prefix_of(self)
    }

    /// Whether the locator begins with these tokens, or they with it.
    pub fn intersects_at(&self, tokens: &[&str]) -> bool
        ensures { result ≡ intersects self.now (texts tokens.now) }
    {
        intersects_at(self.elements(), tokens)
    }

    /// Whether the other locator begins with this one.
    #[tactic(auto, using(hd_path::proofs::NamePrefixes::starts_with_is_prefix))]
    pub fn is_prefix_of(&self, other: &Locator) -> bool
        ensures { result ≡ is_prefix self.now other.now }
    {
        other.elements().starts_with(self.elements())
    }

    /// A locator that shares the tokens of this one.
    pub fn copy(&self, alloc: Global) -> Result<Locator, AllocError>
        ensures { IfOk result (λ copied. copied ≡ self.now) }
    {
        let elements = self.elements();
        let mut kept = SmallVec::with_capacity(alloc, elements.len())?;
        push_copies(&mut kept, elements)?;
        Ok(Locator { tokens: kept })
    }

    /// The tokens, from the outermost in.
    pub(crate) fn elements(&self) -> &[Element]
        ensures { result.now ≡ self.now }
    {
        self.tokens.as_slice()
    }
}

/// Adds tokens of these texts at the end.
fn push_texts(
    kept: &mut SmallVec<Element, INLINE_TOKENS>,
    alloc: Global,
    tokens: &[&str],
) -> Result<(), AllocError>
    ensures { OnOk result (kept.new.items ≡ kept.old.items ++ texts tokens.now) }
{
    for token in tokens {
        kept.push(Element::new(alloc, token)?)?;
    }
    Ok(())
}

/// Adds copies of the tokens at the end.
fn push_copies(
    kept: &mut SmallVec<Element, INLINE_TOKENS>,
    elements: &[Element],
) -> Result<(), AllocError>
    ensures { OnOk result (kept.new.items ≡ kept.old.items ++ elements.now) }
{
    for element in elements {
        kept.push(element.copy()?)?;
    }
    Ok(())
}

/// Whether one of the two lists of tokens begins with the other.
fn intersects_at(elements: &[Element], tokens: &[&str]) -> bool
    ensures { result ≡ intersects elements.now (texts tokens.now) }
{
    let Some((element, elements)) = elements.split_first() else {
        return true;
    };
    let Some((token, tokens)) = tokens.split_first() else {
        return true;
    };
    element.text() == *token && intersects_at(elements, tokens)
}
