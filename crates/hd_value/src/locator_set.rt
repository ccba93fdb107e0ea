//! Sets of locators.

ghost use Rattle.std.specs.Prelude.{◌≡◌, ◌≤◌, ◌↔◌, ◌++◌, [], filter, not, vec_len, vec_capacity, IsTrue, IfOk, OnOk, OnErr};
ghost use Rattle.hd_path.specs.Paths.{is_prefix};
ghost use Rattle.hd_tokens.specs.Tables.{texts};
ghost use Rattle.hd_value.specs.LocatorSets.{with_locator, touches, covers, IsApart};

use crate::locator::Locator;
use std::alloc::{AllocError, Global};
use std::marker::Model;

/// Locators, none of which begins with another.
#[derive(Drop)]
pub struct LocatorSet {
    members: Vec<Locator>,
}

impl Model for LocatorSet {
    ghost use Rattle.hd_value.specs.LocatorSets;
    ghost use Rattle.hd_value.specs.LocatorSets.{IsApart};

    ghost Value = { LocatorSets.LocatorSet };

    ghost view = { λ set. set.members.items };

    ghost invariant = { λ set. IsApart set.members.items };
}

impl LocatorSet {
    /// The set without members.
    pub fn new(alloc: Global) -> LocatorSet
        ensures { result ≡ [] }
    {
        LocatorSet {
            members: Vec::new(alloc),
        }
    }

    /// The members. None begins with another.
    pub fn members(&self) -> &[Locator]
        ensures members { result.now ≡ self.now }
        ensures apart { IsApart self.now }
    {
        self.members.as_slice()
    }

    /// Adds a locator, in place of the members that begin with it. Where it begins with a member, the set stays as it is.
    #[tactic(auto, using(crate::proofs::Inserting::insertions))]
    pub fn insert(&mut self, at: &Locator) -> Result<(), AllocError>
        ensures ok { OnOk result (self.new ≡ with_locator self.old at.now) }
        ensures err { OnErr result (self.new ≡ self.old) }
    {
        if covers(&self.members, at) {
            return Ok(());
        }
        self.members.reserve(1)?;
        let added = at.copy(*self.members.allocator())?;
        drop_below(&mut self.members, at);
        self.members.push_reserved(added);
        Ok(())
    }

    /// Whether a member begins with the locator, or the locator with a member.
    pub fn intersects(&self, at: &Locator) -> bool
        ensures { result ≡ touches self.now at.now }
    {
        self.members.iter().any(|member| member.intersects(at))
    }

    /// Whether a member begins with these tokens, or they with a member.
    pub fn intersects_at(&self, tokens: &[&str]) -> bool
        ensures { result ≡ touches self.now (texts tokens.now) }
    {
        self.members
            .iter()
            .any(|member| member.intersects_at(tokens))
    }

    /// Whether the set has no members.
    pub fn is_empty(&self) -> bool
        ensures { IsTrue result ↔ (self.now ≡ []) }
    {
        self.members.is_empty()
    }

    /// A set of the same members, in the same order.
    pub fn copy(&self, alloc: Global) -> Result<LocatorSet, AllocError>
        ensures { IfOk result (λ copied. copied ≡ self.now) }
    {
        let mut members = Vec::with_capacity(alloc, self.members.len())?;
        push_copies(&mut members, alloc, &self.members)?;
        Ok(LocatorSet { members })
    }
}

/// Whether the locator begins with a member.
fn covers(members: &[Locator], at: &Locator) -> bool
    ensures { result ≡ covers members.now at.now }
{
    members.iter().any(|member| member.is_prefix_of(at))
}

/// Takes away the members that begin with the locator.
fn drop_below(members: &mut Vec<Locator>, at: &Locator)
    ensures kept { members.new.items ≡ filter (λ member. not (is_prefix at.now member)) members.old.items }
    ensures len { vec_len members.new ≤ vec_len members.old }
    ensures capacity { vec_capacity members.new ≡ vec_capacity members.old }
{
    members.retain(|member| !at.is_prefix_of(member));
}

/// Adds copies of the locators at the end.
fn push_copies(
    copied: &mut Vec<Locator>,
    alloc: Global,
    locators: &[Locator],
) -> Result<(), AllocError>
    ensures { OnOk result (copied.new.items ≡ copied.old.items ++ locators.now) }
{
    for locator in locators {
        copied.push(locator.copy(alloc)?)?;
    }
    Ok(())
}
