//! What holds of all sets of dirty bits.

ghost use Rattle.hd_dirty.specs.Laws.{WithinAll, OfReachedGroups, UnionReachesBoth, GroupBelowIsReached, UnionHasBoth};

/// The bits that a set of locators reaches are among all bits of the kind.
#[tactic(auto, using(crate::proofs::Reaching::within_all))]
pub fn bits_are_within_all()
    ensures { WithinAll }
{}

/// The bit of a group is reached exactly where the kind has it and the set intersects the group's locator.
#[tactic(auto, using(crate::proofs::Reaching::of_reached_groups))]
pub fn bits_are_of_groups_that_are_reached()
    ensures { OfReachedGroups }
{}

/// The union of two sets of locators reaches the bits that either reaches.
#[tactic(auto, using(crate::proofs::Reaching::union_reaches_both))]
pub fn bits_of_a_union()
    ensures { UnionReachesBoth }
{}

/// A locator above a group's reaches the group's bit, where the kind has it.
#[tactic(auto, using(crate::proofs::Reaching::group_below_is_reached))]
pub fn group_below_is_reached()
    ensures { GroupBelowIsReached }
{}

/// The bit of a group is in a union exactly where it is in one of the sets.
#[tactic(auto, using(crate::proofs::Reaching::union_has_both))]
pub fn union_has_the_bits_of_both()
    ensures { UnionHasBoth }
{}
