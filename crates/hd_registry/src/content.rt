//! What a registry keeps.

ghost use Rattle.std.specs.Prelude.{◌≡◌};
ghost use Rattle.std.specs.Arc.{arc_value};

use std::marker::Model;
use std::sync::Arc;

/// What is kept by content. Two contents that compare equal are the same value.
pub trait Content: Eq + Drop + Send + Sync {
    ghost use Rattle.std.specs.Prelude.{◌≡◌, ℕ, true};

    ghost digest_of: { Self → ℕ };

    /// A number that equal contents have in common, and different ones seldom.
    fn digest(&self) -> u64
        ensures { result ≡ digest_of self.now };

    ghost same: { (x y : Self) → Self.eq x y ≡ true → x ≡ y };

    ghost itself: { (x : Self) → Self.eq x x ≡ true };
}

/// A content that is shared.
#[derive(Drop)]
pub struct ArcContent<C> {
    arc: Arc<C>,
}

impl<C> Model for ArcContent<C> {
    ghost use Rattle.std.specs.Arc.{arc_value};

    ghost Value = { C };

    ghost coded = { C.code };

    ghost view = { λ content. arc_value content.arc };
}

impl<C> ArcContent<C> {
    pub(crate) fn new(arc: Arc<C>) -> ArcContent<C>
        ensures { result ≡ arc_value arc }
    {
        ArcContent { arc }
    }

    pub fn arc(&self) -> &Arc<C>
        ensures { arc_value result.now ≡ self.now }
    {
        &self.arc
    }
}

/// A content that is kept, and the number of its users.
#[derive(Drop)]
pub struct Entry<C> {
    pub content: ArcContent<C>,
    pub users: u64,
}

/// The place of a content in a registry.
#[derive(Clone, Copy, PartialEq, Eq, Hash)]
pub struct Slot {
    place: usize,
}

impl Model for Slot {
    ghost use Rattle.std.specs.Prelude.{ℕ};

    ghost Value = { ℕ };

    ghost view = { λ slot. slot.place };

    ghost inverse = { λ place. record { place = place } };
}

impl Slot {
    pub(crate) fn at(place: usize) -> Slot
        ensures { result ≡ place }
    {
        Slot { place }
    }

    pub(crate) fn place(self) -> usize
        ensures { result ≡ self }
    {
        self.place
    }
}
