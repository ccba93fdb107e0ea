//! What a job wants of a registry, and how it is given the slots.

ghost use Rattle.std.specs.Prelude.{◌≡◌, false, true, IfOk, OnOk, OnErr};
ghost use Rattle.hd_registry.specs.Wanted.{contents_wanted};

use crate::content::{Content, Slot};
use std::alloc::{AllocError, Global};
use std::sync::Arc;

/// The contents that a job wants kept, of at most three kinds.
#[derive(Drop)]
pub struct Wants<C> {
    pub first: Option<Arc<C>>,
    pub second: Option<Arc<C>>,
    pub third: Option<Arc<C>>,
}

/// A job that makes contents and is given their slots.
pub trait Staging {
    ghost use Rattle.std.specs.Prelude.{ℕ, Bool, Option, List};

    type Content: Content;

    /// What is staged, for contracts alone.
    type Subject;

    ghost subject: { Self → Self.Subject };

    // the contents that are wanted, of each of three kinds
    ghost wants: { Self → List (Option Self.Content) };

    ghost is_staged: { Self → Bool };

    // the slots that were given
    ghost given: { Self → List (Option ℕ) };

    /// Makes the contents.
    fn stage(&mut self, alloc: Global) -> Result<Wants<Self::Content>, AllocError>
        requires { is_staged self.old ≡ false }
        ensures wants { IfOk result (λ made. contents_wanted made ≡ wants self.old) }
        ensures ok { OnOk result (is_staged self.new ≡ true) }
        ensures err { OnErr result (is_staged self.new ≡ false) }
        ensures same_subject { subject self.new ≡ subject self.old }
        ensures same_wants { wants self.new ≡ wants self.old }
        ensures same_given { given self.new ≡ given self.old };

    /// Keeps the slots of the contents.
    fn give(&mut self, slots: [Option<Slot>; 3])
        ensures given { given self.new ≡ slots }
        ensures same_staged { is_staged self.new ≡ is_staged self.old }
        ensures same_subject { subject self.new ≡ subject self.old }
        ensures same_wants { wants self.new ≡ wants self.old };
}
