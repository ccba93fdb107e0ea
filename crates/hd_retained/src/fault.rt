//! Why an edit is refused.

ghost use Rattle.std.specs.Prelude.{◌≡◌};
ghost use Rattle.hd_retained.specs.declared.fault.EditFault.TheVariants.{NoMemory};

use hd_layer::Which;
use std::alloc::{AllocError, AllocFailed};

/// Why an edit is refused. A refused edit changes nothing.
#[derive(Clone, Copy, Debug, PartialEq, Eq)]
pub enum EditFault {
    /// No prim is at the path that the edit names, or none at the parent of its new path.
    NoPrim,
    /// A prim is at the new path already.
    PrimThere,
    /// The new path is the old one, or below it.
    UnderItself,
    /// The layer or a path would pass this limit.
    Limit(Which),
    /// Memory ran out.
    NoMemory,
}

impl From<AllocError> for EditFault {
    ghost from_gives = { λ _ fault. fault ≡ NoMemory };

    fn from(_error: AllocError) -> EditFault {
        EditFault::NoMemory
    }
}

impl<T: Drop> From<AllocFailed<T>> for EditFault {
    ghost from_gives = { λ _ fault. fault ≡ NoMemory };

    fn from(_refused: AllocFailed<T>) -> EditFault {
        EditFault::NoMemory
    }
}
