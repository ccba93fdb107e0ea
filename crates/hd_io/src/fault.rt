//! Why a call to the outside did not do what was asked.

ghost use Rattle.std.specs.Prelude.{◌≡◌};
ghost use Rattle.hd_io.specs.declared.fault.OutsideFault.TheVariants.{NoMemory};

use std::alloc::{AllocError, AllocFailed};
use thiserror::Error;

/// Why a call to the outside did not do what was asked.
#[derive(Clone, Copy, Debug, PartialEq, Eq, Error)]
pub enum OutsideFault {
    /// The outside failed, and has counted it.
    #[error("the outside failed")]
    Failed,
    /// There was no memory.
    #[error("out of memory")]
    NoMemory,
}

impl From<AllocError> for OutsideFault {
    ghost from_gives = { λ _ fault. fault ≡ NoMemory };

    fn from(_: AllocError) -> Self {
        OutsideFault::NoMemory
    }
}

impl<T: Drop> From<AllocFailed<T>> for OutsideFault {
    ghost from_gives = { λ _ fault. fault ≡ NoMemory };

    fn from(_: AllocFailed<T>) -> Self {
        OutsideFault::NoMemory
    }
}
