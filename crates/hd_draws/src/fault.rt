//! Why rows are not drawn.

ghost use Rattle.std.specs.Prelude.{◌≡◌};
ghost use Rattle.hd_draws.specs.declared.fault.DrawsFault.TheVariants.{NoMemory};

use std::alloc::{AllocError, AllocFailed};

/// Why rows are not drawn.
#[derive(Clone, Copy, Debug, PartialEq, Eq)]
pub enum DrawsFault {
    /// They draw more than 1,048,576 triangles.
    Triangles,
    /// There was no memory.
    NoMemory,
}

impl From<AllocError> for DrawsFault {
    ghost from_gives = { λ _ fault. fault ≡ NoMemory };

    fn from(_error: AllocError) -> DrawsFault {
        DrawsFault::NoMemory
    }
}

impl<T: Drop> From<AllocFailed<T>> for DrawsFault {
    ghost from_gives = { λ _ fault. fault ≡ NoMemory };

    fn from(_refused: AllocFailed<T>) -> DrawsFault {
        DrawsFault::NoMemory
    }
}
