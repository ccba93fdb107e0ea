//! Why a path is refused.

ghost use Rattle.std.specs.Prelude.{◌≡◌};
ghost use Rattle.hd_path.specs.declared.fault.PathFault.TheVariants.{NoMemory};

use std::alloc::AllocError;
use thiserror::Error;

/// Why a text or a name gives no path.
#[derive(Clone, Copy, Debug, PartialEq, Eq, Error)]
pub enum PathFault {
    /// At the byte at `at` no path or no name goes on. It is the length where the text is too short.
    #[error("no path goes on at byte {at}")]
    Syntax { at: usize },
    /// The path would have more than 32 names.
    #[error("more than 32 names")]
    TooDeep,
    /// The name has more than 64 bytes.
    #[error("a name of more than 64 bytes")]
    NameTooLong,
    /// There is no memory for the path.
    #[error("out of memory")]
    NoMemory,
}

impl From<AllocError> for PathFault {
    ghost from_gives = { λ _ fault. fault ≡ NoMemory };

    fn from(_error: AllocError) -> PathFault {
        PathFault::NoMemory
    }
}
