//! Why there is no layer.

ghost use Rattle.std.specs.Prelude.{◌≡◌};
ghost use Rattle.hd_layer.specs.declared.fault.LayerFault.TheVariants.{NoMemory};

use crate::limits::Which;
use std::alloc::{AllocError, AllocFailed};

/// What is wrong with a text.
#[derive(Clone, Copy, Debug, PartialEq, Eq)]
pub enum LayerWhy {
    /// The text does not begin with the header.
    Header,
    /// No text of the grammar goes on with this token, or no token can be formed.
    Syntax,
    /// The bytes are no UTF-8.
    NotUtf8,
    /// The name is there before.
    Twice,
    /// The token has a meaning that is left out.
    LeftOut,
    /// The number is not written as a whole one.
    Fraction,
    /// The quantity passes its limit.
    Limit(Which),
}

/// Why a text gives no layer.
#[derive(Clone, Copy, Debug, PartialEq, Eq)]
pub enum LayerFault {
    /// The text has a fault in this line, counted from 1.
    At { line: u32, why: LayerWhy },
    /// Memory ran out.
    NoMemory,
}

impl From<AllocError> for LayerFault {
    ghost from_gives = { λ _ fault. fault ≡ NoMemory };

    fn from(_error: AllocError) -> LayerFault {
        LayerFault::NoMemory
    }
}

impl<T: Drop> From<AllocFailed<T>> for LayerFault {
    ghost from_gives = { λ _ fault. fault ≡ NoMemory };

    fn from(_refused: AllocFailed<T>) -> LayerFault {
        LayerFault::NoMemory
    }
}
