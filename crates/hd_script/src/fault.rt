//! Why a line gives no command.

ghost use Rattle.std.specs.Prelude.{◌≡◌};
ghost use Rattle.hd_script.specs.declared.fault.LineFault.TheVariants.{NoMemory};

use hd_layer::Which;
use std::alloc::AllocError;

/// Why a line gives no command.
#[derive(Clone, Copy, Debug, PartialEq, Eq)]
pub enum LineFault {
    /// No line of a command goes on so.
    Syntax,
    /// The property has a meaning that is left out.
    LeftOut,
    /// A number of the property is no whole one.
    Fraction,
    /// The quantity passes its limit.
    Limit(Which),
    /// Memory ran out.
    NoMemory,
}

impl From<AllocError> for LineFault {
    ghost from_gives = { λ _ fault. fault ≡ NoMemory };

    fn from(_error: AllocError) -> LineFault {
        LineFault::NoMemory
    }
}
