//! Why a command is not done.

ghost use Rattle.std.specs.Prelude.{◌≡◌};
ghost use Rattle.hd_session.specs.Steps.{edit_refusal};
ghost use Rattle.hd_session.specs.Answers.{write_refusal};
ghost use Rattle.hd_session.specs.declared.refusal.Refusal.TheVariants.{NoMemory};

use hd_io::OutsideFault;
use hd_layer::Which;
use hd_retained::EditFault;
use std::alloc::AllocError;

/// What is wrong with a line of a script, or with its command in the state that it meets.
#[derive(Clone, Copy, Debug, PartialEq, Eq)]
pub enum ScriptWhy {
    /// The line is no command.
    Syntax,
    /// No prim is at the path, or none at the parent of a new path.
    NoPrim,
    /// A prim is at the new path already.
    PrimThere,
    /// The new path is the old one, or below it.
    UnderItself,
    /// There is no layer of this number.
    NoLayer,
    /// No camera is at the path.
    NoCamera,
    /// The property has a meaning that is left out.
    LeftOut,
    /// A number of the property is no whole one.
    Fraction,
    /// The command is valid, and is not served yet.
    Later,
}

/// Why a command is not done. No command may follow.
#[derive(Clone, Copy, Debug, PartialEq, Eq)]
pub enum Refusal {
    /// The command has this fault in the state that it met.
    Script(ScriptWhy),
    /// A layer or a path would pass this limit.
    Limit(Which),
    /// A file or a line could not be written.
    WriteFault,
    /// Memory ran out.
    NoMemory,
}

impl From<EditFault> for Refusal {
    ghost from_gives = { λ fault refusal. refusal ≡ edit_refusal fault };

    fn from(fault: EditFault) -> Refusal {
        match fault {
            EditFault::NoPrim => Refusal::Script(ScriptWhy::NoPrim),
            EditFault::PrimThere => Refusal::Script(ScriptWhy::PrimThere),
            EditFault::UnderItself => Refusal::Script(ScriptWhy::UnderItself),
            EditFault::Limit(which) => Refusal::Limit(which),
            EditFault::NoMemory => Refusal::NoMemory,
        }
    }
}

impl From<OutsideFault> for Refusal {
    ghost from_gives = { λ fault refusal. refusal ≡ write_refusal fault };

    fn from(fault: OutsideFault) -> Refusal {
        match fault {
            OutsideFault::Failed => Refusal::WriteFault,
            OutsideFault::NoMemory => Refusal::NoMemory,
        }
    }
}

impl From<AllocError> for Refusal {
    ghost from_gives = { λ _ refusal. refusal ≡ NoMemory };

    fn from(_: AllocError) -> Refusal {
        Refusal::NoMemory
    }
}
