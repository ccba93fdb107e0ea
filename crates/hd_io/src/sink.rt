//! A sink: bytes that are written one after the other.

ghost use Rattle.std.specs.Prelude.{◌≡◌, ◌<◌, ◌≤◌, length, IfOk, IsErrOf};
ghost use Rattle.hd_io.specs.declared.fault.OutsideFault.TheVariants.{Failed, NoMemory};
ghost use Rattle.hd_io.specs.Sink.{SinkState, with_written, HasFailed};

use crate::OutsideFault;

/// A place for bytes, each after the one before.
pub trait Sink {
    /// What the sink says of itself. Its count of failed calls never falls and stops at the greatest `u64`.
    ghost state: { Self → SinkState };

    /// Writes some of the first bytes of the piece, and returns how many: at least one.
    fn write(&mut self, piece: &[u8]) -> Result<usize, OutsideFault>
        requires { 0 < length piece.now }

        ensures count { IfOk result (λ n. (1 ≤ n) × (n ≤ length piece.now)) }
        ensures written { IfOk result (λ n. state self.new ≡ with_written piece.now n (state self.old)) }
        ensures failed { IsErrOf result Failed → HasFailed (state self.old) (state self.new) }
        ensures no_memory { IsErrOf result NoMemory → state self.new ≡ state self.old };
}
