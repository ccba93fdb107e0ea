//! A rack: files that are created by name and written at their end, one at a time.

ghost use Rattle.std.specs.Prelude.{◌≡◌, ◌<◌, ◌≤◌, IsTrue, length, OnOk, IfOk, IsErrOf};
ghost use Rattle.hd_io.specs.declared.fault.OutsideFault.TheVariants.{Failed, NoMemory};
ghost use Rattle.hd_io.specs.Rack.{RackState, with_created, with_written, with_closed, HasFailed};

use crate::OutsideFault;

/// Files to write, of which the last may be open.
pub trait Rack {
    /// What the rack says of itself. Its count of failed calls never falls and stops at the greatest `u64`.
    ghost state: { Self → RackState };

    /// Creates an empty file of this name after the others and opens it. A name that is created twice has two files.
    fn create(&mut self, name: &str) -> Result<(), OutsideFault>
        ensures created { OnOk result (state self.new ≡ with_created name.now (state self.old)) }
        ensures failed { IsErrOf result Failed → HasFailed (state self.old) (state self.new) }
        ensures no_memory { IsErrOf result NoMemory → state self.new ≡ state self.old };

    /// Writes some of the first bytes of the piece to the end of the last file, and returns how many: at least one.
    fn write(&mut self, piece: &[u8]) -> Result<usize, OutsideFault>
        requires open { IsTrue (state self.old).is_open }
        requires some { 0 < length piece.now }

        ensures count { IfOk result (λ n. (1 ≤ n) × (n ≤ length piece.now)) }
        ensures written { IfOk result (λ n. state self.new ≡ with_written piece.now n (state self.old)) }
        ensures failed { IsErrOf result Failed → HasFailed (state self.old) (state self.new) }
        ensures no_memory { IsErrOf result NoMemory → state self.new ≡ state self.old };

    /// Closes the last file. It adds no bytes.
    fn finish(&mut self) -> Result<(), OutsideFault>
        requires { IsTrue (state self.old).is_open }

        ensures closed { OnOk result (state self.new ≡ with_closed (state self.old)) }
        ensures failed { IsErrOf result Failed → HasFailed (state self.old) (state self.new) }
        ensures no_memory { IsErrOf result NoMemory → state self.new ≡ state self.old };
}
