//! A shelf: files that are opened by name and read from the front, one at a time.

ghost use Rattle.std.specs.Prelude.{
  ◌≡◌,
  ◌<◌,
  ◌≤◌,
  length,
  IsSome,
  Some,
  IfSome,
  IsSomeAnd,
  OnOk,
  IfOk,
  IsErrOf,
};
ghost use Rattle.hd_io.specs.declared.fault.OutsideFault.TheVariants.{Failed, NoMemory};
ghost use Rattle.hd_io.specs.Files.{bytes_of, open_bytes};
ghost use Rattle.hd_io.specs.Shelf.{ShelfState, with_open, with_taken, HasFailed, ReadsNext};

use crate::OutsideFault;

/// Files to read, of which one at a time is open. No call changes a file.
pub trait Shelf {
    /// What the shelf says of itself. Its count of failed calls never falls and stops at the greatest `u64`.
    ghost state: { Self → ShelfState };

    /// Opens the file of this name at its first byte, in the place of the one that was open.
    /// A name that is not there is `Failed`.
    fn open(&mut self, name: &str) -> Result<(), OutsideFault>
        ensures opened { OnOk result (state self.new ≡ with_open name.now (state self.old)) }
        ensures there { OnOk result (IfSome (state self.old).files (λ map. IsSome (bytes_of map name.now))) }
        ensures failed { IsErrOf result Failed → HasFailed (Some name.now) (state self.old) (state self.new) }
        ensures no_memory { IsErrOf result NoMemory → state self.new ≡ state self.old };

    /// Reads the next bytes of the open file into the front of the buffer, and returns how many: 0 only at its end.
    fn read(&mut self, buffer: &mut [u8]) -> Result<usize, OutsideFault>
        requires open { IsSome (state self.old).opened }
        requires room { 0 < length buffer.old }

        ensures count { IfOk result (λ n. n ≤ length buffer.new) }
        ensures taken { IfOk result (λ n. state self.new ≡ with_taken n (state self.old)) }

        // Where the files are told, the open one is among them.
        ensures bytes { IfOk result (λ n. IfSome (state self.old).files (λ map.
            IsSomeAnd (open_bytes map (state self.old).opened) (λ file. ReadsNext file (state self.old).taken n buffer.new))) }

        ensures failed { IsErrOf result Failed → HasFailed (state self.old).opened (state self.old) (state self.new) }
        ensures no_memory { IsErrOf result NoMemory → state self.new ≡ state self.old };
}
