//! A rack over the files of the system.

ghost use Rattle.std.specs.Prelude.{◌≡◌, ◌<◌, ◌≤◌, IsTrue, false, length, OnOk, OnErr, IfOk, IsErrOf};
ghost use Rattle.std.specs.Io.KnownBytes.{Keeps, WriteAppends};
ghost use Rattle.hd_io.specs.declared.fault.OutsideFault.TheVariants.{Failed, NoMemory};
ghost use Rattle.hd_io.specs.Rack.{with_created, with_written, with_closed, HasFailed};
ghost use Rattle.hd_io.specs.Real.{rack_state};

use super::offer;
use crate::{OutsideFault, Rack};
use std::fs::OpenFile;
use std::io::Write;
use std::marker::Model;
use std::rt::Files;
use std::{fs, io};

/// A rack over the files of the system. As a rack it tells no bytes; contracts see those of the open file where the
/// file tells them.
#[derive(Drop)]
pub struct FileRack<R: Files> {
    rt: R,
    file: Option<R::File>,
    faults: u64,
}

impl<R: Files> Model for FileRack<R> {
    ghost use Rattle.std.specs.Prelude.{is_some};
    ghost use Rattle.std.specs.Option.{option_and_then};
    ghost use Rattle.hd_io.specs.Real.{FileRackState};

    ghost Value = { FileRackState };

    ghost view = { λ r. record {
      is_open = is_some r.file;
      bytes = option_and_then R.File.contents r.file;
      faults = r.faults;
    } };
}

impl<R: Files> FileRack<R> {
    /// A rack over the files of this runtime, of which none is open.
    pub fn new(rt: R) -> FileRack<R>
        ensures closed { result.is_open ≡ false }
        ensures faults { result.faults ≡ 0 }
    {
        FileRack {
            rt,
            file: None,
            faults: 0,
        }
    }
}

impl<R: Files> Rack for FileRack<R> {
    ghost state = { λ r. rack_state r };

    fn create(&mut self, name: &str) -> Result<(), OutsideFault>
        ensures created { OnOk result (rack_state self.new ≡ with_created name.now (rack_state self.old)) }
        ensures bytes { OnErr result (self.new.bytes ≡ self.old.bytes) }
        ensures failed { IsErrOf result Failed → HasFailed (rack_state self.old) (rack_state self.new) }
        ensures no_memory { IsErrOf result NoMemory → rack_state self.new ≡ rack_state self.old }
    {
        let Ok(file) = fs::create(&self.rt, name) else {
            self.faults = self.faults.saturating_add(1);
            return Err(OutsideFault::Failed);
        };
        self.file = Some(file);
        Ok(())
    }

    fn write(&mut self, piece: &[u8]) -> Result<usize, OutsideFault>
        requires open { IsTrue self.old.is_open }
        requires some { 0 < length piece.now }

        ensures count { IfOk result (λ n. (1 ≤ n) × (n ≤ length piece.now)) }
        ensures written { IfOk result (λ n. rack_state self.new ≡ with_written piece.now n (rack_state self.old)) }
        ensures bytes { WriteAppends self.old.bytes self.new.bytes result piece.now }
        ensures failed { IsErrOf result Failed → HasFailed (rack_state self.old) (rack_state self.new) }
        ensures no_memory { IsErrOf result NoMemory → rack_state self.new ≡ rack_state self.old }
    {
        let Some(file) = &mut self.file else {
            unreachable!()
        };
        offer(file, piece, &mut self.faults)
    }

    fn finish(&mut self) -> Result<(), OutsideFault>
        requires { IsTrue self.old.is_open }

        ensures closed { OnOk result (rack_state self.new ≡ with_closed (rack_state self.old)) }
        ensures bytes { OnErr result (Keeps self.old.bytes self.new.bytes) }
        ensures failed { IsErrOf result Failed → HasFailed (rack_state self.old) (rack_state self.new) }
        ensures no_memory { IsErrOf result NoMemory → rack_state self.new ≡ rack_state self.old }
    {
        let Some(file) = &mut self.file else {
            unreachable!()
        };
        if sync(file).is_err() {
            self.faults = self.faults.saturating_add(1);
            return Err(OutsideFault::Failed);
        }
        self.file = None;
        Ok(())
    }
}

/// Waits until the bytes of a file are kept, since an error after its last write would be lost when it is closed.
fn sync<F: Write + OpenFile>(file: &mut F) -> io::Result<()>
    ensures { Keeps (F.contents file.old) (F.contents file.new) }
{
    file.flush()?;
    match file.sync_all() {
        // A pipe or a device keeps nothing that could be lost.
        Err(error) if error.kind() == io::ErrorKind::InvalidInput => Ok(()),
        answer => answer,
    }
}
