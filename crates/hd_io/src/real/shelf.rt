//! A shelf over the files of the system.

ghost use Rattle.std.specs.Prelude.{◌≡◌, ◌+◌, ◌^◌, ◌<◌, ◌≤◌, length, None, Some, IsSome, IsErr, IsErrOf, OnOk, OnErr, IfOk, string_bytes};
ghost use Rattle.std.specs.Io.KnownBytes.{ReadConsumes};
ghost use Rattle.hd_io.specs.declared.fault.OutsideFault.TheVariants.{Failed, NoMemory};
ghost use Rattle.hd_io.specs.Failures.{Notes, NotesNothing};
ghost use Rattle.hd_io.specs.Real.{shelf_state};
ghost use Rattle.hd_io.specs.Shelf.{with_open, with_taken, HasFailed};

use super::read_some;
use crate::failures::Failures;
use crate::{OutsideFault, Shelf};
use std::alloc::Global;
use std::fs;
use std::io::Read;
use std::marker::Model;
use std::rt::Files;

/// An open file with its name, and how many bytes were taken from it.
#[derive(Drop)]
struct Reading<F> {
    name: String,
    file: F,
    taken: u64,
}

impl<F: Read> Reading<F> {
    /// Reads the next bytes, and notes a failure.
    fn read(&mut self, buffer: &mut [u8], failures: &mut Failures) -> Result<usize, OutsideFault>
        ensures name { string_bytes self.new.name ≡ string_bytes self.old.name }
        ensures count { IfOk result (λ n. n ≤ length buffer.new) }
        ensures taken { IfOk result (λ n. self.new.taken ≡ self.old.taken + n) }
        ensures untaken { OnErr result (self.new.taken ≡ self.old.taken) }
        ensures full { 2 ^ 64 ≤ self.old.taken + length buffer.old → IsErr result }
        ensures bytes { ReadConsumes (F.remaining self.old.file) (F.remaining self.new.file) result buffer.new }
        ensures kept { OnOk result (failures.new ≡ failures.old) }
        ensures noted { IsErrOf result Failed → Notes (string_bytes self.old.name) failures.old failures.new }
        ensures no_memory { IsErrOf result NoMemory → NotesNothing failures.old failures.new }
    {
        if u64::MAX - self.taken < buffer.len() as u64 {
            return failures.fail(self.name.as_str());
        }
        match read_some(&mut self.file, buffer) {
            Ok(count) => {
                self.taken += count as u64;
                Ok(count)
            }
            Err(_) => failures.fail(self.name.as_str()),
        }
    }
}

/// A shelf over the files of the system. As a shelf it tells no bytes; contracts see those that the open file has left
/// where the file tells them.
#[derive(Drop)]
pub struct FileShelf<R: Files> {
    rt: R,
    reading: Option<Reading<R::File>>,
    failures: Failures,
}

impl<R: Files> Model for FileShelf<R> {
    ghost use Rattle.std.specs.Prelude.{string_bytes};
    ghost use Rattle.std.specs.Option.{option_map, option_map_or, option_and_then};
    ghost use Rattle.hd_io.specs.Failures.{failed_name};
    ghost use Rattle.hd_io.specs.Real.{FileShelfState};

    ghost Value = { FileShelfState };

    ghost view = { λ s. record {
      opened = option_map (λ reading. string_bytes reading.name) s.reading;
      taken = option_map_or (λ reading. reading.taken) s.reading 0;
      left = option_and_then (λ reading. R.File.remaining reading.file) s.reading;
      faults = s.failures.count;
      failed = failed_name s.failures;
    } };
}

impl<R: Files> FileShelf<R> {
    /// A shelf over the files of this runtime, of which none is open.
    pub fn new(rt: R, alloc: Global) -> FileShelf<R>
        ensures opened { result.opened ≡ None }
        ensures taken { result.taken ≡ 0 }
        ensures left { result.left ≡ None }
        ensures faults { result.faults ≡ 0 }
        ensures failed { result.failed ≡ None }
    {
        FileShelf {
            rt,
            reading: None,
            failures: Failures::new(alloc),
        }
    }
}

impl<R: Files> Shelf for FileShelf<R> {
    ghost state = { λ s. shelf_state s };

    fn open(&mut self, name: &str) -> Result<(), OutsideFault>
        ensures opened { OnOk result (shelf_state self.new ≡ with_open name.now (shelf_state self.old)) }
        ensures left { OnErr result (self.new.left ≡ self.old.left) }
        ensures failed { IsErrOf result Failed → HasFailed (Some name.now) (shelf_state self.old) (shelf_state self.new) }
        ensures no_memory { IsErrOf result NoMemory → shelf_state self.new ≡ shelf_state self.old }
    {
        // The name first, so that lack of memory leaves all as it was.
        let name = String::from_str(self.failures.alloc, name)?;
        match fs::open(&self.rt, name.as_str()) {
            Ok(file) => {
                self.reading = Some(Reading {
                    name,
                    file,
                    taken: 0,
                });
                Ok(())
            }
            Err(_) => self.failures.note(name),
        }
    }

    fn read(&mut self, buffer: &mut [u8]) -> Result<usize, OutsideFault>
        requires open { IsSome self.old.opened }
        requires room { 0 < length buffer.old }

        ensures count { IfOk result (λ n. n ≤ length buffer.new) }
        ensures taken { IfOk result (λ n. shelf_state self.new ≡ with_taken n (shelf_state self.old)) }

        // A read after which the count of taken bytes might not fit fails.
        ensures full { 2 ^ 64 ≤ self.old.taken + length buffer.old → IsErr result }
        ensures bytes { ReadConsumes self.old.left self.new.left result buffer.new }

        ensures failed { IsErrOf result Failed → HasFailed self.old.opened (shelf_state self.old) (shelf_state self.new) }
        ensures no_memory { IsErrOf result NoMemory → shelf_state self.new ≡ shelf_state self.old }
    {
        let Some(mut reading) = self.reading.take() else {
            unreachable!()
        };
        let answer = reading.read(buffer, &mut self.failures);
        self.reading = Some(reading);
        answer
    }
}
