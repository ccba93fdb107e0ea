//! A shelf in memory.

ghost use Rattle.std.specs.Prelude.{◌≡◌, ◌⊎◌, ◌-◌, ◌<◌, ◌≤◌, ◌≢◌, length, min, drop, AllPairs, Option, IsSome, IsSomeAnd, MatchOption, Some, None, OnOk, OnErr, IfOk, IsErr, IsErrOf, slice_get, string_bytes};
ghost use Rattle.hd_io.specs.declared.fault.OutsideFault.TheVariants.{Failed, NoMemory};
ghost use Rattle.hd_io.specs.MemoryShelf.{shelf_state, name_at, IsPlaced};
ghost use Rattle.hd_io.specs.Memory.{first_call, IsDue, KeepsToPlan};
ghost use Rattle.hd_io.specs.Files.{file_list, file_map, bytes_of, open_bytes};
ghost use Rattle.hd_io.specs.Shelf.{with_open, with_taken, HasFailed, ReadsNext};

use super::calls::Calls;
use super::file::MemoryFile;
use crate::failures::Failures;
use crate::{OutsideFault, Shelf};
use std::alloc::Global;
use std::marker::Model;

/// A shelf that holds its files in memory and tells them.
#[derive(Drop)]
pub struct MemoryShelf {
    files: Vec<MemoryFile>,
    /// The index of the open file.
    reading: Option<usize>,
    taken: usize,
    failures: Failures,
    calls: Calls,
}

impl Model for MemoryShelf {
    ghost use Rattle.hd_io.specs.Failures.{failed_name};
    ghost use Rattle.hd_io.specs.Files.{file_list};
    ghost use Rattle.hd_io.specs.MemoryShelf.{MemoryShelfState, name_at, IsPlaced};

    ghost Value = { MemoryShelfState };

    ghost view = { λ s. record {
      files = file_list s.files.items;
      opened = name_at (file_list s.files.items) s.reading;
      taken = s.taken;
      faults = s.failures.count;
      failed = failed_name s.failures;
      calls = s.calls;
    } };

    ghost invariant = { λ s. IsPlaced (file_list s.files.items) s.reading s.taken };
}

impl MemoryShelf {
    /// A shelf of these files, each a name and its bytes, of which none is open. The calls whose numbers are in
    /// `failing` fail, counted from 0 over both kinds of call, and one call moves at most `piece` bytes.
    pub fn new(
        alloc: Global,
        files: Vec<MemoryFile>,
        failing: Vec<u64>,
        piece: usize,
    ) -> MemoryShelf
        requires differ { AllPairs (λ one other. string_bytes one.name ≢ string_bytes other.name) files.items }
        requires moves { 1 ≤ piece }

        ensures files { result.files ≡ file_list files.items }
        ensures opened { result.opened ≡ None }
        ensures taken { result.taken ≡ 0 }
        ensures faults { result.faults ≡ 0 }
        ensures failed { result.failed ≡ None }
        ensures calls { result.calls ≡ first_call failing.items piece }
    {
        MemoryShelf {
            files,
            reading: None,
            taken: 0,
            failures: Failures::new(alloc),
            calls: Calls::new(failing, piece),
        }
    }
}

impl Shelf for MemoryShelf {
    ghost state = { λ s. shelf_state s };

    fn open(&mut self, name: &str) -> Result<(), OutsideFault>
        ensures files { self.new.files ≡ self.old.files }
        ensures opened { OnOk result (shelf_state self.new ≡ with_open name.now (shelf_state self.old)) }
        ensures there { OnOk result (IsSome (bytes_of (file_map self.old.files) name.now)) }
        ensures failed { IsErrOf result Failed → HasFailed (Some name.now) (shelf_state self.old) (shelf_state self.new) }
        ensures no_memory { IsErrOf result NoMemory → shelf_state self.new ≡ shelf_state self.old }

        // Only the plan and a missing name make it fail.
        ensures plan { KeepsToPlan self.old.calls self.new.calls result }
        ensures failed_only { IsErr result →
            IsDue self.old.calls ⊎ (bytes_of (file_map self.old.files) name.now ≡ None) }
    {
        if self.calls.fails() {
            return self.failures.fail(name);
        }
        let Some(index) = place_of(&self.files, name) else {
            return self.failures.fail(name);
        };
        self.reading = Some(index);
        self.taken = 0;
        Ok(())
    }

    fn read(&mut self, buffer: &mut [u8]) -> Result<usize, OutsideFault>
        requires open { IsSome self.old.opened }
        requires room { 0 < length buffer.old }

        ensures files { self.new.files ≡ self.old.files }
        ensures taken { IfOk result (λ n. shelf_state self.new ≡ with_taken n (shelf_state self.old)) }

        // As many bytes as fit the buffer and the plan, or all that are left.
        ensures count { IfOk result (λ n. IsSomeAnd (open_bytes (file_map self.old.files) self.old.opened) (λ file.
            n ≡ min self.old.calls.piece (min (length buffer.new) (length file - self.old.taken)))) }
        ensures bytes { IfOk result (λ n. IsSomeAnd (open_bytes (file_map self.old.files) self.old.opened) (λ file.
            ReadsNext file self.old.taken n buffer.new)) }
        ensures after { IfOk result (λ n. drop n buffer.new ≡ drop n buffer.old) }
        ensures untouched { OnErr result (buffer.new ≡ buffer.old) }

        ensures failed { IsErrOf result Failed → HasFailed self.old.opened (shelf_state self.old) (shelf_state self.new) }
        ensures no_memory { IsErrOf result NoMemory → shelf_state self.new ≡ shelf_state self.old }

        // Only the plan makes it fail.
        ensures plan { KeepsToPlan self.old.calls self.new.calls result }
        ensures failed_only { IsErr result → IsDue self.old.calls }
    {
        let (name, bytes) = file_at(&self.files, self.reading, self.taken);
        if self.calls.fails() {
            return self.failures.fail(name);
        }
        let count = copy_next(bytes, self.taken, self.calls.piece(), buffer);
        self.taken += count;
        Ok(count)
    }
}

/// The index of the first file of this name.
fn place_of(files: &[MemoryFile], name: &str) -> Option<usize>
    ensures { MatchOption result (bytes_of (file_map (file_list files.now)) name.now ≡ None) (λ index.
        IsSomeAnd (slice_get (file_list files.now) index) (λ file.
        (file.0 ≡ name.now) × (bytes_of (file_map (file_list files.now)) name.now ≡ Some file.1))) }
{
    for (index, file) in files.iter().enumerate() {
        if name == file.name.as_str() {
            return Some(index);
        }
    }
    None
}

/// The name and the bytes of the open file.
fn file_at(files: &[MemoryFile], index: Option<usize>, taken: usize) -> (&str, &[u8])
    requires open { IsSome (name_at (file_list files.now) index) }
    requires placed { IsPlaced (file_list files.now) index taken }

    ensures name { name_at (file_list files.now) index ≡ Some result.0.now }
    ensures bytes { open_bytes (file_map (file_list files.now)) (Some result.0.now) ≡ Some result.1.now }
    ensures within { taken ≤ length result.1.now }
{
    let Some(index) = index else { unreachable!() };
    let file = &files[index];
    (file.name.as_str(), file.bytes.as_slice())
}

/// Copies the bytes of a file that are at a place into the front of a buffer, at most `piece`, and returns how many.
fn copy_next(file: &[u8], place: usize, piece: usize, buffer: &mut [u8]) -> usize
    requires within { place ≤ length file.now }
    requires moves { 1 ≤ piece }
    requires room { 0 < length buffer.old }

    ensures count { result ≡ min piece (min (length buffer.new) (length file.now - place)) }
    ensures next { ReadsNext file.now place result buffer.new }
    ensures after { drop result buffer.new ≡ drop result buffer.old }
{
    let rest = &file[place..];
    let count = piece.min(buffer.len()).min(rest.len());
    buffer[..count].copy_from_slice(&rest[..count]);
    count
}
