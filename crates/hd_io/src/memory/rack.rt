//! A rack in memory.

ghost use Rattle.std.specs.Prelude.{◌≡◌, ◌<◌, ◌≤◌, false, Some, [], IsTrue, length, min, take, OnOk, OnErr, IfOk, IsErr, IsErrOf, slice_get};
ghost use Rattle.hd_io.specs.declared.fault.OutsideFault.TheVariants.{Failed, NoMemory};
ghost use Rattle.hd_io.specs.Files.{file_list, with_bytes, with_file};
ghost use Rattle.hd_io.specs.Memory.{first_call, IsDue, KeepsToPlan};
ghost use Rattle.hd_io.specs.MemoryRack.{rack_state};
ghost use Rattle.hd_io.specs.Offers.{with_offer};
ghost use Rattle.hd_io.specs.Rack.{with_created, with_written, with_closed, HasFailed};

use super::calls::Calls;
use super::file::MemoryFile;
use crate::{OutsideFault, Rack};
use std::alloc::{AllocError, Global};
use std::marker::Model;

/// A rack that holds its files in memory and tells them.
#[derive(Drop)]
pub struct MemoryRack {
    alloc: Global,
    files: Vec<MemoryFile>,
    is_open: bool,
    /// The lengths of the pieces that writes were offered, and how many bytes each took.
    offers: Vec<(usize, usize)>,
    faults: u64,
    calls: Calls,
}

impl Model for MemoryRack {
    ghost use Rattle.hd_io.specs.Files.{file_list};
    ghost use Rattle.hd_io.specs.MemoryRack.{MemoryRackState, HasOpenFile};

    ghost Value = { MemoryRackState };

    ghost view = { λ r. record {
      files = file_list r.files.items;
      is_open = r.is_open;
      offers = r.offers.items;
      faults = r.faults;
      calls = r.calls;
    } };

    ghost invariant = { λ r. HasOpenFile (file_list r.files.items) r.is_open };
}

impl MemoryRack {
    /// A rack without files. The calls whose numbers are in `failing` fail, counted from 0 over all kinds of call,
    /// and one call moves at most `piece` bytes.
    pub fn new(alloc: Global, failing: Vec<u64>, piece: usize) -> MemoryRack
        requires { 1 ≤ piece }

        ensures files { result.files ≡ [] }
        ensures closed { result.is_open ≡ false }
        ensures offers { result.offers ≡ [] }
        ensures faults { result.faults ≡ 0 }
        ensures calls { result.calls ≡ first_call failing.items piece }
    {
        MemoryRack {
            alloc,
            files: Vec::new(alloc),
            is_open: false,
            offers: Vec::new(alloc),
            faults: 0,
            calls: Calls::new(failing, piece),
        }
    }

    /// How many files there are.
    pub fn count(&self) -> usize
        ensures { result ≡ length self.now.files }
    {
        self.files.len()
    }

    /// The name and the bytes of the file at a place in the order of creation.
    pub fn file(&self, i: usize) -> (&str, &[u8])
        requires { i < length self.now.files }
        ensures { slice_get self.now.files i ≡ Some (result.0.now, result.1.now) }
    {
        let file = &self.files[i];
        (file.name.as_str(), file.bytes.as_slice())
    }

    /// The lengths of the pieces that writes were offered, each with how many of its bytes were taken.
    pub fn offers(&self) -> &[(usize, usize)]
        ensures { result.now ≡ self.now.offers }
    {
        &self.offers
    }
}

impl Rack for MemoryRack {
    ghost state = { λ r. rack_state r };

    fn create(&mut self, name: &str) -> Result<(), OutsideFault>
        ensures created { OnOk result (rack_state self.new ≡ with_created name.now (rack_state self.old)) }
        ensures failed { IsErrOf result Failed → HasFailed (rack_state self.old) (rack_state self.new) }
        ensures no_memory { IsErrOf result NoMemory → rack_state self.new ≡ rack_state self.old }

        // Only the plan makes it fail.
        ensures plan { KeepsToPlan self.old.calls self.new.calls result }
        ensures failed_only { IsErrOf result Failed → IsDue self.old.calls }
        ensures due { IsDue self.old.calls → IsErrOf result Failed }
    {
        self.calls.begin(&mut self.faults)?;
        add_file(self.alloc, &mut self.files, name)?;
        self.is_open = true;
        Ok(())
    }

    fn write(&mut self, piece: &[u8]) -> Result<usize, OutsideFault>
        requires open { IsTrue self.old.is_open }
        requires some { 0 < length piece.now }

        // As many bytes as the plan lets one call move, or all of the piece.
        ensures count { IfOk result (λ n. n ≡ min (length piece.now) self.old.calls.piece) }
        ensures some { IfOk result (λ n. 1 ≤ n) }
        ensures written { IfOk result (λ n. rack_state self.new ≡ with_written piece.now n (rack_state self.old)) }
        ensures failed { IsErrOf result Failed → HasFailed (rack_state self.old) (rack_state self.new) }
        ensures no_memory { IsErrOf result NoMemory → rack_state self.new ≡ rack_state self.old }

        // Only the plan makes it fail.
        ensures plan { KeepsToPlan self.old.calls self.new.calls result }
        ensures failed_only { IsErrOf result Failed → IsDue self.old.calls }
        ensures due { IsDue self.old.calls → IsErrOf result Failed }
    {
        self.calls.begin(&mut self.faults)?;
        let count = piece.len().min(self.calls.piece());
        append(&mut self.files, &mut self.offers, piece, count)?;
        Ok(count)
    }

    fn finish(&mut self) -> Result<(), OutsideFault>
        requires { IsTrue self.old.is_open }

        ensures closed { OnOk result (rack_state self.new ≡ with_closed (rack_state self.old)) }
        ensures failed { IsErrOf result Failed → HasFailed (rack_state self.old) (rack_state self.new) }
        ensures no_memory { IsErrOf result NoMemory → rack_state self.new ≡ rack_state self.old }

        // Only the plan makes it fail.
        ensures plan { KeepsToPlan self.old.calls self.new.calls result }
        ensures failed_only { IsErr result → IsDue self.old.calls }
        ensures due { IsDue self.old.calls → IsErrOf result Failed }
    {
        self.calls.begin(&mut self.faults)?;
        self.is_open = false;
        Ok(())
    }
}

/// Adds an empty file of this name.
fn add_file(alloc: Global, files: &mut Vec<MemoryFile>, name: &str) -> Result<(), AllocError>
    ensures added { OnOk result (file_list files.new.items ≡ with_file name.now (file_list files.old.items)) }
    ensures unchanged { OnErr result (file_list files.new.items ≡ file_list files.old.items) }
{
    let name = String::from_str(alloc, name)?;
    let bytes = Vec::new(alloc);
    files.push(MemoryFile { name, bytes })?;
    Ok(())
}

/// Writes so many of the first bytes of a piece to the end of the last file, and notes the offer.
fn append(
    files: &mut Vec<MemoryFile>,
    offers: &mut Vec<(usize, usize)>,
    piece: &[u8],
    count: usize,
) -> Result<(), AllocError>
    requires some { 0 < length files.old.items }
    requires within { count ≤ length piece.now }
    ensures written { OnOk result (file_list files.new.items ≡ with_bytes (take count piece.now) (file_list files.old.items)) }
    ensures offered { OnOk result (offers.new.items ≡ with_offer (length piece.now) count offers.old.items) }
    ensures unchanged { OnErr result (file_list files.new.items ≡ file_list files.old.items) }
    ensures unoffered { OnErr result (offers.new.items ≡ offers.old.items) }
    ensures count { length files.new.items ≡ length files.old.items }
{
    offers.push((piece.len(), count))?;
    let added = append_bytes(files, &piece[..count]);
    if added.is_err() {
        offers.pop();
    }
    added
}

/// Writes bytes to the end of the last file.
fn append_bytes(files: &mut Vec<MemoryFile>, bytes: &[u8]) -> Result<(), AllocError>
    requires { 0 < length files.old.items }
    ensures written { OnOk result (file_list files.new.items ≡ with_bytes bytes.now (file_list files.old.items)) }
    ensures unchanged { OnErr result (file_list files.new.items ≡ file_list files.old.items) }
    ensures count { length files.new.items ≡ length files.old.items }
{
    let last = files.len() - 1;
    files[last].bytes.extend_from_slice(bytes)
}
