//! A sink in memory.

ghost use Rattle.std.specs.Prelude.{◌≡◌, ◌++◌, ◌<◌, ◌≤◌, [], length, min, take, OnOk, OnErr, IfOk, IsErrOf};
ghost use Rattle.hd_io.specs.declared.fault.OutsideFault.TheVariants.{Failed, NoMemory};
ghost use Rattle.hd_io.specs.Memory.{first_call, IsDue, KeepsToPlan};
ghost use Rattle.hd_io.specs.MemorySink.{sink_state};
ghost use Rattle.hd_io.specs.Offers.{with_offer};
ghost use Rattle.hd_io.specs.Sink.{with_written, HasFailed};

use super::calls::Calls;
use crate::{OutsideFault, Sink};
use std::alloc::{AllocError, Global};
use std::marker::Model;

/// A sink that holds its bytes in memory and tells them.
#[derive(Drop)]
pub struct MemorySink {
    bytes: Vec<u8>,
    /// The lengths of the pieces that writes were offered, and how many bytes each took.
    offers: Vec<(usize, usize)>,
    faults: u64,
    calls: Calls,
}

impl Model for MemorySink {
    ghost use Rattle.hd_io.specs.MemorySink.{MemorySinkState};

    ghost Value = { MemorySinkState };

    ghost view = { λ s. record { bytes = s.bytes.items; offers = s.offers.items; faults = s.faults; calls = s.calls } };
}

impl MemorySink {
    /// A sink without bytes. The calls whose numbers are in `failing` fail, counted from 0, and one call moves at
    /// most `piece` bytes.
    pub fn new(alloc: Global, failing: Vec<u64>, piece: usize) -> MemorySink
        requires { 1 ≤ piece }

        ensures bytes { result.bytes ≡ [] }
        ensures offers { result.offers ≡ [] }
        ensures faults { result.faults ≡ 0 }
        ensures calls { result.calls ≡ first_call failing.items piece }
    {
        MemorySink {
            bytes: Vec::new(alloc),
            offers: Vec::new(alloc),
            faults: 0,
            calls: Calls::new(failing, piece),
        }
    }

    /// The bytes that were written.
    pub fn bytes(&self) -> &[u8]
        ensures { result.now ≡ self.now.bytes }
    {
        &self.bytes
    }

    /// The lengths of the pieces that writes were offered, each with how many of its bytes were taken.
    pub fn offers(&self) -> &[(usize, usize)]
        ensures { result.now ≡ self.now.offers }
    {
        &self.offers
    }
}

impl Sink for MemorySink {
    ghost state = { λ s. sink_state s };

    fn write(&mut self, piece: &[u8]) -> Result<usize, OutsideFault>
        requires { 0 < length piece.now }

        // As many bytes as the plan lets one call move, or all of the piece.
        ensures count { IfOk result (λ n. n ≡ min (length piece.now) self.old.calls.piece) }
        ensures some { IfOk result (λ n. 1 ≤ n) }
        ensures written { IfOk result (λ n. sink_state self.new ≡ with_written piece.now n (sink_state self.old)) }
        ensures failed { IsErrOf result Failed → HasFailed (sink_state self.old) (sink_state self.new) }
        ensures no_memory { IsErrOf result NoMemory → sink_state self.new ≡ sink_state self.old }

        // Only the plan makes it fail.
        ensures plan { KeepsToPlan self.old.calls self.new.calls result }
        ensures failed_only { IsErrOf result Failed → IsDue self.old.calls }
        ensures due { IsDue self.old.calls → IsErrOf result Failed }
    {
        self.calls.begin(&mut self.faults)?;
        let count = piece.len().min(self.calls.piece());
        append(&mut self.bytes, &mut self.offers, piece, count)?;
        Ok(count)
    }
}

/// Writes so many of the first bytes of a piece, and notes the offer.
fn append(
    bytes: &mut Vec<u8>,
    offers: &mut Vec<(usize, usize)>,
    piece: &[u8],
    count: usize,
) -> Result<(), AllocError>
    requires { count ≤ length piece.now }
    ensures written { OnOk result (bytes.new.items ≡ bytes.old.items ++ take count piece.now) }
    ensures offered { OnOk result (offers.new.items ≡ with_offer (length piece.now) count offers.old.items) }
    ensures unchanged { OnErr result (bytes.new.items ≡ bytes.old.items) }
    ensures unoffered { OnErr result (offers.new.items ≡ offers.old.items) }
{
    offers.push((piece.len(), count))?;
    let added = bytes.extend_from_slice(&piece[..count]);
    if added.is_err() {
        offers.pop();
    }
    added
}
