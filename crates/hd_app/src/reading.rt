//! Files, read whole.

ghost use Rattle.std.specs.Prelude.{◌≡◌, ◌+◌, ◌≤◌, max, IfOk, OnOk, IsErrOf, IsSome, IfSome, Some, vec_len};
ghost use Rattle.hd_io.specs.Causes.{Rose};
ghost use Rattle.hd_io.specs.Files.{open_bytes};
ghost use Rattle.hd_app.specs.declared.reading.ReadStop.TheVariants.{NoMemory};
ghost use Rattle.hd_app.specs.Outcomes.{byte_limit};
ghost use Rattle.hd_app.specs.inner.Reading.{Holds, HoldsTooMuch, HoldsOpen, HoldsOpenTooMuch, UnlessFailed, StopsAs};

use hd_io::{OutsideFault, Shelf};
use std::alloc::{AllocError, Global};

/// The most bytes that a layer or the script may have.
const BYTE_LIMIT: usize = 1_048_576;

/// How many bytes one call of a shelf is asked for.
const CHUNK: usize = 8_192;

/// Why a file was not read to its end.
#[derive(Clone, Copy, Debug)]
pub enum ReadStop {
    /// The shelf failed.
    Failed,
    /// The file has more bytes than the limit.
    TooLong,
    /// Memory ran out.
    NoMemory,
}

impl From<OutsideFault> for ReadStop {
    ghost from_gives = { StopsAs };

    fn from(fault: OutsideFault) -> ReadStop {
        match fault {
            OutsideFault::Failed => ReadStop::Failed,
            OutsideFault::NoMemory => ReadStop::NoMemory,
        }
    }
}

impl From<AllocError> for ReadStop {
    ghost from_gives = { λ _ stop. stop ≡ NoMemory };

    fn from(_error: AllocError) -> ReadStop {
        ReadStop::NoMemory
    }
}

/// Reads a file whole, in pieces, and gives up once it has taken one byte more than the limit.
pub fn read_file<S: Shelf>(alloc: Global, shelf: &mut S, name: &str) -> Result<Vec<u8>, ReadStop>
    ensures opened { OnOk result ((S.state shelf.new).opened ≡ Some name.now) }
    ensures passed_by { IsErrOf result ReadStop.TooLong → (S.state shelf.new).opened ≡ Some name.now }
    ensures whole { IfOk result (λ bytes. Holds (S.state shelf.old).files name.now bytes.items) }
    ensures short { IfOk result (λ bytes. vec_len bytes ≤ byte_limit) }
    ensures too_long { IsErrOf result ReadStop.TooLong → HoldsTooMuch (S.state shelf.old).files name.now }
    ensures passed { IsErrOf result ReadStop.TooLong → (S.state shelf.new).taken ≡ byte_limit + 1 }
    ensures taken { (S.state shelf.new).taken ≤ max (S.state shelf.old).taken (byte_limit + 1) }
    ensures files { (S.state shelf.new).files ≡ (S.state shelf.old).files }
    ensures failed { IsErrOf result ReadStop.Failed → Rose (S.state shelf.old).faults (S.state shelf.new).faults }
    ensures named { IsErrOf result ReadStop.Failed → (S.state shelf.new).failed ≡ Some name.now }
    ensures kept { UnlessFailed result ((S.state shelf.new).faults ≡ (S.state shelf.old).faults) }
{
    shelf.open(name)?;
    read_open(alloc, shelf)
}

/// Reads the open file from its first byte.
fn read_open<S: Shelf>(alloc: Global, shelf: &mut S) -> Result<Vec<u8>, ReadStop>
    requires begun { (S.state shelf.old).taken ≡ 0 }
    requires open { IsSome (S.state shelf.old).opened }
    requires there { IfSome (S.state shelf.old).files (λ map. IsSome (open_bytes map (S.state shelf.old).opened)) }
    ensures whole { IfOk result (λ bytes. HoldsOpen (S.state shelf.old).files (S.state shelf.old).opened bytes.items) }
    ensures short { IfOk result (λ bytes. vec_len bytes ≤ byte_limit) }
    ensures too_long { IsErrOf result ReadStop.TooLong → HoldsOpenTooMuch (S.state shelf.old).files (S.state shelf.old).opened }
    ensures passed { IsErrOf result ReadStop.TooLong → (S.state shelf.new).taken ≡ byte_limit + 1 }
    ensures opened { (S.state shelf.new).opened ≡ (S.state shelf.old).opened }
    ensures taken { (S.state shelf.new).taken ≤ byte_limit + 1 }
    ensures files { (S.state shelf.new).files ≡ (S.state shelf.old).files }
    ensures failed { IsErrOf result ReadStop.Failed → Rose (S.state shelf.old).faults (S.state shelf.new).faults }
    ensures named { IsErrOf result ReadStop.Failed → (S.state shelf.new).failed ≡ (S.state shelf.old).opened }
    ensures kept { UnlessFailed result ((S.state shelf.new).faults ≡ (S.state shelf.old).faults) }
{
    let mut bytes = Vec::new(alloc);
    let mut buffer = [0; CHUNK];
    'reading: while bytes.len() <= BYTE_LIMIT {
        let room = CHUNK.min(BYTE_LIMIT + 1 - bytes.len());
        let count = shelf.read(&mut buffer[..room])?;
        if count == 0 {
            return Ok(bytes);
        }
        bytes.extend_from_slice(&buffer[..count])?;
    }
    Err(ReadStop::TooLong)
}
