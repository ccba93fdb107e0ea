//! The forms over the system.

ghost use Rattle.std.specs.Prelude.{◌≡◌, ◌≤◌, length, take, MatchOption, IfSome, IfOk, IfErr, OnOk, OnErr};
ghost use Rattle.std.specs.Io.KnownBytes.{Keeps, Appends, ReadConsumes, WriteAppends};
ghost use Rattle.hd_io.specs.Causes.{Rose};

mod rack;
mod shelf;
mod sink;

use crate::OutsideFault;
pub use rack::FileRack;
pub use shelf::FileShelf;
pub use sink::OutSink;
use std::io;
use std::io::{ErrorKind, Read, Write};

/// How often the system is asked again for what it interrupts each time: without end, as far as a program can tell.
const TRIES: u64 = u64::MAX;

/// Reads the next bytes, and asks again where the system interrupts that.
fn read_some<F: Read>(file: &mut F, buffer: &mut [u8]) -> io::Result<usize>
    ensures count { IfOk result (λ n. n ≤ length buffer.new) }
    ensures bytes { ReadConsumes (F.remaining file.old) (F.remaining file.new) result buffer.new }
{
    'tries: for _ in 0..TRIES {
        match file.read(buffer) {
            Err(error) if error.kind() == ErrorKind::Interrupted => {}
            answer => return answer,
        }
    }
    Err(io::Error::from(ErrorKind::Interrupted))
}

/// Offers a piece, and offers it again where the system interrupts that. Returns how many of its first bytes were taken: at
/// least one, or `None`.
fn write_some<W: Write>(writer: &mut W, piece: &[u8]) -> Option<usize>
    ensures count { IfSome result (λ n. (1 ≤ n) × (n ≤ length piece.now)) }
    ensures bytes { MatchOption result (Keeps (W.contents writer.old) (W.contents writer.new)) (λ n.
        Appends (W.contents writer.old) (W.contents writer.new) (take n piece.now)) }
{
    'tries: for _ in 0..TRIES {
        match writer.write(piece) {
            Ok(count) if count > 0 => return Some(count),
            Err(error) if error.kind() == ErrorKind::Interrupted => {}
            _ => return None,
        }
    }
    None
}

/// Writes some of the first bytes of a piece, or counts a fault.
fn offer<W: Write>(writer: &mut W, piece: &[u8], faults: &mut u64) -> Result<usize, OutsideFault>
    ensures count { IfOk result (λ n. (1 ≤ n) × (n ≤ length piece.now)) }
    ensures bytes { WriteAppends (W.contents writer.old) (W.contents writer.new) result piece.now }
    ensures failed { IfErr result (λ fault. fault ≡ OutsideFault.Failed) }
    ensures kept { OnOk result (faults.new ≡ faults.old) }
    ensures counted { OnErr result (Rose faults.old faults.new) }
{
    match write_some(writer, piece) {
        Some(count) => Ok(count),
        None => {
            *faults = faults.saturating_add(1);
            Err(OutsideFault::Failed)
        }
    }
}
