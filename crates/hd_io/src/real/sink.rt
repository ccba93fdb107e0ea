//! A sink to a writer, such as the standard output.

ghost use Rattle.std.specs.Prelude.{◌≡◌, ◌<◌, ◌≤◌, length, IfOk, IsErrOf};
ghost use Rattle.std.specs.Io.KnownBytes.{WriteAppends};
ghost use Rattle.hd_io.specs.declared.fault.OutsideFault.TheVariants.{Failed, NoMemory};
ghost use Rattle.hd_io.specs.Real.{sink_state};
ghost use Rattle.hd_io.specs.Sink.{with_written, HasFailed};

use super::offer;
use crate::{OutsideFault, Sink};
use std::io::Write;
use std::marker::Model;

/// A sink to a writer that holds nothing back, as that of the standard output. As a sink it tells no bytes; contracts see
/// those of the writer where it tells them.
#[derive(Drop)]
pub struct OutSink<W: Write> {
    writer: W,
    faults: u64,
}

impl<W: Write> Model for OutSink<W> {
    ghost use Rattle.hd_io.specs.Real.{OutSinkState};

    ghost Value = { OutSinkState };

    ghost view = { λ s. record { bytes = W.contents s.writer; faults = s.faults } };
}

impl<W: Write> OutSink<W> {
    /// A sink to this writer.
    pub fn new(writer: W) -> OutSink<W>
        ensures bytes { result.bytes ≡ W.contents writer }
        ensures faults { result.faults ≡ 0 }
    {
        OutSink { writer, faults: 0 }
    }
}

impl<W: Write> Sink for OutSink<W> {
    ghost state = { λ s. sink_state s };

    fn write(&mut self, piece: &[u8]) -> Result<usize, OutsideFault>
        requires { 0 < length piece.now }

        ensures count { IfOk result (λ n. (1 ≤ n) × (n ≤ length piece.now)) }
        ensures written { IfOk result (λ n. sink_state self.new ≡ with_written piece.now n (sink_state self.old)) }
        ensures bytes { WriteAppends self.old.bytes self.new.bytes result piece.now }
        ensures failed { IsErrOf result Failed → HasFailed (sink_state self.old) (sink_state self.new) }
        ensures no_memory { IsErrOf result NoMemory → sink_state self.new ≡ sink_state self.old }
    {
        offer(&mut self.writer, piece, &mut self.faults)
    }
}
