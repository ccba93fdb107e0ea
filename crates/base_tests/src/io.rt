//! Tests of the shelf, the rack and the sink over the system. Cases of `program_cases` run over those in memory.

use crate::across;
use hd_io::{FileRack, FileShelf, OutSink, OutsideFault, Rack, Shelf, Sink, write_file};
use std::io::{ErrorKind, Write};
use std::{fs, io};

/// Writes a file of the system twice, and is refused a file in a folder that is missing.
fn writes_twice(rt: HostRuntime) -> bool {
    let mut rack = across(FileRack::new(rt));
    write_file(&mut rack, "written", b"longer bytes than those that follow").is_ok()
        && write_file(&mut rack, "written", b"some bytes").is_ok()
        && rack.create("no/such/folder").is_err()
}

/// Whether the file has the bytes that were written last, and a missing one is refused.
fn reads_last_bytes(rt: HostRuntime) -> bool {
    let mut shelf = across(FileShelf::new(rt, rt.alloc()));
    let mut buffer = [0; 16];
    shelf.open("missing").is_err()
        && shelf.open("written").is_ok()
        && shelf.read(&mut buffer) == Ok(10)
        && buffer.starts_with(b"some bytes")
        && shelf.read(&mut buffer) == Ok(0)
}

#[test]
fn the_system_keeps_what_is_written(rt: HostRuntime) {
    assert!(rt;
        writes_twice(rt) && reads_last_bytes(rt) && fs::remove_file(&rt, "written").is_ok()
    );
}

/// A writer that the system interrupts at the first call, that takes a byte at each of the next two, and then nothing.
#[derive(Drop)]
struct Interrupted {
    calls: u32,
}

impl Write for Interrupted {
    fn write(&mut self, piece: &[u8]) -> io::Result<usize> {
        self.calls = self.calls.saturating_add(1);
        match self.calls {
            1 => Err(io::Error::from(ErrorKind::Interrupted)),
            2 | 3 => Ok(piece.len().min(1)),
            _ => Ok(0),
        }
    }

    fn flush(&mut self) -> io::Result<()> {
        Ok(())
    }
}

/// Whether a sink asks a writer again that was interrupted, and fails where it takes nothing.
fn interrupted_is_asked_again() -> bool {
    let mut sink = OutSink::new(Interrupted { calls: 0 });
    sink.write(b"abc") == Ok(1)
        && sink.write(b"bc") == Ok(1)
        && sink.write(b"c") == Err(OutsideFault::Failed)
}

#[test]
fn an_interrupted_write_is_done_again(rt: HostRuntime) {
    assert!(rt; interrupted_is_asked_again());
}
