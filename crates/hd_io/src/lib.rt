//! What a program asks of the outside: a shelf to read files from, a rack to write files to, and a sink for lines.
#![tactic(auto)]

mod failures;
mod fault;
mod memory;
mod rack;
mod real;
mod shelf;
mod sink;
mod writing;

pub use fault::OutsideFault;
pub use memory::{MemoryFile, MemoryRack, MemoryShelf, MemorySink};
pub use rack::Rack;
pub use real::{FileRack, FileShelf, OutSink};
pub use shelf::Shelf;
pub use sink::Sink;
pub use writing::{write_file, write_line};
