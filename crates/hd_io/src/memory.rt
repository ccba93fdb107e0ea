//! The forms in memory, which tell what they hold and fail where they are told to.

mod calls;
mod file;
mod rack;
mod shelf;
mod sink;

pub use file::MemoryFile;
pub use rack::MemoryRack;
pub use shelf::MemoryShelf;
pub use sink::MemorySink;
