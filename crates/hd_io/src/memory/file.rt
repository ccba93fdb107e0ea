//! A file in memory.

/// A file in memory, with its name.
#[derive(Drop)]
pub struct MemoryFile {
    pub name: String,
    pub bytes: Vec<u8>,
}
