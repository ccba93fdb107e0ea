//! What a case has written, as text.

use crate::picture::{picture_of, push_picture};
use hd_io::MemoryRack;
use std::alloc::{AllocError, Global};

/// Adds lines, each indented. One that was not written to its end is followed by `\`.
pub fn push_lines(text: &mut String, bytes: &[u8]) -> Result<(), AllocError> {
    let lines = str::from_utf8(bytes).unwrap_or("(no text)\n");
    for line in lines.split_inclusive('\n') {
        text.push_str("  ")?;
        text.push_str(line)?;
        if !line.ends_with('\n') {
            text.push_str("\\\n")?;
        }
    }
    Ok(())
}

/// A number that tells one file's bytes from another's: 31 times what the bytes before give, and the byte, below 2^32.
fn checksum(bytes: &[u8]) -> u32 {
    let mut sum = 7u32;
    for byte in bytes {
        sum = sum.wrapping_mul(31).wrapping_add(u32::from(*byte));
    }
    sum
}

/// Adds a file: of a picture its pixels, and of a text its lines.
fn push_file(alloc: Global, text: &mut String, name: &str, bytes: &[u8]) -> Result<(), AllocError> {
    let sum = checksum(bytes);
    let head = format!(in alloc; "  file {name}: {} bytes, checksum {sum}\n", bytes.len())?;
    text.push_str(&head)?;
    if !bytes.starts_with(b"P6\n") {
        return push_lines(text, bytes);
    }
    match picture_of(bytes) {
        Some(picture) => push_picture(alloc, text, &picture),
        None => text.push_str("  no whole picture\n"),
    }
}

/// Adds the files in the order in which they were created.
pub fn push_files(alloc: Global, text: &mut String, rack: &MemoryRack) -> Result<(), AllocError> {
    for number in 0..rack.count() {
        let (name, bytes) = rack.file(number);
        push_file(alloc, text, name, bytes)?;
    }
    Ok(())
}
