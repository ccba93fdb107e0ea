//! The text of a case. Bytes that a file can't show, and long texts, are between `«` and `»`: `«0d»` is the byte of
//! that hexadecimal number, and `«3×[»` is `[[[`. In what is repeated `№` is for the number of the repetition.

use std::alloc::{AllocError, Global};

/// Adds a text so many times.
fn add_times(to: &mut Vec<u8>, alloc: Global, count: u32, part: &str) -> Result<(), AllocError> {
    for i in 1..=count {
        let number = format!(in alloc; "{i}")?;
        for (j, piece) in part.split('№').enumerate() {
            if j > 0 {
                to.extend_from_slice(number.as_bytes())?;
            }
            to.extend_from_slice(piece.as_bytes())?;
        }
    }
    Ok(())
}

/// Adds what is between `«` and `»`.
fn add_short(to: &mut Vec<u8>, alloc: Global, short: &str) -> Result<(), AllocError> {
    match short.split_once('×') {
        Some((count, part)) => add_times(to, alloc, count.parse().unwrap_or(0), part),
        None => Ok(to.push(u8::from_str_radix(short, 16).unwrap_or(b'?'))?),
    }
}

/// The bytes that the text is for.
pub fn expanded(alloc: Global, text: &str) -> Result<Vec<u8>, AllocError> {
    let mut all = Vec::new(alloc);
    for part in text.split('«') {
        match part.split_once('»') {
            Some((short, plain)) => {
                add_short(&mut all, alloc, short)?;
                all.extend_from_slice(plain.as_bytes())?;
            }
            None => all.extend_from_slice(part.as_bytes())?,
        }
    }
    Ok(all)
}
