//! The parts of a case's line.

use std::alloc::{AllocError, Global};

/// The parts of a case. A part that is not there is empty.
#[derive(Clone, Copy)]
pub struct Case<'a> {
    pub words: &'a str,
    pub plan: &'a str,
    pub text: &'a str,
}

/// How many bytes one call of an object moves, and which of its calls fail.
#[derive(Drop)]
pub struct Plan {
    pub piece: usize,
    pub failing: Vec<u64>,
}

/// More than any call moves here.
const AMPLE: usize = 1 << 24;

/// Splits a case's line.
pub fn case_of(line: &str) -> Case<'_> {
    let (front, text) = line.split_once('|').unwrap_or((line, ""));
    let (words, plan) = front.split_once('!').unwrap_or((front, ""));
    Case { words, plan, text }
}

fn number(word: &str) -> u64 {
    word.parse::<u64>().unwrap_or(0)
}

/// What a plan says of the object of this name.
pub fn plan_of(alloc: Global, plan: &str, object: &str) -> Result<Plan, AllocError> {
    let mut words = plan.split_whitespace();
    let mut failing = Vec::new(alloc);
    if words.next() != Some(object) {
        return Ok(Plan {
            piece: AMPLE,
            failing,
        });
    }
    let piece = words.next().map_or(AMPLE, |word| number(word) as usize);
    for word in words {
        failing.push(number(word))?;
    }
    Ok(Plan { piece, failing })
}

/// A line of a text, without the blank on either side that parts it from `|`.
fn without_blanks(line: &str) -> &str {
    let line = line.strip_prefix(' ').unwrap_or(line);
    line.strip_suffix(' ').unwrap_or(line)
}

/// Adds the byte that two digits spell, and what is after them.
fn push_escape(bytes: &mut Vec<u8>, part: &str) -> Result<(), AllocError> {
    let (digits, rest) = part.split_at_checked(2).unwrap_or(("3f", part));
    bytes.push(u8::from_str_radix(digits, 16).unwrap_or(b'?'))?;
    bytes.extend_from_slice(rest.as_bytes())
}

/// Adds a line of a text, of which `\xHH` spells one byte.
fn push_line(bytes: &mut Vec<u8>, line: &str) -> Result<(), AllocError> {
    let mut parts = line.split("\\x");
    bytes.extend_from_slice(parts.next().unwrap_or("").as_bytes())?;
    for part in parts {
        push_escape(bytes, part)?;
    }
    Ok(())
}

/// The bytes of a text whose lines are parted by `|`.
pub fn bytes_of(alloc: Global, text: &str) -> Result<Vec<u8>, AllocError> {
    let mut bytes = Vec::new(alloc);
    for (number, line) in text.split('|').enumerate() {
        if number > 0 {
            bytes.push(b'\n')?;
        }
        push_line(&mut bytes, without_blanks(line))?;
    }
    Ok(bytes)
}
