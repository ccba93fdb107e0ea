//! Reading tokens from left to right.

pub mod cursor;
pub mod text;
pub mod words;
