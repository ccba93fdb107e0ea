//! Worked examples of pictures, by the public calls alone.
#![tactic(auto)]

#[cfg(test)]
mod picture;
