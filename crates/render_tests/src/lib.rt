//! Tests of the crates below the render index, by their public calls alone.
#![tactic(auto)]

#[cfg(test)]
mod dirty;
#[cfg(test)]
mod number;
#[cfg(test)]
mod registry;
