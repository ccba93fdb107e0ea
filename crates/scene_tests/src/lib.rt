//! Tests of the scene crates over their public calls: what no stack of layers shows.
#![tactic(auto)]

#[cfg(test)]
mod fixtures;
#[cfg(test)]
mod notices;
#[cfg(test)]
mod texts;
