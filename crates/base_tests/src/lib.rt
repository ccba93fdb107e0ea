//! Tests of the crates that all others use, over their public calls alone: that a call which takes memory succeeds where
//! there is enough, and what no contract says. What such a call answers is said by its contract.
#![tactic(auto)]

#[cfg(test)]
mod io;
#[cfg(test)]
mod num;
#[cfg(test)]
mod path;
#[cfg(test)]
mod printing;
#[cfg(test)]
mod value;

/// A value that may go to another thread, and be lent to several.
#[cfg(test)]
fn across<T: Send + Sync>(value: T) -> T {
    value
}
