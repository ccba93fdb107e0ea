//! Tests of the reader of scene texts, and of what it makes of properties.
#![tactic(auto)]

#[cfg(test)]
mod schema;
#[cfg(test)]
mod usda;

/// A value that may go to another thread, and be lent to several.
#[cfg(test)]
fn across<T: Send + Sync>(value: T) -> T {
    value
}
