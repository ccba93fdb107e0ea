//! Contents by slot, each once, with the number of its users.
#![tactic(auto)]

mod collecting;
mod content;
mod digests;
mod entries;
mod putting;
mod registry;
mod staging;

pub use content::{ArcContent, Content, Entry, Slot};
pub use registry::Registry;
pub use staging::{Staging, Wants};
