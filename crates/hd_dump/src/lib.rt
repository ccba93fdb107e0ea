//! The dump of a table of rows: a line for each row, and a line for each buffer that the rows share.
#![tactic(auto)]

mod dump;
mod items;
mod lines;
mod text;
mod users;

pub use dump::dump_text;
