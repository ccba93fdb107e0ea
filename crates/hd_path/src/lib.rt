//! Tokens, which are shared texts, and the paths of prims.
#![tactic(auto)]

mod fault;
mod laws;
mod names;
mod order;
mod path;
mod token;

pub use fault::PathFault;
pub use laws::{fault_is_where_no_path_goes_on, order_is_that_of_texts, text_is_one_to_one};
pub use names::{identifier_len, is_letter, is_word, word_len};
pub use path::Path;
pub use token::Token;

/// How many names a path has at most.
pub const MAX_DEPTH: usize = 32;

/// How many bytes a name has at most.
pub const MAX_NAME_LEN: usize = 64;
