//! The tokens of scene text, and the numbers that they spell.
#![tactic(auto)]

mod decimal;
mod exact;
pub mod laws;
mod lexer;

pub use decimal::{Decimal, amount, is_fractional, parts_of};
pub use exact::{is_one, is_turn, is_zero};
pub use lexer::{Kind, RawToken, is_space, line_over, passed, raw_token_at, without_blanks};
