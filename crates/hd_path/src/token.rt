//! Texts that are shared by their copies.

ghost use Rattle.std.specs.Prelude.{◌≡◌, IfOk};

use std::alloc::{AllocError, Global};
use std::marker::Model;
use std::sync::ArcStr;

/// A text that never changes. A copy shares the text of its source.
#[derive(Drop)]
pub struct Token {
    shared: ArcStr,
}

impl Model for Token {
    ghost use Rattle.std.specs.Prelude.{List, ℕ};
    ghost use Rattle.std.specs.Arc.{arc_str_bytes};

    ghost Value = { List ℕ };

    ghost view = { λ token. arc_str_bytes token.shared };
}

impl Token {
    /// A token with this text, which may be empty.
    pub fn new(alloc: Global, text: &str) -> Result<Token, AllocError>
        ensures { IfOk result (λ token. token ≡ text.now) }
    {
        Ok(Token {
            shared: ArcStr::from_str(alloc, text)?,
        })
    }

    /// The text of the token.
    pub fn text(&self) -> &str
        ensures { result.now ≡ self.now }
    {
        self.shared.as_str()
    }

    /// A token that shares the text of this one.
    pub fn copy(&self) -> Result<Token, AllocError>
        ensures { IfOk result (λ copied. copied ≡ self.now) }
    {
        Ok(Token {
            shared: self.shared.clone()?,
        })
    }
}
