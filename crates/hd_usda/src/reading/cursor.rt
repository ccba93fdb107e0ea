//! The tokens that are left of a text, of which the first is held.

ghost use Rattle.std.specs.Prelude.{◌≡◌, ◌≤◌, ◌<◌, true, false, IsAscii, OnOk, if◌then◌else◌};
ghost use Rattle.std.specs.Bool.{OnTrue};
ghost use Rattle.hd_layer.specs.declared.fault.LayerFault.TheVariants.{At};
ghost use Rattle.hd_lexer.specs.declared.lexer.Kind.TheVariants.{End, Word};
ghost use Rattle.hd_lexer.specs.Lexing.{tokens_from};
ghost use Rattle.hd_usda.specs.reading.Cursor.{kind, text, line_of, rest, count, is, is_word, same_kind, take, past_one, Gives};

use hd_layer::{LayerFault, LayerWhy};
use hd_lexer::{Kind, RawToken, passed, raw_token_at, without_blanks};
use std::marker::Model;

/// A text that is read once, from left to right: the tokens that are left of it.
#[derive(Drop)]
pub struct Cursor<'a> {
    /// The bytes from the first of these tokens on.
    rest: &'a [u8],
    line: u32,
    first: RawToken<'a>,
}

impl<'a> Model for Cursor<'a> {
    ghost use Rattle.hd_lexer.specs.Lexing.{Tokens, tokens_from};
    ghost use Rattle.hd_lexer.specs.inner.Scanned.{IsFirst};

    ghost Value = { Tokens };

    ghost view = { λ c. tokens_from c.line c.rest.now };

    ghost invariant = { λ c. IsFirst c.rest.now c.first };
}

impl<'a> Cursor<'a> {
    /// The tokens of the bytes, which begin in this line.
    pub fn new(bytes: &'a [u8], line: u32) -> Self
        ensures { result ≡ tokens_from line bytes.now }
    {
        let (rest, line) = without_blanks(bytes, line);
        Cursor {
            rest,
            line,
            first: raw_token_at(rest),
        }
    }

    /// What the next token is.
    pub fn kind(&self) -> Kind
        ensures { result ≡ kind self.now }
    {
        self.first.kind
    }

    /// What the next token says.
    pub fn text(&self) -> &'a [u8]
        ensures text { result.now ≡ text self.now }
        ensures word { is Word self.now ≡ true → IsAscii result.now }
    {
        self.first.text
    }

    /// The line of the next token.
    pub fn line(&self) -> u32
        ensures { result ≡ line_of self.now }
    {
        self.line
    }

    /// A fault at the next token.
    pub fn fault(&self, why: LayerWhy) -> LayerFault
        ensures { result ≡ At (line_of self.now) why }
    {
        LayerFault::At {
            line: self.line(),
            why,
        }
    }

    /// Passes the next token; the end stays.
    pub fn next(&mut self)
        ensures { self.new ≡ rest self.old }
    {
        if !self.rest.is_empty() {
            let (rest, line) = passed(self.rest, self.line, self.first.more);
            *self = Cursor::new(rest, line);
        }
    }

    /// Is the next token of this kind?
    #[tactic(auto, unfolding(crate::specs::reading::Cursor::is))]
    pub fn is(&self, kind: Kind) -> bool
        ensures { result ≡ is kind self.now }
    {
        self.kind() as u8 == kind as u8
    }

    /// Is the next token this word?
    #[tactic(auto, unfolding(crate::specs::reading::Cursor::is_word))]
    pub fn is_word(&self, word: &[u8]) -> bool
        ensures { result ≡ is_word word.now self.now }
    {
        self.is(Kind::Word) && self.text() == word
    }

    /// Passes the next token if it is of this kind.
    #[tactic(auto, unfolding(crate::specs::reading::Cursor::past_one))]
    pub fn passes(&mut self, kind: Kind) -> bool
        requires { same_kind End kind ≡ false }
        ensures found { result ≡ is kind self.old }
        ensures rest { self.new ≡ (if result then rest self.old else self.old) }
        ensures past { self.new ≡ past_one kind self.old }
        ensures fewer { OnTrue result (count self.new < count self.old) }
    {
        let found = self.is(kind);
        if found {
            self.next();
        }
        found
    }

    /// Passes the next token if it is this word.
    #[tactic(auto, unfolding(crate::specs::reading::Cursor::is_word))]
    pub fn passes_word(&mut self, word: &[u8]) -> bool
        ensures found { result ≡ is_word word.now self.old }
        ensures rest { self.new ≡ (if result then rest self.old else self.old) }
        ensures fewer { OnTrue result (count self.new < count self.old) }
        ensures within { count self.new ≤ count self.old }
    {
        if !self.is_word(word) {
            return false;
        }
        self.passes(Kind::Word)
    }

    /// Is the text at its end? It is then passed.
    pub fn ends(&mut self) -> bool
        ensures found { result ≡ is End self.old }
        ensures rest { self.new ≡ (if result then rest self.old else self.old) }
    {
        let found = self.is(Kind::End);
        if found {
            self.next();
        }
        found
    }

    /// Passes the next token, which is of this kind.
    #[tactic(auto, unfolding(crate::specs::reading::Cursor::take))]
    pub fn take(&mut self, kind: Kind) -> Result<(), LayerFault>
        requires { same_kind End kind ≡ false }
        ensures gives { Gives (λ _. self.new) result (take kind self.old) }
        ensures found { OnOk result (is kind self.old ≡ true) }
        ensures fewer { OnOk result (count self.new < count self.old) }
    {
        if self.passes(kind) {
            Ok(())
        } else {
            Err(self.fault(LayerWhy::Syntax))
        }
    }
}
