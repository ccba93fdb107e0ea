//! The tokens of a locator.

ghost use Rattle.std.specs.Prelude.{◌≡◌, [], nat_eq, IfOk};
ghost use Rattle.std.specs.Cmp;
ghost use Rattle.std.specs.Cmp.Lexicographic.{pointwise, nat_list_eq_equiv};
ghost use Rattle.hd_path.specs.Names.{byte_order};

use hd_path::Token;
use std::alloc::{AllocError, Global};
use std::cmp::Ordering;
use std::marker::Model;

/// A text of a locator that is looked up.
pub(crate) trait LocatorText {
    ghost use Rattle.hd_path.specs.Names.{Name};

    ghost bytes: { Self → Name };

    fn as_text(&self) -> &str
        ensures { result.now ≡ bytes self.now };
}

/// Where the text of a token is.
#[derive(Drop)]
enum Text {
    /// In the program: the text takes no memory.
    Fixed(&'static str),
    Shared(Token),
}

/// A token of a locator.
#[derive(Drop)]
pub struct Element {
    text: Text,
}

impl Model for Element {
    ghost use Rattle.hd_path.specs.Names.{Name};
    ghost use Rattle.hd_value.specs.Locators.{bytes_of};

    ghost Value = { Name };

    ghost view = { λ element. bytes_of element.text };
}

impl Default for Element {
    fn default() -> Element
        ensures { result ≡ [] }
    {
        Element::fixed("")
    }
}

impl PartialEq for Element {
    ghost eq = { pointwise nat_eq };

    ghost laws = { Cmp.partial_equiv_from_equiv nat_list_eq_equiv };

    fn eq(&self, other: &Element) -> bool {
        self.text() == other.text()
    }
}

impl LocatorText for Element {
    ghost bytes = { λ element. element };

    fn as_text(&self) -> &str {
        self.text()
    }
}

impl LocatorText for &str {
    ghost bytes = { λ text. text.now };

    fn as_text(&self) -> &str {
        self
    }
}

impl Element {
    /// A token of the program's own, which takes no memory.
    pub fn fixed(text: &'static str) -> Element
        ensures { result ≡ text.now }
    {
        Element {
            text: Text::Fixed(text),
        }
    }

    pub fn new(alloc: Global, text: &str) -> Result<Element, AllocError>
        ensures { IfOk result (λ element. element ≡ text.now) }
    {
        Ok(Element {
            text: Text::Shared(Token::new(alloc, text)?),
        })
    }

    pub fn text(&self) -> &str
        ensures { result.now ≡ self.now }
    {
        match &self.text {
            Text::Fixed(text) => text,
            Text::Shared(token) => token.text(),
        }
    }

    /// The order of the texts' bytes.
    pub fn compare(&self, other: &Element) -> Ordering
        ensures { result ≡ byte_order self.now other.now }
    {
        self.text().cmp(other.text())
    }

    pub fn copy(&self) -> Result<Element, AllocError>
        ensures { IfOk result (λ copied. copied ≡ self.now) }
    {
        match &self.text {
            Text::Fixed(text) => Ok(Element::fixed(text)),
            Text::Shared(token) => Ok(Element {
                text: Text::Shared(token.copy()?),
            }),
        }
    }
}
