//! Laws of tokens and of numbers, each the contract of a function that does nothing.

ghost use Rattle.hd_lexer.specs.Laws.{TokensAreTheText, ZeroIsExact, OneIsExact, TurnIsExact};

/// Nothing of a text is lost or made: its tokens and the blanks between them are the text, in order.
pub fn tokens_are_the_text()
    ensures { TokensAreTheText }
{}

/// Numbers are judged by their exact value, whatever their exponent: what passes for 0, for 1 and for a multiple of 90 is
/// one, and what does not pass is none.
pub fn numbers_are_judged_exactly()
    ensures zero { ZeroIsExact }
    ensures one { OneIsExact }
    ensures turn { TurnIsExact }
{}
