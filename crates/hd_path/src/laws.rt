//! What holds of every path and every text.

ghost use Rattle.hd_path.specs.Laws.{TextSpellsPath, SpelledPathHasText, OrderIsThatOfTexts, FaultIsWhereNoPathGoesOn, ChildFaultIsWhereNoNameGoesOn};

/// Paths and the texts that spell them correspond one to one.
pub fn text_is_one_to_one()
    ensures spelled { TextSpellsPath }
    ensures text { SpelledPathHasText }
{}

/// The order name by name is the byte order of the texts.
pub fn order_is_that_of_texts()
    ensures { OrderIsThatOfTexts }
{}

/// The place in a `Syntax` of `Path::parse` is the first byte at which no names go on, or the length where the text is
/// too short. The same of `child` and identifiers.
pub fn fault_is_where_no_path_goes_on()
    ensures text { FaultIsWhereNoPathGoesOn }
    ensures child { ChildFaultIsWhereNoNameGoesOn }
{}
