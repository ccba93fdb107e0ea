//! One property with its value, as the text of a script has it.

ghost use Rattle.std.specs.Prelude.{◌≡◌, Ok, IsTrue, IfOk, IfErr, IfSome};
ghost use Rattle.hd_layer.specs.WellFormed.{is_property};
ghost use Rattle.hd_usda.specs.reading.Cursor.{Gives, Fails};
ghost use Rattle.hd_usda.specs.Statement.{ends, first_of, statement, reads_property};

use crate::grammar::kept::PrimProperties;
use crate::grammar::property::property;
use crate::grammar::rule::PropertyRule;
use crate::reading::cursor::Cursor;
use hd_layer::{LayerFault, LayerWhy, Property};
use hd_lexer::Kind;
use std::alloc::Global;

/// Is no token left?
#[tactic(auto, unfolding(crate::specs::Statement::ends))]
fn ends(cursor: &Cursor) -> Result<(), LayerFault>
    ensures { Gives (λ _. cursor.now) result (ends cursor.now) }
{
    if cursor.is(Kind::End) {
        Ok(())
    } else {
        Err(cursor.fault(LayerWhy::Syntax))
    }
}

/// The first property, if there is one.
fn first_of(values: Vec<Property>) -> Option<Property>
    ensures { result ≡ first_of values.items }
{
    values.into_iter().next()
}

/// Reads one property to the end of the text.
#[tactic(auto, unfolding(crate::specs::Statement::statement))]
fn statement(alloc: Global, cursor: &mut Cursor) -> Result<Option<Property>, LayerFault>
    ensures { Gives (λ property. property) result (statement cursor.old) }
{
    if cursor.is_word(b"variantSet") {
        return Err(cursor.fault(LayerWhy::LeftOut));
    }
    let mut body = PrimProperties::new(alloc);
    property(alloc, cursor, PropertyRule::Assigned, &mut body)?;
    ends(cursor)?;
    let PrimProperties {
        properties: _,
        values,
    } = body;
    Ok(first_of(values))
}

/// The used property with a value that the text spells, and `None` for one that is not used.
///
/// It is read as a property of a prim is, but that it has a value. The value has the form of its property and is
/// within its bounds.
///
/// # Errors
///
/// `At` with line 1 and the first fault of the text, where each tail of a name is left out; `NoMemory` where memory
/// ran out.
#[tactic(auto, unfolding(crate::specs::Statement::reads_property))]
pub fn read_property(alloc: Global, text: &str) -> Result<Option<Property>, LayerFault>
    ensures property { IfOk result (λ property. reads_property text.now ≡ Ok property) }
    ensures well_formed { IfOk result (λ found. IfSome found (λ property. IsTrue (is_property property))) }
    ensures fault { IfErr result (λ fault. Fails fault (reads_property text.now)) }
{
    match statement(alloc, &mut Cursor::new(text.as_bytes(), 1)) {
        Ok(property) => Ok(property),
        Err(LayerFault::NoMemory) => Err(LayerFault::NoMemory),
        Err(LayerFault::At { why, .. }) => Err(LayerFault::At { line: 1, why }),
    }
}
