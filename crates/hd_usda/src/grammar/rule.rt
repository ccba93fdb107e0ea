//! What is asked of a property by the place in which it is.

ghost use Rattle.std.specs.Prelude.{◌≡◌, ◌≤◌, OnOk};
ghost use Rattle.hd_usda.specs.reading.Cursor.{count, Gives};
ghost use Rattle.hd_usda.specs.grammar.Rule.{is_for_use, needs_value, rule_of, before_value};

use crate::reading::cursor::Cursor;
use hd_layer::{LayerFault, LayerWhy};
use hd_lexer::Kind;

/// What is asked of a property.
#[derive(Clone, Copy)]
pub enum PropertyRule {
    /// In a class: nothing is said of used properties.
    Any,
    /// In a prim: a used property has the form of its name.
    Used,
    /// In a script: the same, and it has a value.
    Assigned,
}

/// Is a property of a used name used?
pub fn is_for_use(rule: PropertyRule) -> bool
    ensures { result ≡ is_for_use rule }
{
    match rule {
        PropertyRule::Any => false,
        PropertyRule::Used | PropertyRule::Assigned => true,
    }
}

pub fn needs_value(rule: PropertyRule) -> bool
    ensures { result ≡ needs_value rule }
{
    match rule {
        PropertyRule::Any | PropertyRule::Used => false,
        PropertyRule::Assigned => true,
    }
}

/// What is asked in a prim that counts or not.
pub fn rule_of(counts: bool) -> PropertyRule
    ensures { result ≡ rule_of counts }
{
    if counts {
        PropertyRule::Used
    } else {
        PropertyRule::Any
    }
}

/// Is an equals sign next, where a value is needed?
#[tactic(auto, unfolding(crate::specs::grammar::Rule::before_value))]
pub fn before_value(cursor: &Cursor, rule: PropertyRule) -> Result<(), LayerFault>
    ensures { Gives (λ _. cursor.now) result (before_value rule cursor.now) }
{
    if needs_value(rule) && !cursor.is(Kind::Equals) {
        Err(cursor.fault(LayerWhy::Syntax))
    } else {
        Ok(())
    }
}
