//! Laws of products, turns and moved points, each the contract of a function that does nothing.

ghost use Rattle.hd_num.specs.Laws.{ProductIsAssociative, ComposingIsAssociative, IdentityIsNeutral, ProductMovesInTurn, IdentityMovesNothing, TranslationAdds, ScalingMultiplies, FourTurnsAreNone, TurnsRepeat};

/// The product is associative.
pub fn product_is_associative()
    ensures { ProductIsAssociative }
{}

/// Composing is associative, where neither inner product leaves the range.
pub fn composing_is_associative()
    ensures { ComposingIsAssociative }
{}

/// The identity is neutral on both sides.
pub fn identity_is_neutral()
    ensures { IdentityIsNeutral }
{}

/// A product moves a point by one matrix and then by the other.
pub fn product_moves_in_turn()
    ensures { ProductMovesInTurn }
{}

/// The identity leaves each point where it is.
pub fn identity_moves_nothing()
    ensures { IdentityMovesNothing }
{}

/// A translation adds its vector.
pub fn translation_adds()
    ensures { TranslationAdds }
{}

/// A scaling multiplies component by component.
pub fn scaling_multiplies()
    ensures { ScalingMultiplies }
{}

/// Four quarter turns about an axis are none.
pub fn four_turns_are_none()
    ensures { FourTurnsAreNone }
{}

/// Four more quarter turns change nothing.
pub fn turns_repeat()
    ensures { TurnsRepeat }
{}
