//! Where the values of properties are.

ghost use Rattle.std.specs.Prelude.{◌≡◌, IfOk};
ghost use Rattle.std.specs.Option.{option_map};
ghost use Rattle.hd_tokens.specs.Properties.{named_property, locator_of};
ghost use Rattle.hd_schema.specs.Places.{locators_of};

use hd_path::Token;
use hd_tokens::locators::xform_op;
use hd_tokens::{OP_PREFIX, content_of, named_property};
use hd_value::{Locator, LocatorSet};
use std::alloc::{AllocError, Global};

/// The locator of the value of a used property, alone in a set; the empty set for every other name.
///
/// A locator has one token (`visibility`, `purpose`, `binding`), two (as `primvars/points`), or three for an op:
/// `xform`, `ops` and the text after `xformOp:`. The call fails only where it is out of memory.
#[tactic(auto, using(crate::proofs::Places::inserted_first))]
pub fn locators_of(alloc: Global, name: &Token) -> Result<LocatorSet, AllocError>
    ensures { IfOk result (λ set. set ≡ locators_of name.now) }
{
    let Some(at) = locator_of(alloc, name.text())? else {
        return Ok(LocatorSet::new(alloc));
    };
    let mut set = LocatorSet::new(alloc);
    set.insert(&at)?;
    Ok(set)
}

/// The locator of the used property of this name: `None` where no used property has the name.
pub fn locator_of(alloc: Global, name: &str) -> Result<Option<Locator>, AllocError>
    ensures { IfOk result (λ at. at ≡ locator_of name.now) }
{
    match name.strip_prefix(OP_PREFIX) {
        Some(rest) => {
            if content_of(name.as_bytes()).is_none() {
                return Ok(None);
            }
            Ok(Some(Locator::of(alloc, &xform_op(rest))?))
        }
        None => named_locator(alloc, name),
    }
}

/// The locator of a property that is no op.
fn named_locator(alloc: Global, name: &str) -> Result<Option<Locator>, AllocError>
    ensures { IfOk result (λ at. at ≡ option_map (λ p. p.locator) (named_property name.now)) }
{
    match named_property(name.as_bytes()) {
        Some(property) => Ok(Some(Locator::fixed(alloc, property.locator)?)),
        None => Ok(None),
    }
}
