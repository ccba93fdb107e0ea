//! The values that the properties of a prim author.

ghost use Rattle.std.specs.Prelude.{◌≡◌, All, map, IsTrue, IsPermutation, IfOk, OnOk};
ghost use Rattle.std.specs.Cmp.Lexicographic.{slice_cmp};
ghost use Rattle.std.specs.FinMap.{get};
ghost use Rattle.std.specs.List.Sorted.{IsSortedByKey};
ghost use Rattle.std.specs.Ordering.{nat_cmp};
ghost use Rattle.hd_tokens.specs.Locators.{Locator};
ghost use Rattle.hd_tokens.specs.Properties.{locator_of};
ghost use Rattle.hd_layer.specs.WellFormed.{is_prim_spec};
ghost use Rattle.hd_value.specs.Schema.{IsAuthored};
ghost use Rattle.hd_schema.specs.Authored.{authored_at, with_property, HasValueOf};
ghost use Rattle.hd_schema.specs.inner.FreePlaces.{IsFreeAt};

use crate::locating::locator_of;
use crate::values::value_of;
use hd_layer::{PrimSpec, Property};
use hd_value::Container;
use std::alloc::{AllocError, Global};

/// The values of a prim's properties, each at its locator.
///
/// Lists of points, numbers, words and paths are shared with the prim and not copied. A color by bytes has each
/// channel clamped to 0..255, and of a display color a channel below 1 gives 0 and any other 255. A turn is counted
/// in quarters from 0 to 3. The call fails only where it is out of memory.
pub fn to_container(alloc: Global, prim: &PrimSpec) -> Result<Container, AllocError>
    requires well_formed { IsTrue (is_prim_spec prim.now) }
    ensures values { IfOk result (λ values. (at : Locator) → get values at ≡ authored_at prim.now.properties at) }
    ensures each { IfOk result (λ values. All (HasValueOf values) prim.now.properties) }
    ensures conforms { IfOk result (λ values. IsAuthored values) }
{
    let properties = by_name(alloc, prim.properties.items())?;
    let mut values = Container::new();
    for property in &properties {
        put(alloc, &mut values, property)?;
    }
    Ok(values)
}

/// The properties in the order of their names, in which a container takes many values quickly.
fn by_name(alloc: Global, properties: &[Property]) -> Result<Vec<&Property>, AllocError>
    ensures same { IfOk result (λ sorted. IsPermutation properties.now (map (λ property. property.now) sorted.items)) }
    ensures sorted { IfOk result (λ sorted. IsSortedByKey (λ property. property.now.name) (slice_cmp nat_cmp) sorted.items) }
{
    let mut sorted: Vec<&Property> = Vec::with_capacity(alloc, properties.len())?;
    for property in properties {
        sorted.push(property)?;
    }
    sorted.sort_unstable_by(|p, q| p.name.text().cmp(q.name.text()));
    Ok(sorted)
}

/// Puts the value of a property at its locator.
fn put(alloc: Global, values: &mut Container, property: &Property) -> Result<(), AllocError>
    requires free { IsFreeAt values.old (locator_of property.now.name) }
    ensures ok { OnOk result (values.new ≡ with_property values.old property.now) }
{
    let Some(at) = locator_of(alloc, property.name.text())? else {
        return Ok(());
    };
    match value_of(alloc, property.name.text(), &property.value)? {
        Some(value) => values.set(alloc, &at, value),
        None => Ok(()),
    }
}
