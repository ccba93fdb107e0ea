//! What a prim has of its properties.

ghost use Rattle.std.specs.Prelude.{◌≡◌, IsAscii, OnOk, IfErr};
ghost use Rattle.hd_layer.specs.declared.fault.LayerFault.TheVariants.{NoMemory};
ghost use Rattle.hd_usda.specs.grammar.Kept.{no_properties, with_value};
ghost use Rattle.hd_usda.specs.inner.PropertyViews.{properties_view};

use crate::grammar::name_set::NameSet;
use crate::reading::text::as_token;
use hd_layer::{LayerFault, Property, RawValue};
use std::alloc::Global;

/// What a prim has so far: the names of its properties with their tails, and the used ones.
#[derive(Drop)]
pub struct PrimProperties {
    pub properties: NameSet,
    pub values: Vec<Property>,
}

impl PrimProperties {
    pub fn new(alloc: Global) -> PrimProperties
        ensures { properties_view result ≡ no_properties }
    {
        PrimProperties {
            properties: NameSet::new(alloc),
            values: Vec::new(alloc),
        }
    }
}

/// Keeps a value.
pub fn keep(
    alloc: Global,
    body: &mut PrimProperties,
    name: &[u8],
    value: RawValue,
) -> Result<(), LayerFault>
    requires { IsAscii name.now }
    ensures kept { OnOk result (properties_view body.new ≡ with_value (properties_view body.old) (record { name = name.now; value = value })) }
    ensures memory { IfErr result (λ fault. fault ≡ NoMemory) }
{
    let name = as_token(alloc, name)?;
    body.values.push(Property { name, value })?;
    Ok(())
}
