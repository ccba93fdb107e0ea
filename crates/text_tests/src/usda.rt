//! Copies of layers, which no case of `layer_cases` makes.

use crate::across;
use hd_usda::{LayerSpec, PrimSpec, Property, RawValue, read_layer};
use std::alloc::{AllocError, Global};

/// Whether the only property of a prim has the numbers that are in the text.
fn has_counts(properties: &[Property]) -> Result<bool, AllocError> {
    match properties {
        [property] => match across(property.copy()?).value.copy()? {
            RawValue::Numbers(numbers) => Ok(numbers.items() == [3, 4].as_slice()),
            _ => Ok(false),
        },
        _ => Ok(false),
    }
}

/// Whether a copy of a prim has the type and the numbers that are in the text.
fn prim_is_copied(prim: &PrimSpec) -> Result<bool, AllocError> {
    let copied = across(prim.copy()?);
    Ok(copied.kind.text() == "Mesh" && has_counts(copied.properties.items())?)
}

/// Whether a copy of a layer has the layer's only prim.
fn prims_are_copied(layer: &LayerSpec) -> Result<bool, AllocError> {
    match across(layer.copy()?).prims.items() {
        [prim] => prim_is_copied(prim),
        _ => Ok(false),
    }
}

fn layer_is_copied(alloc: Global) -> bool {
    match read_layer(
        alloc,
        b"#usda 1.0 def Mesh \"A\" { int[] faceVertexCounts = [3, 4] }".as_slice(),
    ) {
        Ok(layer) => prims_are_copied(&layer) == Ok(true),
        Err(_) => false,
    }
}

#[test]
fn a_layer_is_copied(rt: HostRuntime) {
    assert!(rt; layer_is_copied(rt.alloc()));
}
