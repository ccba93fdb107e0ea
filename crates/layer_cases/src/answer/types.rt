//! The types that an attribute may have.

use super::fault_line;
use hd_usda::{LayerFault, LayerWhy, read_layer};
use std::alloc::{AllocError, Global};

/// Every type that a used attribute may have, and some more.
const ALL: &[&str] = &[
    "point3f[]",
    "point3d[]",
    "point3h[]",
    "color3f[]",
    "color3d[]",
    "color3h[]",
    "float3[]",
    "double3[]",
    "half3[]",
    "int3[]",
    "int[]",
    "token[]",
    "token",
    "int3",
    "float3",
    "double3",
    "half3",
    "float",
    "double",
    "half",
    "matrix4d",
    "point3f",
    "color3f",
    "int",
    "matrix4d[]",
    "float[]",
    "string",
    "string[]",
    "int64[]",
    "uint[]",
    "vector3f[]",
    "normal3f[]",
    "vector3d",
    "matrix3d",
    "quatf",
    "Token",
    "bool",
];

/// Adds the type where the attribute may have it, and the fault where it is another one than that it is left out.
fn add_type(to: &mut String, alloc: Global, one: &str, name: &str) -> Result<(), AllocError> {
    let text = format!(in alloc; "#usda 1.0 def \"P\" {{ {one} {name} }}")?;
    match read_layer(alloc, text.as_bytes()) {
        Ok(_) => write!(to, "{one} "),
        Err(
            LayerFault::At {
                why: LayerWhy::LeftOut,
                ..
            },
        ) => Ok(()),
        Err(fault) => write!(to, "{one}: {}", fault_line(alloc, fault)?),
    }
}

/// The types that the attribute of this name may have without a value.
pub fn line(alloc: Global, name: &str) -> Result<String, AllocError> {
    let mut line = String::new(alloc);
    for one in ALL {
        add_type(&mut line, alloc, one, name)?;
    }
    format!(in alloc; "{}\n", line.trim_end())
}
