//! Reads the layers of a case.

ghost use Rattle.std.specs.Prelude.{All, IfOk, IfSome, IsTrue};
ghost use Rattle.hd_layer.specs.WellFormed.{is_layer};

use hd_stack::Stack;
use hd_usda::{LayerSpec, read_layer};
use std::{fs, io};

/// The layers of these files, or `None` where one is refused.
fn layers_of(rt: HostRuntime, names: &[String]) -> io::Result<Option<Vec<LayerSpec>>>
    ensures { IfOk result (λ found. IfSome found (λ layers. All (λ layer. IsTrue (is_layer layer)) layers.items)) }
{
    let mut layers = Vec::new(rt.alloc());
    for name in names {
        let text = fs::read_to_string(&rt, name.as_str())?;
        match read_layer(rt.alloc(), text.as_bytes()) {
            Ok(layer) => layers.push(layer)?,
            Err(_) => return Ok(None),
        }
    }
    Ok(Some(layers))
}

/// The stack of these files. `None` where one is refused, or where there are none or more than eight.
pub fn stack_of(rt: HostRuntime, names: &[String]) -> io::Result<Option<Stack>> {
    let Some(layers) = layers_of(rt, names)? else {
        return Ok(None);
    };
    if layers.is_empty() || layers.len() > 8 {
        return Ok(None);
    }
    Ok(Some(Stack::new(rt.alloc(), layers)?))
}
