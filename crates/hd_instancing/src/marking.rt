//! The container of an instanced prim.

ghost use Rattle.std.specs.Prelude.{◌≡◌, IfOk, OnOk};
ghost use Rattle.std.specs.Option.{ForSome};
ghost use Rattle.hd_value.specs.Schema.{IsAuthored};
ghost use Rattle.hd_instancing.specs.Instanced.{with_reset, with_instancers, instanced_values, instanced_primitive};

use hd_num::List;
use hd_path::Path;
use hd_scene::Prim;
use hd_tokens::locators;
use hd_value::{Container, Value};
use std::alloc::{AllocError, Global};

/// The instanced prim, given whether it is a prototype's root, and its instancers.
pub(crate) fn instanced_prim(
    alloc: Global,
    prim: Prim,
    is_root: bool,
    instancers: List<Path>,
) -> Result<Prim, AllocError>
    requires { ForSome prim.values IsAuthored }
    ensures { IfOk result (λ instanced. instanced ≡ instanced_primitive is_root instancers prim) }
{
    let Prim { kind, values } = prim;
    match values {
        Some(values) => Ok(Prim {
            kind,
            values: Some(instanced_values(alloc, values, is_root, instancers)?),
        }),
        None => Ok(Prim { kind, values: None }),
    }
}

fn instanced_values(
    alloc: Global,
    values: Container,
    is_root: bool,
    instancers: List<Path>,
) -> Result<Container, AllocError>
    requires { IsAuthored values }
    ensures { IfOk result (λ instanced. instanced ≡ instanced_values is_root instancers values) }
{
    let mut values = values;
    set_reset(&mut values, alloc, is_root)?;
    set_instancers(&mut values, alloc, instancers)?;
    Ok(values)
}

/// Marks the root of a prototype.
fn set_reset(values: &mut Container, alloc: Global, is_root: bool) -> Result<(), AllocError>
    requires { IsAuthored values.old }
    ensures { OnOk result (values.new ≡ with_reset is_root values.old) }
{
    if !is_root {
        return Ok(());
    }
    values.set_at(alloc, locators::XFORM_RESET, Value::Flag(true))
}

/// Puts the instancers, where there are any.
fn set_instancers(
    values: &mut Container,
    alloc: Global,
    instancers: List<Path>,
) -> Result<(), AllocError>
    ensures { OnOk result (values.new ≡ with_instancers instancers values.old) }
{
    if instancers.is_empty() {
        return Ok(());
    }
    values.locators_are_prefix_free();
    values.set_at(alloc, locators::INSTANCED_BY, Value::Paths(instancers))
}
