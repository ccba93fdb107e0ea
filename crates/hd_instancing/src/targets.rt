//! The targets of instancers.

ghost use Rattle.std.specs.Prelude.{◌≡◌};
ghost use Rattle.std.specs.FinMap.{get};
ghost use Rattle.hd_tokens.specs.Locators.{prototypes_at};
ghost use Rattle.hd_instancing.specs.Targets.{is_instancer, paths_of, targets_of};
ghost use Rattle.hd_instancing.specs.inner.Tables.{primitive_targets};

use hd_path::{Path, Token};
use hd_scene::Prim;
use hd_tokens::{kinds, locators};
use hd_value::{Container, Source, Value};

/// The targets of what is at a path: an instancer's prototypes.
pub(crate) fn targets_of(prim: &Prim) -> &[Path]
    ensures { result.now ≡ primitive_targets prim.now }
{
    match &prim.values {
        Some(values) => targets_in(&prim.kind, values),
        None => &[],
    }
}

/// The targets of a prim of this kind with these values.
fn targets_in<'a>(kind: &Token, values: &'a Container) -> &'a [Path]
    ensures { result.now ≡ targets_of (record { kind = kind.now; values = values.now }) }
{
    if !is_instancer(kind) {
        return &[];
    }
    prototypes(values)
}

fn is_instancer(kind: &Token) -> bool
    ensures { result ≡ is_instancer kind.now }
{
    kind.text() == kinds::POINT_INSTANCER
}

fn prototypes(values: &Container) -> &[Path]
    ensures { result.now ≡ paths_of (get values.now prototypes_at) }
{
    match values.get_at(locators::PROTOTYPES) {
        Some(Source::Leaf(Value::Paths(paths))) => paths.items(),
        _ => &[],
    }
}
