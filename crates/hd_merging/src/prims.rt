//! What several prims are together.

ghost use Rattle.std.specs.Prelude.{◌≡◌, [], ◌∷◌, List, Option, IfOk};
ghost use Rattle.std.specs.List.{cons_option};
ghost use Rattle.hd_scene.specs.declared.prims.Entry.{Entry};
ghost use Rattle.hd_merging.specs.Merges.{first_kind, merged_prim, merged_entry};

use hd_path::Token;
use hd_scene::Entry;
use hd_value::Container;
use std::alloc::{AllocError, Global};

/// What a prim and weaker ones are together, where these are known to be one already.
pub(crate) fn entry_over(
    alloc: Global,
    strong: Option<Entry>,
    weak: Option<Entry>,
) -> Result<Option<Entry>, AllocError>
    ensures { IfOk result (λ there. (weaker : List Entry) → weak ≡ merged_entry weaker → there ≡ merged_entry (cons_option strong weaker)) }
{
    match (strong, weak) {
        (Some(strong), Some(weak)) => Ok(Some(both(alloc, strong, weak)?)),
        (Some(strong), None) => Ok(Some(strong)),
        (None, weak) => Ok(weak),
    }
}

/// What a prim and a weaker one are together.
fn both(alloc: Global, strong: Entry, weak: Entry) -> Result<Entry, AllocError>
    ensures { IfOk result (λ entry. entry ≡ merged_prim (strong ∷ weak ∷ [])) }
{
    let values = Container::overlay(alloc, &[&strong.values, &weak.values])?;
    Ok(Entry {
        kind: first_of(strong.kind, weak.kind),
        values,
    })
}

/// The first kind, or the second one where that is empty.
fn first_of(strong: Token, weak: Token) -> Token
    ensures { result ≡ first_kind (strong ∷ weak ∷ []) }
{
    if strong.text().is_empty() {
        weak
    } else {
        strong
    }
}
