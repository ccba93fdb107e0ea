//! Entries at and below a path.

ghost use Rattle.std.specs.Prelude.{◌≡◌, false, true, None, if◌then◌else◌, OnOk, IfOk, IfSome, IfNone, IsSome};
ghost use Rattle.std.specs.BTreeMap.{get};
ghost use Rattle.hd_path.specs.Paths as paths;
ghost use Rattle.hd_path.specs.Paths.{path_cmp, is_prefix};

use crate::tracker::Tracked;
use hd_path::Path;
use std::alloc::AllocError;
use std::collections::BTreeMap;

/// Takes out what is at and below a path.
pub(crate) fn remove_below(kept: &mut BTreeMap<Path, Tracked>, path: &Path)
    ensures { (p : paths.Path) → get path_cmp kept.new p ≡ (if is_prefix path.now p then None else get path_cmp kept.old p) }
{
    if remove_each(kept, path).is_err() {
        // A path could not be copied: look at all of them instead.
        remove_by_test(kept, path);
    }
}

/// Takes out what is at and below a path, and looks at no more than that and the entry after it. Refused it took out a
/// part.
fn remove_each(kept: &mut BTreeMap<Path, Tracked>, path: &Path) -> Result<(), AllocError>
    ensures others { (p : paths.Path) → is_prefix path.now p ≡ false → get path_cmp kept.new p ≡ get path_cmp kept.old p }
    ensures all { OnOk result ((p : paths.Path) → is_prefix path.now p ≡ true → get path_cmp kept.new p ≡ None) }
{
    while let Some(first) = first_below(kept, path)? {
        let _ = kept.remove(&first);
    }
    Ok(())
}

/// The first key at or below a path.
fn first_below(kept: &BTreeMap<Path, Tracked>, path: &Path) -> Result<Option<Path>, AllocError>
    ensures found { IfOk result (λ first. IfSome first (λ p. (is_prefix path.now p ≡ true) × IsSome (get path_cmp kept.now p))) }
    ensures none { IfOk result (λ first. IfNone first ((p : paths.Path) → is_prefix path.now p ≡ true → get path_cmp kept.now p ≡ None)) }
{
    match kept.range(path..).next() {
        Some((first, _)) => {
            if first.has_prefix(path) {
                Ok(Some(first.copy()?))
            } else {
                Ok(None)
            }
        }
        None => Ok(None),
    }
}

/// Takes out what is at and below a path, and looks at all entries.
fn remove_by_test(kept: &mut BTreeMap<Path, Tracked>, path: &Path)
    ensures { (p : paths.Path) → get path_cmp kept.new p ≡ (if is_prefix path.now p then None else get path_cmp kept.old p) }
{
    kept.retain(|key: &Path, _tracked: &mut Tracked| -> bool { !key.has_prefix(path) });
}
