//! The renaming of a prim with all that is below it.

ghost use Rattle.std.specs.Prelude.{◌≡◌, ◌≢◌, ◌⊎◌, [], length, map, false, Ok, OnOk, OnErr, IfOk, IfErr, IsTrue};
ghost use Rattle.std.specs.List.{list_all, list_any};
ghost use Rattle.hd_layer.specs.declared.limits.Which.TheVariants.{Depth};
ghost use Rattle.hd_path.specs.Paths.{is_prefix};
ghost use Rattle.hd_retained.specs.declared.fault.EditFault.TheVariants.{Limit, NoMemory};
ghost use Rattle.hd_retained.specs.Edits.{after_rename, moved_path, is_moved_too_deep, IsRefusal};
ghost use Rattle.hd_retained.specs.inner.Indexed.{layer_in, moved_key, is_key_too_deep, with_copy, with_copies, CanMove, IsIndex, IsPartlyCopied, IsSound};

use crate::fault::EditFault;
use crate::prims::{find, has_parent, put, remove_all, subtree};
use crate::stored::{DepthKey, StoredPrim};
use hd_layer::Which;
use hd_path::{Path, PathFault};
use std::alloc::{AllocError, Global};
use std::collections::BTreeMap;

/// The path with `to` in place of `from`, with which it begins.
fn moved_path(alloc: Global, path: &Path, from: &Path, to: &Path) -> Result<Path, EditFault>
    requires { IsTrue (is_prefix from.now path.now) }
    ensures path { IfOk result (λ names. names ≡ moved_path from.now to.now path.now) }
    ensures shallow { OnOk result (is_moved_too_deep from.now to.now path.now ≡ false) }
    ensures fault { IfErr result (λ fault. (fault ≡ NoMemory) ⊎ ((fault ≡ Limit Depth) × IsTrue (is_moved_too_deep from.now to.now path.now))) }
{
    match path.replace_prefix(alloc, from, to) {
        Ok(names) => Ok(names),
        Err(PathFault::NoMemory) => Err(EditFault::NoMemory),
        Err(_) => Err(EditFault::Limit(Which::Depth)),
    }
}

/// The keys with `to` in place of `from`, with which each of them begins.
fn moved_keys(
    alloc: Global,
    keys: &[DepthKey],
    from: &Path,
    to: &Path,
) -> Result<Vec<DepthKey>, EditFault>
    requires { IsTrue (list_all (λ key. is_prefix from.now key.path) keys.now) }
    ensures keys { IfOk result (λ others. others.items ≡ map (moved_key from.now to.now) keys.now) }
    ensures shallow { OnOk result (list_any (is_key_too_deep from.now to.now) keys.now ≡ false) }
    ensures fault { IfErr result (λ fault. (fault ≡ NoMemory) ⊎ ((fault ≡ Limit Depth) × IsTrue (list_any (is_key_too_deep from.now to.now) keys.now))) }
{
    let mut others = Vec::with_capacity(alloc, keys.len())?;
    for key in keys {
        others.push(DepthKey::of(&moved_path(alloc, &key.path, from, to)?)?)?;
    }
    Ok(others)
}

/// Puts a copy of the prim at one path at another one. Refused it changes nothing.
fn copy_prim(
    prims: &mut BTreeMap<DepthKey, StoredPrim>,
    from: &Path,
    to: &Path,
) -> Result<(), AllocError>
    requires { IsSound prims.old }
    ensures sound { IsSound prims.new }
    ensures ok { OnOk result (layer_in prims.new ≡ with_copy (layer_in prims.old) from.now to.now) }
    ensures err { OnErr result (layer_in prims.new ≡ layer_in prims.old) }
{
    let Some(stored) = find(prims, from)? else {
        return Ok(());
    };
    let copied = stored.copy()?;
    put(prims, to, copied)
}

/// Puts copies of the prims at some keys at as many others, one by one.
fn copy_all(
    prims: &mut BTreeMap<DepthKey, StoredPrim>,
    keys: &[DepthKey],
    others: &[DepthKey],
) -> Result<(), AllocError>
    requires sound { IsSound prims.old }
    requires as_many { length others.now ≡ length keys.now }
    ensures sound { IsSound prims.new }
    ensures ok { OnOk result (layer_in prims.new ≡ with_copies (layer_in prims.old) keys.now others.now) }
    ensures err { OnErr result (IsPartlyCopied (layer_in prims.old) keys.now others.now (layer_in prims.new)) }
{
    for i in 0..keys.len() {
        copy_prim(prims, &keys[i].path, &others[i].path)?;
    }
    Ok(())
}

/// Whether the renaming is refused before a path is moved.
fn check_move(
    alloc: Global,
    prims: &BTreeMap<DepthKey, StoredPrim>,
    from: &Path,
    to: &Path,
) -> Result<(), EditFault>
    requires { IsSound prims.now }
    ensures ok { OnOk result (CanMove (layer_in prims.now) from.now to.now) }
    ensures refusal { IfErr result (IsRefusal (after_rename (layer_in prims.now) from.now to.now)) }
{
    if find(prims, from)?.is_none() {
        return Err(EditFault::NoPrim);
    }
    if to.has_prefix(from) {
        return Err(EditFault::UnderItself);
    }
    if !has_parent(alloc, prims, to)? {
        return Err(EditFault::NoPrim);
    }
    if find(prims, to)?.is_some() {
        return Err(EditFault::PrimThere);
    }
    Ok(())
}

/// Moves the prims at and below a path to another one. The copies are put first, and taken out again where memory runs
/// out.
pub(crate) fn rename(
    prims: &mut BTreeMap<DepthKey, StoredPrim>,
    alloc: Global,
    from: &Path,
    to: &Path,
) -> Result<(), EditFault>
    requires index { IsIndex prims.old }
    requires from { from.now ≢ [] }
    requires to { to.now ≢ [] }
    ensures index { IsIndex prims.new }
    ensures done { OnOk result (after_rename (layer_in prims.old) from.now to.now ≡ Ok (layer_in prims.new)) }
    ensures refusal { IfErr result (IsRefusal (after_rename (layer_in prims.old) from.now to.now)) }
    ensures err { OnErr result (layer_in prims.new ≡ layer_in prims.old) }
{
    to.is_path();
    check_move(alloc, prims, from, to)?;
    let keys = subtree(alloc, prims, from)?;
    let others = moved_keys(alloc, &keys, from, to)?;
    if copy_all(prims, &keys, &others).is_err() {
        remove_all(prims, &others);
        return Err(EditFault::NoMemory);
    }
    remove_all(prims, &keys);
    Ok(())
}
