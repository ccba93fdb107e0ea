//! The edits of a layer, but for the renaming.

ghost use Rattle.std.specs.Prelude.{◌≡◌, ◌≢◌, [], Ok, OnOk, OnErr, IfOk, IfErr, IsTrue};
ghost use Rattle.hd_layer.specs.WellFormed.{is_property};
ghost use Rattle.hd_retained.specs.Edits.{is_full_for, after_define, after_set, after_clear, after_remove, IsRefusal};
ghost use Rattle.hd_retained.specs.inner.Indexed.{layer_in, IsSound, IsIndex};

use crate::fault::EditFault;
use crate::prims::{find, has_parent, put, remove_all, subtree};
use crate::stored::{DepthKey, StoredPrim};
use hd_layer::{Property, Which};
use hd_path::{Path, Token};
use std::alloc::{AllocError, Global};
use std::collections::BTreeMap;

/// Whether a prim at the path would be one more than a layer may have.
fn is_full_for(prims: &BTreeMap<DepthKey, StoredPrim>, path: &Path) -> Result<bool, AllocError>
    requires { IsSound prims.now }
    ensures { IfOk result (λ yes. yes ≡ is_full_for (layer_in prims.now) path.now) }
{
    if find(prims, path)?.is_some() {
        return Ok(false);
    }
    Ok(prims.len() as u64 >= Which::Prims.number())
}

/// Puts a prim of this kind, without properties, at a path.
pub(crate) fn define(
    prims: &mut BTreeMap<DepthKey, StoredPrim>,
    alloc: Global,
    kind: &Token,
    path: &Path,
) -> Result<(), EditFault>
    requires index { IsIndex prims.old }
    requires below_root { path.now ≢ [] }
    ensures index { IsIndex prims.new }
    ensures done { OnOk result (after_define (layer_in prims.old) kind.now path.now ≡ Ok (layer_in prims.new)) }
    ensures refusal { IfErr result (IsRefusal (after_define (layer_in prims.old) kind.now path.now)) }
    ensures err { OnErr result (layer_in prims.new ≡ layer_in prims.old) }
{
    path.is_path();
    if !has_parent(alloc, prims, path)? {
        return Err(EditFault::NoPrim);
    }
    if is_full_for(prims, path)? {
        return Err(EditFault::Limit(Which::Prims));
    }
    put(prims, path, StoredPrim::of_kind(kind)?)?;
    Ok(())
}

/// Sets a property of the prim at a path.
pub(crate) fn set(
    prims: &mut BTreeMap<DepthKey, StoredPrim>,
    alloc: Global,
    path: &Path,
    property: &Property,
) -> Result<(), EditFault>
    requires index { IsIndex prims.old }
    requires below_root { path.now ≢ [] }
    requires formed { IsTrue (is_property property.now) }
    ensures index { IsIndex prims.new }
    ensures done { OnOk result (after_set (layer_in prims.old) path.now property.now ≡ Ok (layer_in prims.new)) }
    ensures refusal { IfErr result (IsRefusal (after_set (layer_in prims.old) path.now property.now)) }
    ensures err { OnErr result (layer_in prims.new ≡ layer_in prims.old) }
{
    let Some(stored) = find(prims, path)? else {
        return Err(EditFault::NoPrim);
    };
    let changed = stored.with(alloc, path, property)?;
    put(prims, path, changed)?;
    Ok(())
}

/// Takes the property of this name from the prim at a path.
pub(crate) fn clear(
    prims: &mut BTreeMap<DepthKey, StoredPrim>,
    alloc: Global,
    path: &Path,
    name: &Token,
) -> Result<(), EditFault>
    requires index { IsIndex prims.old }
    requires below_root { path.now ≢ [] }
    ensures index { IsIndex prims.new }
    ensures done { OnOk result (after_clear (layer_in prims.old) path.now name.now ≡ Ok (layer_in prims.new)) }
    ensures refusal { IfErr result (IsRefusal (after_clear (layer_in prims.old) path.now name.now)) }
    ensures err { OnErr result (layer_in prims.new ≡ layer_in prims.old) }
{
    let Some(stored) = find(prims, path)? else {
        return Err(EditFault::NoPrim);
    };
    let changed = stored.without(alloc, path, name)?;
    put(prims, path, changed)?;
    Ok(())
}

/// Takes out the prims at and below a path.
pub(crate) fn remove(
    prims: &mut BTreeMap<DepthKey, StoredPrim>,
    alloc: Global,
    path: &Path,
) -> Result<(), EditFault>
    requires index { IsIndex prims.old }
    requires below_root { path.now ≢ [] }
    ensures index { IsIndex prims.new }
    ensures done { OnOk result (after_remove (layer_in prims.old) path.now ≡ Ok (layer_in prims.new)) }
    ensures refusal { IfErr result (IsRefusal (after_remove (layer_in prims.old) path.now)) }
    ensures err { OnErr result (layer_in prims.new ≡ layer_in prims.old) }
{
    if find(prims, path)?.is_none() {
        return Err(EditFault::NoPrim);
    }
    let keys = subtree(alloc, prims, path)?;
    remove_all(prims, &keys);
    Ok(())
}
