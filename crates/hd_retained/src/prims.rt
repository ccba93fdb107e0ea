//! The prims of a layer by their depth and path.

ghost use Rattle.std.specs.Prelude.{◌≡◌, ◌∷◌, ◌++◌, [], map, filter, OnOk, OnErr, IfOk, IfSome, IsTrue, option_copied};
ghost use Rattle.std.specs.List.{filter_map};
ghost use Rattle.std.specs.Option.{option_map};
ghost use Rattle.std.specs.FinMap.{get, insert};
ghost use Rattle.std.specs.BTreeMap as tree;
ghost use Rattle.hd_scene.specs.Scenes as scene;
ghost use Rattle.hd_scene.specs.Scenes.{child_name, children_of};
ghost use Rattle.hd_layer.specs.WellFormed.{is_layer};
ghost use Rattle.hd_retained.specs.Layers.{layer_of, scene_of, kind_in, ArePathsFrom};
ghost use Rattle.hd_retained.specs.Edits.{has_parent};
ghost use Rattle.hd_retained.specs.inner.Indexed.{depth_key_cmp, is_at_depth, prim_of, layer_in, IsStored, IsSound, IsIndex, IsSubtree, IsWithout};

use crate::stored::{DepthKey, StoredPrim};
use hd_layer::LayerSpec;
use hd_path::{MAX_DEPTH, Path, Token};
use hd_scene::Prim;
use std::alloc::{AllocError, Global};
use std::collections::BTreeMap;

/// The prim at a path.
pub(crate) fn find<'a>(
    prims: &'a BTreeMap<DepthKey, StoredPrim>,
    path: &Path,
) -> Result<Option<&'a StoredPrim>, AllocError>
    requires { IsSound prims.now }
    ensures prim { IfOk result (λ found. option_map prim_of (option_copied found) ≡ get (layer_in prims.now) path.now) }
    ensures stored { IfOk result (λ found. IfSome found (λ stored. IsStored stored.now)) }
{
    let key = DepthKey::of(path)?;
    Ok(prims.get(&key))
}

/// The kind of the prim at a path, if there is one.
pub(crate) fn kind<'a>(
    prims: &'a BTreeMap<DepthKey, StoredPrim>,
    path: &Path,
) -> Result<Option<&'a Token>, AllocError>
    requires { IsSound prims.now }
    ensures { IfOk result (λ kind. option_copied kind ≡ kind_in (layer_in prims.now) path.now) }
{
    match find(prims, path)? {
        Some(stored) => Ok(Some(&stored.kind)),
        None => Ok(None),
    }
}

/// The prim at a path, as the scene has it.
pub(crate) fn prim(
    alloc: Global,
    prims: &BTreeMap<DepthKey, StoredPrim>,
    path: &Path,
) -> Result<Prim, AllocError>
    requires { IsSound prims.now }
    ensures { IfOk result (λ prim. prim ≡ scene.prim_of (get (scene_of (layer_in prims.now)) path.now)) }
{
    match find(prims, path)? {
        Some(stored) => Prim::of(alloc, Some(stored.entry()?)),
        None => Prim::absent(alloc),
    }
}

/// Puts a prim at a path. Refused it changes nothing.
pub(crate) fn put(
    prims: &mut BTreeMap<DepthKey, StoredPrim>,
    path: &Path,
    stored: StoredPrim,
) -> Result<(), AllocError>
    requires sound { IsSound prims.old }
    requires stored { IsStored stored }
    ensures sound { IsSound prims.new }
    ensures ok { OnOk result (layer_in prims.new ≡ insert (layer_in prims.old) path.now (prim_of stored)) }
    ensures err { OnErr result (layer_in prims.new ≡ layer_in prims.old) }
{
    let key = DepthKey::of(path)?;
    prims.insert(key, stored)?;
    Ok(())
}

/// The prims of a layer as a text spells it.
pub(crate) fn of_layer(
    alloc: Global,
    layer: &LayerSpec,
) -> Result<BTreeMap<DepthKey, StoredPrim>, AllocError>
    requires { IsTrue (is_layer layer.now) }
    ensures index { IfOk result IsIndex }
    ensures layer { IfOk result (λ prims. layer_in prims ≡ layer_of layer.now) }
{
    let mut prims = BTreeMap::new(alloc);
    for spec in layer.prims.items() {
        spec.path.is_path();
        put(&mut prims, &spec.path, StoredPrim::of_spec(alloc, spec)?)?;
    }
    Ok(prims)
}

/// Whether a prim may be at a path: its parent is the root, or is there.
pub(crate) fn has_parent(
    alloc: Global,
    prims: &BTreeMap<DepthKey, StoredPrim>,
    path: &Path,
) -> Result<bool, AllocError>
    requires { IsSound prims.now }
    ensures { IfOk result (λ yes. yes ≡ has_parent (layer_in prims.now) path.now) }
{
    if path.depth() <= 1 {
        return Ok(true);
    }
    let parent = path.parent(alloc)?;
    Ok(find(prims, &parent)?.is_some())
}

/// Whether a key has this depth and begins with the path.
fn is_at_depth(key: &DepthKey, depth: usize, path: &Path) -> bool
    ensures { result ≡ is_at_depth depth path.now key.now }
{
    key.depth == depth && key.path.has_prefix(path)
}

/// Adds the keys of one depth that begin with a path, in their order. No other key is looked at, but for the one
/// after them.
fn add_depth(
    prims: &BTreeMap<DepthKey, StoredPrim>,
    depth: usize,
    path: &Path,
    keys: &mut Vec<DepthKey>,
) -> Result<(), AllocError>
    ensures added { OnOk result (keys.new.items ≡ keys.old.items ++ filter (is_at_depth depth path.now) (tree.keys prims.now)) }
    ensures ordered { OnOk result (tree.IsOrdered depth_key_cmp prims.now) }
{
    let start = DepthKey {
        depth,
        path: path.copy()?,
    };
    for (key, _) in prims.range(&start..) {
        if !is_at_depth(key, depth, path) {
            return Ok(());
        }
        keys.push(key.copy()?)?;
    }
    Ok(())
}

/// The keys at and below a path, by their depth.
pub(crate) fn subtree(
    alloc: Global,
    prims: &BTreeMap<DepthKey, StoredPrim>,
    path: &Path,
) -> Result<Vec<DepthKey>, AllocError>
    requires { IsIndex prims.now }
    ensures { IfOk result (λ keys. IsSubtree prims.now path.now keys.items) }
{
    let mut keys = Vec::new(alloc);
    for depth in path.depth()..MAX_DEPTH + 1 {
        add_depth(prims, depth, path, &mut keys)?;
    }
    Ok(keys)
}

/// The paths of the prims at and below a path, by their depth.
pub(crate) fn paths_from(
    alloc: Global,
    prims: &BTreeMap<DepthKey, StoredPrim>,
    path: &Path,
) -> Result<Vec<Path>, AllocError>
    requires { IsIndex prims.now }
    ensures { IfOk result (λ paths. ArePathsFrom (layer_in prims.now) path.now paths.items) }
{
    let keys = subtree(alloc, prims, path)?;
    let mut paths = Vec::with_capacity(alloc, keys.len())?;
    for key in keys {
        paths.push(key.path)?;
    }
    Ok(paths)
}

/// Takes out the prims at these keys.
pub(crate) fn remove_all(prims: &mut BTreeMap<DepthKey, StoredPrim>, keys: &[DepthKey])
    ensures { IsWithout prims.old keys.now prims.new }
{
    for key in keys {
        let _ = prims.remove(key);
    }
}

/// The last name of a path whose parent is the other one.
fn name_below<'a>(parent: &Path, path: &'a Path) -> Option<&'a str>
    ensures { option_copied result ≡ child_name parent.now path.now }
{
    let depth = parent.depth();
    if path.depth() != depth + 1 {
        return None;
    }
    if !path.has_prefix(parent) {
        return None;
    }
    Some(path.name(depth))
}

/// Adds the last name of a path whose parent is the other one.
fn add_name(
    alloc: Global,
    parent: &Path,
    path: &Path,
    names: &mut Vec<Token>,
) -> Result<(), AllocError>
    ensures { OnOk result (names.new.items ≡ names.old.items ++ filter_map (child_name parent.now) (path.now ∷ [])) }
{
    match name_below(parent, path) {
        Some(name) => {
            names.push(Token::new(alloc, name)?)?;
            Ok(())
        }
        None => Ok(()),
    }
}

/// The last names of the keys whose parent is the path.
fn names_of(alloc: Global, parent: &Path, keys: &[DepthKey]) -> Result<Vec<Token>, AllocError>
    ensures { IfOk result (λ names. names.items ≡ filter_map (child_name parent.now) (map (λ key. key.path) keys.now)) }
{
    let mut names = Vec::with_capacity(alloc, keys.len())?;
    for key in keys {
        add_name(alloc, parent, &key.path, &mut names)?;
    }
    Ok(names)
}

/// The names of the prims immediately below a path, in byte order.
pub(crate) fn children(
    alloc: Global,
    prims: &BTreeMap<DepthKey, StoredPrim>,
    path: &Path,
) -> Result<Vec<Token>, AllocError>
    requires { IsSound prims.now }
    ensures { IfOk result (λ names. names.items ≡ children_of (scene_of (layer_in prims.now)) path.now) }
{
    let mut keys = Vec::new(alloc);
    add_depth(prims, path.depth() + 1, path, &mut keys)?;
    names_of(alloc, path, &keys)
}
