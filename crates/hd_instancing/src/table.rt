//! The table of an instancing: the instancers of each target.

ghost use Rattle.std.specs.Prelude.{◌≡◌, ◌||◌, ◌&&◌, cond, Some, None, IfOk, OnOk};
ghost use Rattle.std.specs.List.{list_any};
ghost use Rattle.std.specs.List.Sorted.{IsStrictlySortedBy};
ghost use Rattle.std.specs.Ordering.{is_eq, eq_by_cmp};
ghost use Rattle.std.specs.BTreeMap as tree;
ghost use Rattle.std.specs.BTreeSet as set;
ghost use Rattle.hd_path.specs.Paths.{path_cmp};
ghost use Rattle.hd_path.specs.Paths;
ghost use Rattle.hd_scene.specs.Scenes.{Scene};
ghost use Rattle.hd_scene.specs.Tells.{is_same_path};
ghost use Rattle.hd_instancing.specs.Targets.{targets_at, has_target, instanced_by};
ghost use Rattle.hd_instancing.specs.inner.Tables.{listed_instancers, has_pair, is_among, Holds, IsUnion};

use crate::targets::targets_of;
use hd_num::List;
use hd_path::Path;
use hd_scene::{SceneIndex, all_paths};
use std::alloc::{AllocError, Global};
use std::collections::{BTreeMap, BTreeSet};

/// The instancers of each target, in path order.
pub(crate) type Table = BTreeMap<Path, List<Path>>;

/// The table of a scene. Each prim is asked once.
pub(crate) fn table_of<I: SceneIndex>(input: &mut I, alloc: Global) -> Result<Table, AllocError>
    requires { I.is_in_step input.old }
    ensures holds { IfOk result (Holds (I.scene input.old)) }
    ensures in_step { I.is_in_step input.new }
    ensures same_scene { I.scene input.new ≡ I.scene input.old }
    ensures same_origin { I.origin input.new ≡ I.origin input.old }
{
    let paths = all_paths(input, alloc)?;
    let mut sets = BTreeMap::new(alloc);
    add_prims(input, alloc, paths.as_slice(), &mut sets)?;
    let table = share_all(alloc, sets)?;
    Ok(table)
}

/// Adds the targets of the prims at some paths.
fn add_prims<I: SceneIndex>(
    input: &mut I,
    alloc: Global,
    paths: &[Path],
    sets: &mut BTreeMap<Path, BTreeSet<Path>>,
) -> Result<(), AllocError>
    requires { I.is_in_step input.old }
    ensures added { OnOk result ((target instancer : Paths.Path) → has_pair sets.new target instancer ≡ (has_pair sets.old target instancer || (is_among instancer paths.now && has_target (I.scene input.old) instancer target))) }
    ensures in_step { I.is_in_step input.new }
    ensures same_scene { I.scene input.new ≡ I.scene input.old }
    ensures same_origin { I.origin input.new ≡ I.origin input.old }
{
    for path in paths {
        add_prim(input, alloc, path, sets)?;
    }
    Ok(())
}

fn add_prim<I: SceneIndex>(
    input: &mut I,
    alloc: Global,
    path: &Path,
    sets: &mut BTreeMap<Path, BTreeSet<Path>>,
) -> Result<(), AllocError>
    requires { I.is_in_step input.old }
    ensures added { OnOk result ((target instancer : Paths.Path) → has_pair sets.new target instancer ≡ (has_pair sets.old target instancer || (eq_by_cmp path_cmp instancer path.now && list_any (λ other. is_same_path other target) (targets_at (I.scene input.old) path.now)))) }
    ensures in_step { I.is_in_step input.new }
    ensures same_scene { I.scene input.new ≡ I.scene input.old }
    ensures same_origin { I.origin input.new ≡ I.origin input.old }
{
    let prim = input.prim(alloc, path)?;
    add_targets(sets, alloc, path, targets_of(&prim))
}

/// Adds an instancer to the sets of its targets.
fn add_targets(
    sets: &mut BTreeMap<Path, BTreeSet<Path>>,
    alloc: Global,
    instancer: &Path,
    targets: &[Path],
) -> Result<(), AllocError>
    ensures { OnOk result ((target path : Paths.Path) → has_pair sets.new target path ≡ (has_pair sets.old target path || (eq_by_cmp path_cmp path instancer.now && list_any (λ other. is_same_path other target) targets.now))) }
{
    for target in targets {
        add_pair(sets, alloc, target, instancer)?;
    }
    Ok(())
}

fn add_pair(
    sets: &mut BTreeMap<Path, BTreeSet<Path>>,
    alloc: Global,
    target: &Path,
    instancer: &Path,
) -> Result<(), AllocError>
    ensures { OnOk result ((other path : Paths.Path) → has_pair sets.new other path ≡ (has_pair sets.old other path || (eq_by_cmp path_cmp path instancer.now && is_same_path target.now other))) }
{
    let mut instancers = take_set(sets, alloc, target);
    instancers.insert(instancer.copy()?)?;
    sets.insert(target.copy()?, instancers)?;
    Ok(())
}

/// Takes the set of a target out, where there is one.
fn take_set(
    sets: &mut BTreeMap<Path, BTreeSet<Path>>,
    alloc: Global,
    target: &Path,
) -> BTreeSet<Path>
    ensures taken { (path : Paths.Path) → set.contains path_cmp result path ≡ has_pair sets.old target.now path }
    ensures rest { (path : Paths.Path) → tree.get path_cmp sets.new path ≡ cond (is_eq (path_cmp target.now path)) None (tree.get path_cmp sets.old path) }
{
    match sets.remove(target) {
        Some(instancers) => instancers,
        None => BTreeSet::new(alloc),
    }
}

/// The table of these sets.
fn share_all(alloc: Global, sets: BTreeMap<Path, BTreeSet<Path>>) -> Result<Table, AllocError>
    ensures listed { IfOk result (λ table. (target path : Paths.Path) → is_among path (listed_instancers table target) ≡ has_pair sets target path) }
    ensures ascending { IfOk result (λ table. (target : Paths.Path) → IsStrictlySortedBy path_cmp (listed_instancers table target)) }
{
    let mut table = BTreeMap::new(alloc);
    for (target, instancers) in sets {
        share(&mut table, alloc, target, instancers)?;
    }
    Ok(table)
}

fn share(
    table: &mut Table,
    alloc: Global,
    target: Path,
    instancers: BTreeSet<Path>,
) -> Result<(), AllocError>
    ensures put { OnOk result ((path : Paths.Path) → tree.get path_cmp table.new path ≡ cond (is_eq (path_cmp target path)) (Some instancers.keys) (tree.get path_cmp table.old path)) }
    ensures ordered { set.IsOrdered path_cmp instancers }
{
    let all = List::of(alloc, in_order(alloc, instancers)?)?;
    table.insert(target, all)?;
    Ok(())
}

/// The paths of a set, in path order.
fn in_order(alloc: Global, paths: BTreeSet<Path>) -> Result<Vec<Path>, AllocError>
    ensures all { IfOk result (λ all. all.items ≡ paths.keys) }
    ensures ordered { set.IsOrdered path_cmp paths }
{
    let mut all = Vec::with_capacity(alloc, paths.len())?;
    for path in paths {
        all.push(path)?;
    }
    Ok(all)
}

/// The instancers of which the path is a target.
pub(crate) fn listed_instancers(table: &Table, path: &Path) -> Result<List<Path>, AllocError>
    ensures { IfOk result (λ all. all ≡ listed_instancers table.now path.now) }
{
    match table.get(path) {
        Some(instancers) => instancers.copy(),
        None => Ok(List::empty()),
    }
}

/// The instancers of the prim at a path. Those of one prefix alone are shared.
pub(crate) fn instancers_of(
    table: &Table,
    alloc: Global,
    path: &Path,
) -> Result<List<Path>, AllocError>
    ensures { IfOk result (λ all. (scene : Scene) → Holds scene table.now → all ≡ instanced_by scene path.now) }
{
    let own = listed_instancers(table, path)?;
    if path.depth() == 0 {
        return Ok(own);
    }
    let parent = path.parent(alloc)?;
    let above = instancers_of(table, alloc, &parent)?;
    union(alloc, own, above)
}

/// Two lists in path order as one.
fn union(alloc: Global, first: List<Path>, second: List<Path>) -> Result<List<Path>, AllocError>
    ensures { IfOk result (IsUnion first second) }
{
    if second.is_empty() {
        return Ok(first);
    }
    if first.is_empty() {
        return Ok(second);
    }
    let mut all = BTreeSet::new(alloc);
    add_paths(&mut all, first.items())?;
    add_paths(&mut all, second.items())?;
    List::of(alloc, in_order(alloc, all)?)
}

fn add_paths(all: &mut BTreeSet<Path>, paths: &[Path]) -> Result<(), AllocError>
    ensures { OnOk result ((path : Paths.Path) → set.contains path_cmp all.new path ≡ (set.contains path_cmp all.old path || is_among path paths.now)) }
{
    for path in paths {
        add_path(all, path)?;
    }
    Ok(())
}

fn add_path(all: &mut BTreeSet<Path>, path: &Path) -> Result<(), AllocError>
    ensures { OnOk result ((other : Paths.Path) → set.contains path_cmp all.new other ≡ (set.contains path_cmp all.old other || eq_by_cmp path_cmp other path.now)) }
{
    all.insert(path.copy()?)?;
    Ok(())
}
