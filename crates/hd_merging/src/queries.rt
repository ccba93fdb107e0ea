//! What inputs answer together. Each is asked, and stays as it is.

ghost use Rattle.std.specs.Prelude.{◌≡◌, ◌<◌, ◌||◌, ℕ, List, length, map, All, Some, IfOk, OnOk, slice_get};
ghost use Rattle.std.specs.List.{list_any};
ghost use Rattle.std.specs.FinMap.{get};
ghost use Rattle.std.specs.BTreeSet as set;
ghost use Rattle.hd_path.specs.Names.{is_same, byte_order};
ghost use Rattle.hd_scene.specs.Scenes.{Scene, prim_of, children_of};
ghost use Rattle.hd_merging.specs.Merges.{merged_scene};

use crate::prims::entry_over;
use hd_num::List;
use hd_path::{Path, Token};
use hd_scene::{Prim, SceneIndex};
use std::alloc::{AllocError, Global};
use std::collections::BTreeSet;

/// The prim that all inputs together have at a path.
pub(crate) fn prim_of_all<I: SceneIndex>(
    inputs: &mut [I],
    alloc: Global,
    path: &Path,
) -> Result<Prim, AllocError>
    requires { All I.is_in_step inputs.old }
    ensures value { IfOk result (λ prim. prim ≡ prim_of (get (merged_scene (map I.scene inputs.old)) path.now)) }
    ensures in_step { All I.is_in_step inputs.new }
    ensures same_scenes { map I.scene inputs.new ≡ map I.scene inputs.old }
    ensures same_origins { map I.origin inputs.new ≡ map I.origin inputs.old }
{
    let mut there = None;
    let mut i = inputs.len();
    while i > 0 {
        i -= 1;
        let prim = prim_of_input(inputs, i, alloc, path)?;
        there = entry_over(alloc, prim.into_entry(), there)?;
    }
    Prim::of(alloc, there)
}

/// The names of the prims that all inputs together have immediately below a path, in byte order.
pub(crate) fn names_below<I: SceneIndex>(
    inputs: &mut [I],
    alloc: Global,
    path: &Path,
) -> Result<List<Token>, AllocError>
    requires { All I.is_in_step inputs.old }
    ensures value { IfOk result (λ names. names ≡ children_of (merged_scene (map I.scene inputs.old)) path.now) }
    ensures in_step { All I.is_in_step inputs.new }
    ensures same_scenes { map I.scene inputs.new ≡ map I.scene inputs.old }
    ensures same_origins { map I.origin inputs.new ≡ map I.origin inputs.old }
{
    let mut names = BTreeSet::new(alloc);
    let mut i = inputs.len();
    while i > 0 {
        i -= 1;
        let more = names_of_input(inputs, i, alloc, path)?;
        add_names(&mut names, more)?;
    }
    List::of(alloc, in_order(alloc, names)?)
}

/// What one input answers for a prim.
fn prim_of_input<I: SceneIndex>(
    inputs: &mut [I],
    i: usize,
    alloc: Global,
    path: &Path,
) -> Result<Prim, AllocError>
    requires in_step { All I.is_in_step inputs.old }
    requires in_range { i < length inputs.old }
    ensures value { IfOk result (λ prim. (scene : Scene) → slice_get (map I.scene inputs.old) i ≡ Some scene → prim ≡ prim_of (get scene path.now)) }
    ensures in_step { All I.is_in_step inputs.new }
    ensures same_scenes { map I.scene inputs.new ≡ map I.scene inputs.old }
    ensures same_origins { map I.origin inputs.new ≡ map I.origin inputs.old }
{
    inputs[i].prim(alloc, path)
}

/// The names of the prims that one input has immediately below a path.
fn names_of_input<I: SceneIndex>(
    inputs: &mut [I],
    i: usize,
    alloc: Global,
    path: &Path,
) -> Result<List<Token>, AllocError>
    requires in_step { All I.is_in_step inputs.old }
    requires in_range { i < length inputs.old }
    ensures value { IfOk result (λ names. (scene : Scene) → slice_get (map I.scene inputs.old) i ≡ Some scene → names ≡ children_of scene path.now) }
    ensures in_step { All I.is_in_step inputs.new }
    ensures same_scenes { map I.scene inputs.new ≡ map I.scene inputs.old }
    ensures same_origins { map I.origin inputs.new ≡ map I.origin inputs.old }
{
    inputs[i].children(alloc, path)
}

/// Adds names to a set.
fn add_names(names: &mut BTreeSet<Token>, more: List<Token>) -> Result<(), AllocError>
    ensures { OnOk result ((name : List ℕ) → set.contains byte_order names.new name ≡ (set.contains byte_order names.old name || list_any (is_same name) more)) }
{
    for name in more.items() {
        add_name(names, name)?;
    }
    Ok(())
}

fn add_name(names: &mut BTreeSet<Token>, name: &Token) -> Result<(), AllocError>
    ensures { OnOk result ((other : List ℕ) → set.contains byte_order names.new other ≡ (set.contains byte_order names.old other || is_same other name.now)) }
{
    names.insert(name.copy()?)?;
    Ok(())
}

/// The names of a set, in byte order.
fn in_order(alloc: Global, names: BTreeSet<Token>) -> Result<Vec<Token>, AllocError>
    ensures all { IfOk result (λ all. all.items ≡ names.keys) }
    ensures ordered { set.IsOrdered byte_order names }
{
    let mut all = Vec::with_capacity(alloc, names.len())?;
    for name in names {
        all.push(name)?;
    }
    Ok(all)
}
