//! All paths of a scene.

ghost use Rattle.std.specs.Prelude.{◌≡◌, ◌≤◌, ◌+◌, [], ◌∷◌, ◌++◌, length, IfOk, OnOk};
ghost use Rattle.std.specs.FinMap.{keys};
ghost use Rattle.hd_scene.specs.Scenes.{children_of};
ghost use Rattle.hd_scene.specs.inner.Walks.{AppendsBelow};

use crate::scene_index::SceneIndex;
use hd_path::{Path, Token};
use std::alloc::{AllocError, Global};

/// The paths of all prims of a scene, in path order. The children of each are asked once, and no prim is.
pub fn all_paths<I: SceneIndex>(index: &mut I, alloc: Global) -> Result<Vec<Path>, AllocError>
    requires { I.is_in_step index.old }
    ensures paths { IfOk result (λ paths. paths.items ≡ keys (I.scene index.old)) }
    ensures in_step { I.is_in_step index.new }
    ensures same_scene { I.scene index.new ≡ I.scene index.old }
    ensures same_origin { I.origin index.new ≡ I.origin index.old }
    ensures same_pulls { I.pulls index.new ≡ I.pulls index.old }
{
    let mut paths = Vec::new(alloc);
    let root = Path::root();
    add_below(index, alloc, &root, 32, &mut paths)?;
    Ok(paths)
}

/// Appends the paths of the prims below a path, in path order. No path has more names than this one and `left`.
fn add_below<I: SceneIndex>(
    index: &mut I,
    alloc: Global,
    path: &Path,
    left: u32,
    paths: &mut Vec<Path>,
) -> Result<(), AllocError>
    requires in_step { I.is_in_step index.old }
    requires deep { 32 ≤ length path.now + left }
    ensures added { OnOk result (AppendsBelow (I.scene index.old) path.now (children_of (I.scene index.old) path.now) paths.old.items paths.new.items) }
    ensures in_step { I.is_in_step index.new }
    ensures same_scene { I.scene index.new ≡ I.scene index.old }
    ensures same_origin { I.origin index.new ≡ I.origin index.old }
    ensures same_pulls { I.pulls index.new ≡ I.pulls index.old }
{
    if left == 0 {
        return Ok(());
    }
    let names = index.children(alloc, path)?;
    for name in names.items() {
        let child = child_path(path, alloc, name)?;
        paths.push(child.copy()?)?;
        add_below(index, alloc, &child, left - 1, paths)?;
    }
    Ok(())
}

/// The path of a child. Of a prim that is there the call fails for lack of memory alone.
fn child_path(path: &Path, alloc: Global, name: &Token) -> Result<Path, AllocError>
    ensures { IfOk result (λ child. child ≡ path.now ++ name.now ∷ []) }
{
    match path.child(alloc, name.text()) {
        Ok(child) => Ok(child),
        Err(_) => Err(AllocError),
    }
}
