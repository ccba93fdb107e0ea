//! A scene in which each prim has what it takes from those above it.

ghost use Rattle.std.specs.Prelude.{◌≡◌, false, IfOk};
ghost use Rattle.std.specs.Borrow.{Lends, sem};
ghost use Rattle.std.specs.FinMap.{get};
ghost use Rattle.hd_value.specs.Schema.{is_instanced};
ghost use Rattle.hd_scene.specs.Scenes.{prim_of, SceneConforms};
ghost use Rattle.hd_flattening.specs.Flat.{ancestors};
ghost use Rattle.hd_flattening.specs.Flattened.{flattened_scene};
ghost use Rattle.hd_flattening.specs.inner.Inheriting.{inherited_from};
ghost use Rattle.hd_flattening.specs.contracts.flattening.Flattening.{the_row};

use crate::flat::flat_prim;
use crate::inherited::Inherited;
use hd_path::{Path, Token};
use hd_scene::{Kept, Prim, SceneIndex};
use hd_value::List;
use std::alloc::{AllocError, Global};
use std::marker::Model;

/// A filter that gives each prim its flat values in place of those that it reads.
///
/// Of the input it reads `xform`, `visibility`, `purpose`, `binding`, `primvars/color8` and `primvars/displayColor`. In
/// place of what is there it gives `xform/matrix` (a matrix from the prim to the world, or `Out`), `visibility` (a
/// flag), `purpose` (a token), `binding` (one path, absent where there is none) and `primvars/color` (colors, empty
/// where there are none). All else passes.
///
/// It is in step where its input is in step, and each value of the input is one that layers author or instancing gives.
#[derive(Drop)]
pub struct Flattening<I> {
    input: I,

    /// The input's scene when a prim was last asked for.
    told: Kept,

    pulls: u64,
}

impl<I> Model for Flattening<I> {
    ghost use Rattle.std.specs.Prelude.{false};
    ghost use Rattle.hd_scene.specs.Filters.{FilterState, filter_code};

    ghost Value = { FilterState I };

    ghost coded = { filter_code I.code };

    ghost view = { λ filter. record { input = filter.input; told = filter.told.scene; pulls = filter.pulls; spent = false } };
}

impl<I> Flattening<I> {
    /// A filter of an input, which takes no memory.
    pub fn new(input: I) -> Flattening<I>
    where
        I: SceneIndex,
        ensures { result ≡ record { input = input; told = I.scene input; pulls = 0; spent = false } }
    {
        let told = Kept::of(&input);
        Flattening {
            input,
            told,
            pulls: 0,
        }
    }

    /// The input.
    pub fn input(&self) -> &I
        ensures { result.now ≡ self.now.input }
    {
        &self.input
    }

    /// The input, to be changed. What is written to it changes nothing else of the filter.
    pub fn input_mut(&mut self) -> &mut I
        ensures* writes_back { sem 𝓛 (Lends (the_row I.row) I.row self.entry result (λ w. record self.old { input = w })) }
        ensures value { result.now ≡ self.old.input }
    {
        &mut self.input
    }
}

impl<I: SceneIndex> SceneIndex for Flattening<I> {
    ghost use Rattle.hd_flattening.specs.Scenes.{flattened_closed};

    type Origin = I::Origin;

    ghost scene = { λ x. flattened_scene (I.scene x.input) };

    ghost origin = { λ x. I.origin x.input };

    ghost is_in_step = { λ x. I.is_in_step x.input × SceneConforms is_instanced (I.scene x.input) };

    ghost pulls = { λ x. x.pulls };

    ghost closed = { λ x in_step. flattened_closed (I.scene x.input) (I.closed x.input in_step.0) };

    fn prim(&mut self, alloc: Global, path: &Path) -> Result<Prim, AllocError> {
        self.pulls = self.pulls.saturating_add(1);
        self.told = Kept::of(&self.input);
        prim_at(&mut self.input, alloc, path)
    }

    fn children(&mut self, alloc: Global, path: &Path) -> Result<List<Token>, AllocError> {
        self.input.children(alloc, path)
    }

    fn pulls(&self) -> u64 {
        self.pulls
    }
}

/// The prim at a path, flattened. The input is asked once for each prim on the way, from the root prim down.
fn prim_at<I: SceneIndex>(input: &mut I, alloc: Global, path: &Path) -> Result<Prim, AllocError>
    requires in_step { I.is_in_step input.old }
    requires conforms { SceneConforms is_instanced (I.scene input.old) }
    ensures value { IfOk result (λ prim. prim ≡ prim_of (get (flattened_scene (I.scene input.old)) path.now)) }
    ensures in_step { I.is_in_step input.new }
    ensures same_scene { I.scene input.new ≡ I.scene input.old }
    ensures same_origin { I.origin input.new ≡ I.origin input.old }
{
    let inherited = inherited_at(input, alloc, path)?;
    let prim = input.prim(alloc, path)?;
    match prim.into_entry() {
        Some(entry) => flat_prim(alloc, &inherited, entry),
        None => Prim::absent(alloc),
    }
}

/// What the prim at a path takes from its ancestors.
fn inherited_at<I: SceneIndex>(
    input: &mut I,
    alloc: Global,
    path: &Path,
) -> Result<Inherited, AllocError>
    requires { I.is_in_step input.old }
    ensures value { IfOk result (λ inherited. inherited ≡ inherited_from (ancestors (I.scene input.old) path.now)) }
    ensures in_step { I.is_in_step input.new }
    ensures same_scene { I.scene input.new ≡ I.scene input.old }
    ensures same_origin { I.origin input.new ≡ I.origin input.old }
{
    if path.depth() < 2 {
        return Ok(Inherited::nothing());
    }
    let parent = path.parent(alloc)?;
    let above = inherited_at(input, alloc, &parent)?;
    let prim = input.prim(alloc, &parent)?;
    above.for_children_of(&prim)
}
