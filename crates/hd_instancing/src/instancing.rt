//! A scene in which each prim names its instancers.

ghost use Rattle.std.specs.Prelude.{◌≡◌, false, true, IfOk, OnOk, OnErr};
ghost use Rattle.std.specs.Borrow.{Lends, sem};
ghost use Rattle.std.specs.FinMap.{get};
ghost use Rattle.hd_value.specs.Schema.{is_authored};
ghost use Rattle.hd_scene.specs.Scenes.{prim_of, SceneConforms};
ghost use Rattle.hd_instancing.specs.Instanced.{instanced_scene};
ghost use Rattle.hd_instancing.specs.inner.Tables.{Holds};
ghost use Rattle.hd_instancing.specs.contracts.instancing.Instancing.{the_row};

use crate::marking::instanced_prim;
use crate::table::{Table, instancers_of, listed_instancers, table_of};
use hd_num::List;
use hd_path::{Path, Token};
use hd_scene::{Kept, Prim, SceneIndex};
use std::alloc::{AllocError, Global};
use std::marker::Model;

/// A filter that gives each prim the instancers that have a target at or above it.
///
/// The targets of a prim of kind `PointInstancer` are its prototypes. A target gets the flag `xform/reset`; a prim at or
/// below a target gets `instancedBy`, the paths of the instancers, in path order and each once. All else passes.
///
/// It is in step where its input is in step, and each value of the input is one that layers author. What it keeps of the
/// input is made again when a prim is asked for after the input was lent.
#[derive(Drop)]
pub struct Instancing<I> {
    input: I,

    /// The input's scene of which the table is.
    told: Kept,

    table: Table,
    pulls: u64,

    /// Whether the table may be out of date.
    spent: bool,
}

impl<I> Model for Instancing<I> {
    ghost use Rattle.hd_scene.specs.Filters.{FilterState, filter_code};
    ghost use Rattle.hd_instancing.specs.inner.Tables.{Holds};
    ghost use Rattle.std.specs.Prelude.{◌≡◌, false};

    ghost Value = { FilterState I };

    ghost coded = { filter_code I.code };

    ghost view = { λ filter. record { input = filter.input; told = filter.told.scene; pulls = filter.pulls; spent = filter.spent } };

    ghost invariant = { λ filter. filter.spent ≡ false → Holds filter.told.scene filter.table };
}

impl<I> Instancing<I> {
    /// A filter of an input, each of whose prims is asked once.
    pub fn new(alloc: Global, input: I) -> Result<Instancing<I>, AllocError>
    where
        I: SceneIndex + Drop,
        requires { I.is_in_step input }
        ensures in_step { IfOk result (λ made. I.is_in_step made.input) }
        ensures scene { IfOk result (λ made. I.scene made.input ≡ I.scene input) }
        ensures origin { IfOk result (λ made. I.origin made.input ≡ I.origin input) }
        ensures told { IfOk result (λ made. made.told ≡ I.scene input) }
        ensures spent { IfOk result (λ made. made.spent ≡ false) }
        ensures pulls { IfOk result (λ made. made.pulls ≡ 0) }
    {
        let mut input = input;
        let table = table_of(&mut input, alloc)?;
        let told = Kept::of(&input);
        Ok(Instancing {
            input,
            told,
            table,
            pulls: 0,
            spent: false,
        })
    }

    /// The input.
    pub fn input(&self) -> &I
        ensures { result.now ≡ self.now.input }
    {
        &self.input
    }

    /// The input, to be changed. What the filter keeps of it is made again later.
    pub fn input_mut(&mut self) -> &mut I
        ensures* writes_back { sem 𝓛 (Lends (the_row I.row) I.row self.entry result (λ w. record self.old { input = w; spent = true })) }
        ensures value { result.now ≡ self.old.input }
    {
        self.spent = true;
        &mut self.input
    }
}

impl<I: SceneIndex> SceneIndex for Instancing<I> {
    ghost use Rattle.hd_instancing.specs.Scenes.{instanced_closed};

    type Origin = I::Origin;

    ghost scene = { λ x. instanced_scene (I.scene x.input) };

    ghost origin = { λ x. I.origin x.input };

    ghost is_in_step = { λ x. I.is_in_step x.input × SceneConforms is_authored (I.scene x.input) × (x.spent ≡ false → I.scene x.input ≡ x.told) };

    ghost pulls = { λ x. x.pulls };

    ghost closed = { λ x in_step. instanced_closed (I.scene x.input) (I.closed x.input in_step.0) };

    fn prim(&mut self, alloc: Global, path: &Path) -> Result<Prim, AllocError> {
        self.pulls = self.pulls.saturating_add(1);
        mend(self.spent, &mut self.input, &mut self.table, alloc)?;
        self.told = Kept::of(&self.input);
        self.spent = false;
        prim_at(&mut self.input, &self.table, alloc, path)
    }

    fn children(&mut self, alloc: Global, path: &Path) -> Result<List<Token>, AllocError> {
        self.input.children(alloc, path)
    }

    fn pulls(&self) -> u64 {
        self.pulls
    }
}

/// Makes the table again where it may be out of date.
fn mend<I: SceneIndex>(
    spent: bool,
    input: &mut I,
    table: &mut Table,
    alloc: Global,
) -> Result<(), AllocError>
    requires { I.is_in_step input.old }
    ensures holds { OnOk result ((spent ≡ false → Holds (I.scene input.old) table.old) → Holds (I.scene input.old) table.new) }
    ensures err { OnErr result (spent ≡ true) }
    ensures in_step { I.is_in_step input.new }
    ensures same_scene { I.scene input.new ≡ I.scene input.old }
    ensures same_origin { I.origin input.new ≡ I.origin input.old }
{
    if !spent {
        return Ok(());
    }
    *table = table_of(input, alloc)?;
    Ok(())
}

/// The prim at a path, instanced. At most each of the path's prefixes is looked up, and the input is asked once.
fn prim_at<I: SceneIndex>(
    input: &mut I,
    table: &Table,
    alloc: Global,
    path: &Path,
) -> Result<Prim, AllocError>
    requires in_step { I.is_in_step input.old }
    requires conforms { SceneConforms is_authored (I.scene input.old) }
    ensures value { IfOk result (λ prim. Holds (I.scene input.old) table.now → prim ≡ prim_of (get (instanced_scene (I.scene input.old)) path.now)) }
    ensures in_step { I.is_in_step input.new }
    ensures same_scene { I.scene input.new ≡ I.scene input.old }
    ensures same_origin { I.origin input.new ≡ I.origin input.old }
{
    let is_root = !listed_instancers(table, path)?.is_empty();
    let instancers = instancers_of(table, alloc, path)?;
    let prim = input.prim(alloc, path)?;
    instanced_prim(alloc, prim, is_root, instancers)
}
