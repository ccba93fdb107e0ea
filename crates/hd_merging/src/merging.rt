//! The merging of several scene indices.

ghost use Rattle.std.specs.Prelude.{◌≡◌, ◌<◌, length, map, All, slice_get, slice_set, Some};
ghost use Rattle.std.specs.Borrow.{Lends, sem};
ghost use Rattle.hd_merging.specs.Merges.{merged_scene};
ghost use Rattle.hd_merging.specs.contracts.merging.Merging.{the_row};

use crate::queries::{names_below, prim_of_all};
use hd_num::List;
use hd_path::{Path, Token};
use hd_scene::{Prim, SceneIndex};
use std::alloc::{AllocError, Global};
use std::marker::Model;

/// One scene of several: a prim is at each path at which an input has one. Its kind is the first that is not empty, and
/// a value of an input is kept where no earlier input has a value at a locator that intersects its own.
#[derive(Drop)]
pub struct Merging<I> {
    /// The first is the strongest.
    inputs: Vec<I>,
    pulls: u64,
}

impl<I> Model for Merging<I> {
    ghost use Rattle.hd_merging.specs.Merged.{Merged};

    ghost Value = { Merged I };

    ghost view = { λ merging. record { inputs = merging.inputs.items; pulls = merging.pulls } };
}

impl<I> Merging<I> {
    /// The merging of these inputs, of which the first is the strongest. It takes no memory.
    pub fn new(inputs: Vec<I>) -> Merging<I>
        ensures { result ≡ record { inputs = inputs.items; pulls = 0 } }
    {
        Merging { inputs, pulls: 0 }
    }

    /// How many inputs there are.
    pub fn count(&self) -> usize
        ensures { result ≡ length self.now.inputs }
    {
        self.inputs.len()
    }

    /// The input with this number. The strongest has number 0.
    pub fn input(&self, k: usize) -> &I
        requires { k < length self.now.inputs }
        ensures { slice_get self.now.inputs k ≡ Some result.now }
    {
        &self.inputs[k]
    }

    /// The input with this number, to be changed. The strongest has number 0.
    pub fn input_mut(&mut self, k: usize) -> &mut I
        requires { k < length self.old.inputs }
        ensures* writes_back { sem 𝓛 (Lends (the_row I.row) I.row self.entry result (λ w. record self.old { inputs = slice_set self.old.inputs k w })) }
        ensures value { slice_get self.old.inputs k ≡ Some result.now }
    {
        &mut self.inputs[k]
    }
}

impl<I: SceneIndex> SceneIndex for Merging<I> {
    ghost use Rattle.hd_merging.specs.inner.MergedScenes.{inputs_closed};

    type Origin = List<I::Origin>;

    ghost scene = { λ merging. merged_scene (map I.scene merging.inputs) };

    ghost origin = { λ merging. map I.origin merging.inputs };

    ghost is_in_step = { λ merging. All I.is_in_step merging.inputs };

    ghost pulls = { λ merging. merging.pulls };

    fn prim(&mut self, alloc: Global, path: &Path) -> Result<Prim, AllocError> {
        self.pulls = self.pulls.saturating_add(1);
        prim_of_all(&mut self.inputs, alloc, path)
    }

    fn children(&mut self, alloc: Global, path: &Path) -> Result<List<Token>, AllocError> {
        names_below(&mut self.inputs, alloc, path)
    }

    fn pulls(&self) -> u64 {
        self.pulls
    }

    ghost closed = { λ merging in_step. inputs_closed I.scene I.is_in_step I.closed merging.inputs in_step };
}
