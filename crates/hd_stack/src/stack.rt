//! A stack of layers, merged, instanced and flattened.

ghost use Rattle.std.specs.Prelude.{◌≡◌, ◌<◌, ◌≤◌, length, map, All, Ok, OnOk, OnErr, IfOk, IfErr, IsTrue, option_copied, vec_len};
ghost use Rattle.hd_layer.specs.Edits.{is_edit};
ghost use Rattle.hd_layer.specs.Limits.{limit_of};
ghost use Rattle.hd_layer.specs.WellFormed.{is_layer};
ghost use Rattle.hd_layer.specs.declared.limits.Which.TheVariants.{Layers};
ghost use Rattle.hd_scene.specs.Scenes.{kind_at};
ghost use Rattle.hd_retained.specs.Edits.{IsRefusal};
ghost use Rattle.hd_retained.specs.Layers.{layer_of, ArePathsFrom};
ghost use Rattle.hd_stack.specs.inner.Kinds.{is_named, kind_over};
ghost use Rattle.hd_stack.specs.inner.Terminals.{layers_of, layers_in, IsTerminal};
ghost use Rattle.hd_stack.specs.Stacks.{composed_scene, terminal_scene, layer_at, edited_at, IsSound, IsStack, AreSound};

use hd_flattening::Flattening;
use hd_instancing::Instancing;
use hd_layer::{Edit, LayerSpec};
use hd_merging::Merging;
use hd_num::List;
use hd_path::{Path, Token};
use hd_retained::{EditFault, Layer, Retained};
use hd_scene::{Prim, SceneIndex};
use std::alloc::{AllocError, Global};
use std::marker::Model;

/// The scene of several layers: merged, then instanced, and then flattened.
pub type Terminal = Flattening<Instancing<Merging<Retained>>>;

/// Layers, of which the first is the strongest, as one scene index. It is always in step with them.
#[derive(Drop)]
pub struct Stack {
    terminal: Terminal,
}

impl Model for Stack {
    ghost use Rattle.hd_stack.specs.Stacks.{Stacked, stacked_code};
    ghost use Rattle.hd_stack.specs.inner.Terminals.{layers_in, IsTerminal};

    ghost Value = { Stacked };

    ghost coded = { stacked_code };

    ghost view = { λ stack. record { layers = layers_in stack.terminal.input; pulls = stack.terminal.pulls } };

    ghost invariant = { λ stack. IsTerminal stack.terminal.input };
}

impl Stack {
    /// The stack of layers that were read, from one to eight, of which the first is the strongest. The call fails for
    /// lack of memory alone.
    pub fn new(alloc: Global, layers: Vec<LayerSpec>) -> Result<Stack, AllocError>
        requires some { 1 ≤ vec_len layers }
        requires few { vec_len layers ≤ 8 }
        requires formed { All (λ layer. IsTrue (is_layer layer)) layers.items }
        ensures layers { IfOk result (λ stack. stack.layers ≡ map layer_of layers.items) }
        ensures pulls { IfOk result (λ stack. stack.pulls ≡ 0) }
    {
        let mut inputs = Vec::with_capacity(alloc, layers.len())?;
        for layer in layers {
            inputs.push(input_of(alloc, layer)?)?;
        }
        Ok(Stack {
            terminal: terminal_of(alloc, Merging::new(inputs))?,
        })
    }

    /// How many layers there are, from one to eight.
    pub fn layers(&self) -> usize
        ensures count { result ≡ length self.now.layers }
        ensures some { 1 ≤ result }
        ensures few { result ≤ limit_of Layers }
    {
        self.terminal.input().input().count()
    }

    /// Edits the layer of this number, counted from 0. That layer alone decides a refusal, and a refused edit changes
    /// nothing.
    pub fn edit(&mut self, alloc: Global, layer: usize, edit: &Edit) -> Result<(), EditFault>
        requires below { layer < length self.old.layers }
        requires formed { IsTrue (is_edit edit.now) }
        ensures done { OnOk result (edited_at self.old.layers layer edit.now ≡ Ok self.new.layers) }
        ensures refusal { IfErr result (IsRefusal (edited_at self.old.layers layer edit.now)) }
        ensures err { OnErr result (self.new ≡ self.old) }
        ensures same_pulls { self.new.pulls ≡ self.old.pulls }
    {
        edit_below(self.terminal.input_mut(), alloc, layer, edit)
    }

    /// The kind of the prim at a path: the first that is not empty, of the layers that have a prim there.
    pub fn kind(&self, path: &Path) -> Result<Option<&Token>, AllocError>
        ensures { IfOk result (λ kind. option_copied kind ≡ kind_at (composed_scene self.now.layers) path.now) }
    {
        kind_of(self.terminal.input().input(), path)
    }

    /// The paths of one layer's prims at and below a path, those with fewer names first, and else in their order.
    pub fn paths_from(
        &self,
        alloc: Global,
        layer: usize,
        path: &Path,
    ) -> Result<Vec<Path>, AllocError>
        requires { layer < length self.now.layers }
        ensures { IfOk result (λ paths. ArePathsFrom (layer_at self.now.layers layer) path.now paths.items) }
    {
        self.terminal
            .input()
            .input()
            .input(layer)
            .paths_from(alloc, path)
    }

    /// The stack is in step: a fact for proofs, which costs nothing.
    pub fn is_in_step(&self)
        ensures { AreSound self.now.layers }
    {
        let _ = &self.terminal;
    }
}

impl SceneIndex for Stack {
    ghost use Rattle.hd_stack.specs.Scenes.{terminal_closed};

    type Origin = List<Layer>;

    ghost scene = { λ stack. terminal_scene stack.layers };

    ghost origin = { λ stack. stack.layers };

    ghost is_in_step = { λ stack. AreSound stack.layers };

    ghost pulls = { λ stack. stack.pulls };

    fn prim(&mut self, alloc: Global, path: &Path) -> Result<Prim, AllocError> {
        self.terminal.prim(alloc, path)
    }

    fn children(&mut self, alloc: Global, path: &Path) -> Result<List<Token>, AllocError> {
        self.terminal.children(alloc, path)
    }

    fn pulls(&self) -> u64 {
        self.terminal.pulls()
    }

    ghost closed = { λ stack in_step. terminal_closed stack.layers in_step };
}

/// A layer as an input of the merging.
fn input_of(alloc: Global, layer: LayerSpec) -> Result<Retained, AllocError>
    requires { IsTrue (is_layer layer) }
    ensures layer { IfOk result (λ made. made.layer ≡ layer_of layer) }
    ensures sound { IfOk result (λ made. IsSound made.layer) }
{
    let input = Retained::from_layer(alloc, layer)?;
    input.is_in_step();
    input.conforms();
    input.has_used_properties();
    Ok(input)
}

/// The filters over a merging of layers.
fn terminal_of(alloc: Global, merging: Merging<Retained>) -> Result<Terminal, AllocError>
    requires { IsStack (layers_of merging.inputs) }
    ensures terminal { IfOk result (λ terminal. IsTerminal terminal.input) }
    ensures layers { IfOk result (λ terminal. layers_in terminal.input ≡ layers_of merging.inputs) }
    ensures pulls { IfOk result (λ terminal. terminal.pulls ≡ 0) }
{
    let instancing = Instancing::new(alloc, merging)?;
    Ok(Flattening::new(instancing))
}

/// Edits the layer of this number, below an instancing, which then may be out of date.
fn edit_below(
    instancing: &mut Instancing<Merging<Retained>>,
    alloc: Global,
    layer: usize,
    edit: &Edit,
) -> Result<(), EditFault>
    requires below { layer < length instancing.old.input.inputs }
    requires terminal { IsTerminal instancing.old }
    requires formed { IsTrue (is_edit edit.now) }
    ensures terminal { IsTerminal instancing.new }
    ensures done { OnOk result (edited_at (layers_in instancing.old) layer edit.now ≡ Ok (layers_in instancing.new)) }
    ensures refusal { IfErr result (IsRefusal (edited_at (layers_in instancing.old) layer edit.now)) }
    ensures err { OnErr result (layers_in instancing.new ≡ layers_in instancing.old) }
{
    edit_input(instancing.input_mut(), alloc, layer, edit)
}

/// Edits the layer of this number.
fn edit_input(
    merging: &mut Merging<Retained>,
    alloc: Global,
    layer: usize,
    edit: &Edit,
) -> Result<(), EditFault>
    requires below { layer < length merging.old.inputs }
    requires stack { IsStack (layers_of merging.old.inputs) }
    requires formed { IsTrue (is_edit edit.now) }
    ensures stack { IsStack (layers_of merging.new.inputs) }
    ensures done { OnOk result (edited_at (layers_of merging.old.inputs) layer edit.now ≡ Ok (layers_of merging.new.inputs)) }
    ensures refusal { IfErr result (IsRefusal (edited_at (layers_of merging.old.inputs) layer edit.now)) }
    ensures err { OnErr result (layers_of merging.new.inputs ≡ layers_of merging.old.inputs) }
{
    let input = merging.input_mut(layer);
    let done = input.edit(alloc, edit);
    input.is_in_step();
    input.conforms();
    input.has_used_properties();
    done?;
    Ok(())
}

/// Whether a kind is there and is not empty.
fn is_named(kind: Option<&Token>) -> bool
    ensures { result ≡ is_named (option_copied kind.entry) }
{
    match kind {
        Some(kind) => !kind.text().is_empty(),
        None => false,
    }
}

/// The first of two kinds that is not empty, or else an empty one that is there.
fn kind_over<'a>(strong: Option<&'a Token>, weak: Option<&'a Token>) -> Option<&'a Token>
    ensures { option_copied result ≡ kind_over (option_copied strong.entry) (option_copied weak.entry) }
{
    if is_named(strong) {
        return strong;
    }
    weak.or(strong)
}

/// The kind of the prim that the inputs together have at a path. No input after the one that decides is asked.
fn kind_of<'a>(inputs: &'a Merging<Retained>, path: &Path) -> Result<Option<&'a Token>, AllocError>
    ensures { IfOk result (λ kind. option_copied kind ≡ kind_at (composed_scene (layers_of inputs.now.inputs)) path.now) }
{
    let mut found = None;
    for k in 0..inputs.count() {
        if is_named(found) {
            return Ok(found);
        }
        found = kind_over(found, inputs.input(k).kind(path)?);
    }
    Ok(found)
}
