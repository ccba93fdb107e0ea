//! The files of a command that runs a script.

ghost use Rattle.std.specs.Prelude.{◌≡◌, ◌≤◌, [], length, map, string_bytes, All, IfOk, IfErr, IfSome, IsTrue, OnOk, Ok, Some, vec_len};
ghost use Rattle.hd_session.specs.States.{opening_state};
ghost use Rattle.hd_layer.specs.WellFormed.{is_layer};
ghost use Rattle.hd_app.specs.Commands.{step};
ghost use Rattle.hd_app.specs.Outcomes.{layers_in, script_in, step_outcome, byte_limit};
ghost use Rattle.hd_app.specs.inner.Refusals.{RefusesLayers, RefusesScript, RefusesFiles, ReadsWithin};
ghost use Rattle.hd_app.specs.Scripts.{lines_of, outcome_of_lines};

use crate::layer::{name_of, read_layer, stopped};
use crate::reading::read_file;
use crate::status::{Place, Status};
use hd_io::Shelf;
use hd_layer::{LayerSpec, Which};
use std::alloc::Global;

/// Reads the layers of these names in their order.
fn read_layers<S: Shelf>(
    alloc: Global,
    shelf: &mut S,
    names: &[String],
) -> Result<Vec<LayerSpec>, Status>
    ensures layers { IfOk result (λ layers. IfSome (S.state shelf.old).files (λ files. layers_in files (map string_bytes names.now) ≡ Ok layers.items)) }
    ensures formed { IfOk result (λ layers. All (λ layer. IsTrue (is_layer layer)) layers.items) }
    ensures all { IfOk result (λ layers. vec_len layers ≡ length names.now) }
    ensures kept { OnOk result ((S.state shelf.new).faults ≡ (S.state shelf.old).faults) }
    ensures refusal { IfErr result (RefusesLayers (map string_bytes names.now)
        (S.state shelf.old)
        (S.state shelf.new)) }
    ensures within { ReadsWithin
        (S.state shelf.old)
        (S.state shelf.new) }
{
    let mut layers = Vec::new(alloc);
    for name in names {
        let layer = read_layer(alloc, shelf, name)?;
        layers.push(layer)?;
    }
    Ok(layers)
}

/// Reads the script of this name.
fn read_script<S: Shelf>(alloc: Global, shelf: &mut S, name: &str) -> Result<Vec<u8>, Status>
    ensures script { IfOk result (λ bytes. IfSome (S.state shelf.old).files (λ files. script_in files name.now ≡ Ok bytes.items)) }
    ensures short { IfOk result (λ bytes. vec_len bytes ≤ byte_limit) }
    ensures left_open { OnOk result ((S.state shelf.new).opened ≡ Some name.now) }
    ensures kept { OnOk result ((S.state shelf.new).faults ≡ (S.state shelf.old).faults) }
    ensures refusal { IfErr result (RefusesScript name.now
        (S.state shelf.old)
        (S.state shelf.new)) }
    ensures within { ReadsWithin
        (S.state shelf.old)
        (S.state shelf.new) }
{
    let Ok(file) = name_of(alloc, name) else {
        return Err(Status::NoMemory);
    };
    match read_file(alloc, shelf, name) {
        Ok(bytes) => Ok(bytes),
        Err(stop) => Err(stopped(file, stop)),
    }
}

/// Reads the layers of these names, of which there may be eight, and then the script.
pub fn read_inputs<S: Shelf>(
    alloc: Global,
    shelf: &mut S,
    layers: &[String],
    script: &str,
) -> Result<(Vec<LayerSpec>, Vec<u8>), Status>
    requires { 1 ≤ length layers.now }
    ensures told { IfOk result (λ read. IfSome (S.state shelf.old).files (λ files. step_outcome files (map string_bytes layers.now) script.now []
        ≡ outcome_of_lines script.now 1 (opening_state read.0.items) [] (lines_of read.1.items))) }
    ensures some { IfOk result (λ read. 1 ≤ vec_len read.0) }
    ensures few { IfOk result (λ read. vec_len read.0 ≤ 8) }
    ensures taken { OnOk result (length layers.now ≤ 8) }
    ensures formed { IfOk result (λ read. All (λ layer. IsTrue (is_layer layer)) read.0.items) }
    ensures short { IfOk result (λ read. vec_len read.1 ≤ byte_limit) }
    ensures left_open { OnOk result ((S.state shelf.new).opened ≡ Some script.now) }
    ensures kept { OnOk result ((S.state shelf.new).faults ≡ (S.state shelf.old).faults) }
    ensures refusal { IfErr result (RefusesFiles (step (map string_bytes layers.now) script.now)
        (S.state shelf.old)
        (S.state shelf.new)) }
    ensures within { ReadsWithin
        (S.state shelf.old)
        (S.state shelf.new) }
{
    if layers.len() as u64 > Which::Layers.number() {
        return Err(Status::Limit {
            place: Place::Words,
            which: Which::Layers,
            count: Which::Layers.number(),
        });
    }
    let read = read_layers(alloc, shelf, layers)?;
    let bytes = read_script(alloc, shelf, script)?;
    Ok((read, bytes))
}
