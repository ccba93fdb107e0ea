//! Layers, read by the names of their files.

ghost use Rattle.std.specs.Prelude.{◌≡◌, ◌≤◌, length, IfOk, IfErr, IfSome, IsTrue, OnOk, Ok, Some};
ghost use Rattle.hd_layer.specs.WellFormed.{is_layer};
ghost use Rattle.hd_app.specs.Outcomes.{layer_in, layer_of_bytes, refusal_at, byte_limit};
ghost use Rattle.hd_app.specs.inner.Refusals.{status_of_stop, status_of_fault, RefusesBytes, RefusesLayer, ReadsWithin};

use crate::reading::{ReadStop, read_file};
use crate::status::{Place, Status};
use hd_io::Shelf;
use hd_layer::{LayerFault, LayerSpec, LayerWhy, Which};
use hd_num::List;
use std::alloc::{AllocError, Global};

/// The bytes of a name.
pub fn name_of(alloc: Global, name: &str) -> Result<List<u8>, AllocError>
    ensures { IfOk result (λ list. list ≡ name.now) }
{
    List::of(alloc, Vec::from_slice(alloc, name.as_bytes())?)
}

/// The refusal of a file that was not read to its end.
pub fn stopped(file: List<u8>, stop: ReadStop) -> Status
    ensures { result ≡ status_of_stop file stop }
{
    match stop {
        ReadStop::Failed => Status::ReadFault { name: file },
        ReadStop::TooLong => Status::Limit {
            place: Place::File(file),
            which: Which::Bytes,
            count: Which::Bytes.number(),
        },
        ReadStop::NoMemory => Status::NoMemory,
    }
}

/// The refusal of a file with this fault in this line.
fn refusal_at(file: List<u8>, line: u32, why: LayerWhy) -> Status
    ensures { result ≡ refusal_at file line why }
{
    match why {
        LayerWhy::Limit(which) => Status::Limit {
            place: Place::Line(file, line),
            which,
            count: which.number(),
        },
        _ => Status::Layer { file, line, why },
    }
}

/// The refusal of a file that spells no layer.
fn unread(file: List<u8>, fault: LayerFault) -> Status
    ensures { result ≡ status_of_fault file fault }
{
    match fault {
        LayerFault::At { line, why } => refusal_at(file, line, why),
        LayerFault::NoMemory => Status::NoMemory,
    }
}

/// Reads the layer of this name.
pub fn read_layer<S: Shelf>(alloc: Global, shelf: &mut S, name: &str) -> Result<LayerSpec, Status>
    ensures layer { IfOk result (λ layer. IfSome (S.state shelf.old).files (λ files. layer_in files name.now ≡ Ok layer)) }
    ensures formed { IfOk result (λ layer. IsTrue (is_layer layer)) }
    ensures left_open { OnOk result ((S.state shelf.new).opened ≡ Some name.now) }
    ensures kept { OnOk result ((S.state shelf.new).faults ≡ (S.state shelf.old).faults) }
    ensures refusal { IfErr result (RefusesLayer name.now
        (S.state shelf.old)
        (S.state shelf.new)) }
    ensures within { ReadsWithin
        (S.state shelf.old)
        (S.state shelf.new) }
{
    let Ok(file) = name_of(alloc, name) else {
        return Err(Status::NoMemory);
    };
    match read_file(alloc, shelf, name) {
        Ok(bytes) => spelled(alloc, file, &bytes),
        Err(stop) => Err(stopped(file, stop)),
    }
}

/// The layer that a file's bytes spell.
fn spelled(alloc: Global, file: List<u8>, bytes: &[u8]) -> Result<LayerSpec, Status>
    requires { length bytes.now ≤ byte_limit }
    ensures layer { IfOk result (λ layer. layer_of_bytes file bytes.now ≡ Ok layer) }
    ensures formed { IfOk result (λ layer. IsTrue (is_layer layer)) }
    ensures refusal { IfErr result (RefusesBytes file bytes.now) }
{
    match hd_usda::read_layer(alloc, bytes) {
        Ok(layer) => Ok(layer),
        Err(fault) => Err(unread(file, fault)),
    }
}
