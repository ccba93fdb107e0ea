//! The call that the program makes.

ghost use Rattle.std.specs.Prelude.{◌≡◌, ◌+◌, ◌≤◌, ◌⊎◌, [], Some, IfSome, length, map, max, string_bytes};
ghost use Rattle.hd_io.specs.Causes.{Rose};
ghost use Rattle.hd_io.specs.Acts.{Wrote, NoFault, WriteFailed};
ghost use Rattle.hd_app.specs.Endings.{EndsWhole, IsDecided, IsReadFault, IsInterruption};
ghost use Rattle.hd_app.specs.Outcomes.{outcome, byte_limit};
ghost use Rattle.hd_app.specs.Refusing.{refusal_outcome};
ghost use Rattle.hd_app.specs.Commands.{command, draw, step};
ghost use Rattle.hd_app.specs.Runs.{IsAnswerTo, Interrupted};
ghost use Rattle.hd_app.specs.inner.Refusals.{ReadsWithin};
ghost use Rattle.hd_app.specs.inner.Stages.{Runs};

use crate::inputs::read_inputs;
use crate::layer::read_layer;
use crate::script::run_over;
use crate::status::Status;
use crate::words::{CommandWords, command};
use crate::writing::{refuse, show};
use hd_io::{Rack, Shelf, Sink};
use std::alloc::Global;

/// Draws one layer.
fn draw<S: Shelf, R: Rack, O: Sink>(
    alloc: Global,
    layer: &str,
    name: &str,
    shelf: &mut S,
    rack: &mut R,
    out: &mut O,
) -> Status
    ensures runs { Runs (Some (draw layer.now name.now))
        (S.state shelf.old)
        (S.state shelf.new)
        (record { rack = R.state rack.old; sink = O.state out.old })
        (record { rack = R.state rack.new; sink = O.state out.new }) result }
    ensures within { ReadsWithin
        (S.state shelf.old)
        (S.state shelf.new) }
{
    match read_layer(alloc, shelf, layer) {
        Ok(read) => show(alloc, read, layer, name, rack, out),
        Err(refusal) => refuse(alloc, refusal, out),
    }
}

/// Runs a script over layers, of which the first is the strongest.
fn step<S: Shelf, R: Rack, O: Sink>(
    alloc: Global,
    layers: &[String],
    script: &str,
    shelf: &mut S,
    rack: &mut R,
    out: &mut O,
) -> Status
    requires { 1 ≤ length layers.now }
    ensures runs { Runs (Some (step (map string_bytes layers.now) script.now))
        (S.state shelf.old)
        (S.state shelf.new)
        (record { rack = R.state rack.old; sink = O.state out.old })
        (record { rack = R.state rack.new; sink = O.state out.new }) result }
    ensures within { ReadsWithin
        (S.state shelf.old)
        (S.state shelf.new) }
{
    match read_inputs(alloc, shelf, layers, script) {
        Ok((layers, bytes)) => run_over(alloc, layers, script, &bytes, rack, out),
        Err(refusal) => refuse(alloc, refusal, out),
    }
}

/// Does what the words say.
fn run<S: Shelf, R: Rack, O: Sink>(
    alloc: Global,
    words: &[String],
    shelf: &mut S,
    rack: &mut R,
    out: &mut O,
) -> Status
    ensures runs { Runs (command (map string_bytes words.now))
        (S.state shelf.old)
        (S.state shelf.new)
        (record { rack = R.state rack.old; sink = O.state out.old })
        (record { rack = R.state rack.new; sink = O.state out.new }) result }
    ensures within { ReadsWithin
        (S.state shelf.old)
        (S.state shelf.new) }
{
    match command(words) {
        Some(CommandWords::Draw { layer, out: name }) => draw(alloc, layer, name, shelf, rack, out),
        Some(CommandWords::Step { layers, script }) => step(
            alloc, layers, script, shelf, rack, out,
        ),
        None => refuse(alloc, Status::Usage, out),
    }
}

/// Does what the words of the command line say, those after the program's name, and answers how it ended.
///
/// `draw LAYER OUT` reads the layer from the file `LAYER`, draws its meshes and points to a picture of 64 by 64 pixels,
/// writes that to the file `OUT`, and then the line of its frame. `step LAYER.. SCRIPT` reads one to eight layers, of which
/// the first is the strongest, and does what the lines of the file `SCRIPT` say, one after the other. Other words are no
/// command. A refusal writes the one line that tells it, after what was written before. Where a write fails or memory
/// runs out, nothing more is written. No frame ends before it is drawn whole.
pub fn top_plain<S: Shelf, R: Rack, O: Sink>(
    alloc: Global,
    words: &[String],
    shelf: &mut S,
    rack: &mut R,
    out: &mut O,
) -> Status
    // The answer, the files and the lines are those of the written outcome, and no object failed.
    ensures outcome { IsDecided result → IfSome (S.state shelf.old).files (λ files. EndsWhole (outcome (map string_bytes words.now) files [])
        (record { rack = R.state rack.old; sink = O.state out.old })
        (record { rack = R.state rack.new; sink = O.state out.new }) result) }
    ensures unfailed_shelf { IsDecided result → (S.state shelf.new).faults ≡ (S.state shelf.old).faults }
    ensures unfailed { IsDecided result → NoFault
        (record { rack = R.state rack.old; sink = O.state out.old })
        (record { rack = R.state rack.new; sink = O.state out.new }) }

    // Where no count of faults rose, the answer is the outcome's, but where memory ran out.
    ensures complete { ¬ Rose (S.state shelf.old).faults (S.state shelf.new).faults → ¬ Rose (R.state rack.old).faults (R.state rack.new).faults → ¬ Rose (O.state out.old).faults (O.state out.new).faults
        → IfSome (S.state shelf.old).files (λ files. (result ≡ (outcome (map string_bytes words.now) files []).ending) ⊎ (result ≡ Status.NoMemory)) }

    // What each answer says of itself, whether or not the files are told.
    ensures answer { IsAnswerTo (command (map string_bytes words.now))
        (S.state shelf.new) result }

    ensures read_fault { IsReadFault result → Rose (S.state shelf.old).faults (S.state shelf.new).faults }
    ensures read_fault_line { IsReadFault result → Wrote (refusal_outcome result).acts
        (record { rack = R.state rack.old; sink = O.state out.old })
        (record { rack = R.state rack.new; sink = O.state out.new }) }
    ensures read_fault_alone { IsReadFault result → NoFault
        (record { rack = R.state rack.old; sink = O.state out.old })
        (record { rack = R.state rack.new; sink = O.state out.new }) }
    ensures write_fault { result ≡ Status.WriteFault
        → WriteFailed
        (record { rack = R.state rack.old; sink = O.state out.old })
        (record { rack = R.state rack.new; sink = O.state out.new }) }
    ensures cut { IsInterruption result → IfSome (S.state shelf.old).files (λ files. Interrupted (command (map string_bytes words.now)) files []
        (S.state shelf.old)
        (S.state shelf.new)
        (record { rack = R.state rack.old; sink = O.state out.old })
        (record { rack = R.state rack.new; sink = O.state out.new })) }

    ensures taken { (S.state shelf.new).taken ≤ max (S.state shelf.old).taken (byte_limit + 1) }
    ensures files { (S.state shelf.new).files ≡ (S.state shelf.old).files }
{
    run(alloc, words, shelf, rack, out)
}
