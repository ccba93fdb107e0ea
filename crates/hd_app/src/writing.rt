//! What a command writes: its picture and the line of its frame, or the line of its refusal.

ghost use Rattle.std.specs.Prelude.{◌≡◌, ◌⊎◌, [], ◌∷◌, IfOk, IfErr, IsTrue, OnOk, OnErr};
ghost use Rattle.hd_io.specs.Causes.{HasCause};
ghost use Rattle.hd_io.specs.Rack.{RackState};
ghost use Rattle.hd_io.specs.Acts.{file, line, Wrote, WroteCut, WriteCause, NoFault};
ghost use Rattle.hd_app.specs.inner.Stages.{Ends, status_of_write};
ghost use Rattle.hd_app.specs.Endings.{IsInterruption};
ghost use Rattle.hd_app.specs.FaultLines.{fault_line};
ghost use Rattle.hd_app.specs.Outcomes.{draw_outcome, frame_line, picture_outcome, triangle_limit};
ghost use Rattle.hd_app.specs.Refusing.{refusal_outcome};
ghost use Rattle.hd_app.specs.declared.status.Place.TheVariants.{File};
ghost use Rattle.hd_io.specs.Writing.{with_line, CutLine};
ghost use Rattle.hd_layer.specs.WellFormed.{is_layer};
ghost use Rattle.hd_layer.specs.declared.limits.Which.TheVariants.{Triangles};

use crate::frame::picture_file;
use crate::layer::name_of;
use crate::status::{Place, Status};
use hd_draws::DrawsFault;
use hd_io::{OutsideFault, Rack, Sink, write_file, write_line};
use hd_layer::{LayerSpec, Which};
use std::alloc::{AllocError, Global};

/// How a run ends whose write was interrupted.
fn status_of_write(fault: OutsideFault) -> Status
    ensures { result ≡ status_of_write fault }
{
    match fault {
        OutsideFault::Failed => Status::WriteFault,
        OutsideFault::NoMemory => Status::NoMemory,
    }
}

/// Writes the line of a refusal.
fn write_refusal<O: Sink>(alloc: Global, refusal: &Status, out: &mut O) -> Result<(), OutsideFault>
    ensures written { OnOk result ((O.state out.new).text ≡ with_line (fault_line refusal.now) (O.state out.old).text) }
    ensures cut { OnErr result (CutLine (fault_line refusal.now) (O.state out.old).text (O.state out.new).text) }
    ensures cause { HasCause (O.state out.old).faults (O.state out.new).faults result }
{
    match refusal.fault_line(alloc) {
        Ok(line) => write_line(out, &line),
        Err(_) => Err(OutsideFault::NoMemory),
    }
}

/// Writes the line of a refusal, and answers the refusal. An interrupted run writes nothing more.
pub fn refuse<O: Sink>(alloc: Global, refusal: Status, out: &mut O) -> Status
    ensures same { IsInterruption refusal → result ≡ refusal }
    ensures kept { IsInterruption refusal → O.state out.new ≡ O.state out.old }
    ensures ends { (rack : RackState) → Ends (refusal_outcome refusal)
        (record { rack = rack; sink = O.state out.old })
        (record { rack = rack; sink = O.state out.new }) result }
{
    if let Status::WriteFault | Status::NoMemory = refusal {
        return refusal;
    }
    match write_refusal(alloc, &refusal, out) {
        Ok(()) => refusal,
        Err(fault) => status_of_write(fault),
    }
}

/// The line of a frame that is drawn whole.
fn frame_line(alloc: Global, name: &str) -> Result<Vec<u8>, AllocError>
    ensures { IfOk result (λ text. text.items ≡ frame_line name.now) }
{
    let mut text = Vec::new(alloc);
    text.extend_from_slice(b"frame ")?;
    text.extend_from_slice(name.as_bytes())?;
    text.extend_from_slice(b" converged 16 of 16\n")?;
    Ok(text)
}

/// Writes a picture, and then the line of its frame.
fn write_frame<R: Rack, O: Sink>(
    rack: &mut R,
    out: &mut O,
    name: &str,
    picture: &[u8],
    text: &[u8],
) -> Result<(), OutsideFault>
    ensures written { OnOk result (Wrote (file name.now picture.now ∷ line text.now ∷ [])
        (record { rack = R.state rack.old; sink = O.state out.old })
        (record { rack = R.state rack.new; sink = O.state out.new })) }
    ensures cut { OnErr result (WroteCut (file name.now picture.now ∷ line text.now ∷ [])
        (record { rack = R.state rack.old; sink = O.state out.old })
        (record { rack = R.state rack.new; sink = O.state out.new })) }
    ensures kept { OnOk result (NoFault
        (record { rack = R.state rack.old; sink = O.state out.old })
        (record { rack = R.state rack.new; sink = O.state out.new })) }
    ensures cause { IfErr result (WriteCause
        (record { rack = R.state rack.old; sink = O.state out.old })
        (record { rack = R.state rack.new; sink = O.state out.new })) }
{
    write_file(rack, name, picture)?;
    write_line(out, text)?;
    Ok(())
}

/// Writes a picture to the file of this name, and the line of its frame.
fn show_picture<R: Rack, O: Sink>(
    alloc: Global,
    name: &str,
    picture: &[u8],
    rack: &mut R,
    out: &mut O,
) -> Status
    ensures ends { Ends (picture_outcome name.now picture.now)
        (record { rack = R.state rack.old; sink = O.state out.old })
        (record { rack = R.state rack.new; sink = O.state out.new }) result }
{
    let Ok(text) = frame_line(alloc, name) else {
        return Status::NoMemory;
    };
    match write_frame(rack, out, name, picture, &text) {
        Ok(()) => Status::Done,
        Err(fault) => status_of_write(fault),
    }
}

/// The refusal of a layer that draws too many triangles.
fn too_many_triangles(alloc: Global, file: &str) -> Status
    ensures { (result ≡ Status.Limit (File file.now) Triangles triangle_limit) ⊎ (result ≡ Status.NoMemory) }
{
    match name_of(alloc, file) {
        Ok(file) => Status::Limit {
            place: Place::File(file),
            which: Which::Triangles,
            count: Which::Triangles.number(),
        },
        Err(_) => Status::NoMemory,
    }
}

/// Draws a layer, which was read from one file, to a picture of another name.
pub fn show<R: Rack, O: Sink>(
    alloc: Global,
    layer: LayerSpec,
    file: &str,
    name: &str,
    rack: &mut R,
    out: &mut O,
) -> Status
    requires { IsTrue (is_layer layer) }
    ensures ends { Ends (draw_outcome file.now name.now layer)
        (record { rack = R.state rack.old; sink = O.state out.old })
        (record { rack = R.state rack.new; sink = O.state out.new }) result }
{
    match picture_file(alloc, layer) {
        Ok(picture) => show_picture(alloc, name, &picture, rack, out),
        Err(DrawsFault::Triangles) => refuse(alloc, too_many_triangles(alloc, file), out),
        Err(DrawsFault::NoMemory) => Status::NoMemory,
    }
}
