//! Files and lines, written whole.

ghost use Rattle.std.specs.Prelude.{◌≡◌, false, OnOk, OnErr, IsTrue};
ghost use Rattle.std.specs.Option.{option_map};
ghost use Rattle.hd_io.specs.Causes.{HasCause};
ghost use Rattle.hd_io.specs.Files.{with_bytes};
ghost use Rattle.hd_io.specs.Offers.{OfferedWhole, OfferedCut};
ghost use Rattle.hd_io.specs.Writing.{with_line, with_whole, CutLine, CutBytes, CutFile};

use crate::{OutsideFault, Rack, Sink};

/// Writes a line to the end of the sink. Each write is offered all of the line that is left.
pub fn write_line<O: Sink>(out: &mut O, line: &[u8]) -> Result<(), OutsideFault>
    ensures written { OnOk result ((O.state out.new).text ≡ with_line line.now (O.state out.old).text) }
    ensures offered { OnOk result (OfferedWhole line.now (O.state out.old).offers (O.state out.new).offers) }
    ensures cut { OnErr result (CutLine line.now (O.state out.old).text (O.state out.new).text) }
    ensures offered_cut { OnErr result (OfferedCut line.now (O.state out.old).offers (O.state out.new).offers) }
    ensures cause { HasCause (O.state out.old).faults (O.state out.new).faults result }
{
    let mut written = 0;
    'writing: while written < line.len() {
        let (_, rest) = line.split_at(written);
        written += out.write(rest)?;
    }
    Ok(())
}

/// Writes the bytes to the end of the rack's last file, which is open.
fn write_bytes<R: Rack>(rack: &mut R, bytes: &[u8]) -> Result<(), OutsideFault>
    requires { IsTrue (R.state rack.old).is_open }
    ensures written { OnOk result ((R.state rack.new).files ≡ option_map (with_bytes bytes.now) (R.state rack.old).files) }
    ensures offered { OnOk result (OfferedWhole bytes.now (R.state rack.old).offers (R.state rack.new).offers) }
    ensures cut { OnErr result (CutBytes bytes.now (R.state rack.old).files (R.state rack.new).files) }
    ensures offered_cut { OnErr result (OfferedCut bytes.now (R.state rack.old).offers (R.state rack.new).offers) }
    ensures open { IsTrue (R.state rack.new).is_open }
    ensures cause { HasCause (R.state rack.old).faults (R.state rack.new).faults result }
{
    let mut written = 0;
    'writing: while written < bytes.len() {
        let (_, rest) = bytes.split_at(written);
        written += rack.write(rest)?;
    }
    Ok(())
}

/// Writes one file whole. Each write is offered all of the bytes that is left.
pub fn write_file<R: Rack>(rack: &mut R, name: &str, bytes: &[u8]) -> Result<(), OutsideFault>
    ensures written { OnOk result ((R.state rack.new).files ≡ with_whole name.now bytes.now (R.state rack.old).files) }
    ensures closed { OnOk result ((R.state rack.new).is_open ≡ false) }
    ensures offered { OnOk result (OfferedWhole bytes.now (R.state rack.old).offers (R.state rack.new).offers) }
    ensures cut { OnErr result (CutFile name.now bytes.now (R.state rack.old).files (R.state rack.new).files) }
    ensures offered_cut { OnErr result (OfferedCut bytes.now (R.state rack.old).offers (R.state rack.new).offers) }
    ensures cause { HasCause (R.state rack.old).faults (R.state rack.new).faults result }
{
    rack.create(name)?;
    write_bytes(rack, bytes)?;
    rack.finish()?;
    Ok(())
}
