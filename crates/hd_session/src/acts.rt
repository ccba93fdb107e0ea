//! What commands write: lines, and dumps of an index.

ghost use Rattle.std.specs.Prelude.{◌≡◌, [], ◌∷◌, IfOk, IfErr, OnOk, OnErr, length};
ghost use Rattle.hd_io.specs.Acts.{file, line, Wrote, WroteCut, WriteCause, NoFault};
ghost use Rattle.hd_io.specs.Causes.{HasCause};
ghost use Rattle.hd_io.specs.Writing.{with_line, CutLine};
ghost use Rattle.hd_dump.specs.Dumps.{dump_text};
ghost use Rattle.hd_rprim.specs.PrimRows.{rows_of};
ghost use Rattle.hd_scene.specs.Scenes.{saturating_succ};
ghost use Rattle.hd_session.specs.Steps.{commit_line, dump_line};

use hd_dump::dump_text;
use hd_index::RenderIndex;
use hd_io::{OutsideFault, Rack, Sink, write_file, write_line};
use std::alloc::{AllocError, Global};

/// The line of a commit.
fn commit_line(alloc: Global, number: u64, rows: usize) -> Result<Vec<u8>, AllocError>
    ensures { IfOk result (λ line. line.items ≡ commit_line number rows) }
{
    let mut line = Vec::new(alloc);
    line.extend_from_slice(b"commit ")?;
    line.extend_from_slice(number.to_string(alloc)?.as_bytes())?;
    line.extend_from_slice(b" rows ")?;
    line.extend_from_slice(rows.to_string(alloc)?.as_bytes())?;
    line.extend_from_slice(b"\n")?;
    Ok(line)
}

/// Counts a commit, and tells its line.
pub(crate) fn commit<O: Sink>(
    alloc: Global,
    commits: &mut u64,
    index: &RenderIndex,
    out: &mut O,
) -> Result<(), OutsideFault>
    ensures counted { commits.new ≡ saturating_succ commits.old }
    ensures written { OnOk result ((O.state out.new).text ≡ with_line (commit_line (saturating_succ commits.old) (length (rows_of index.now))) (O.state out.old).text) }
    ensures cut { OnErr result (CutLine (commit_line (saturating_succ commits.old) (length (rows_of index.now))) (O.state out.old).text (O.state out.new).text) }
    ensures cause { HasCause (O.state out.old).faults (O.state out.new).faults result }
{
    *commits = commits.saturating_add(1);
    let (rows, _) = index.parts();
    let line = commit_line(alloc, *commits, rows.len())?;
    write_line(out, &line)?;
    Ok(())
}

/// The line of a dump.
fn dump_line(alloc: Global, name: &str) -> Result<Vec<u8>, AllocError>
    ensures { IfOk result (λ line. line.items ≡ dump_line name.now) }
{
    let mut line = Vec::new(alloc);
    line.extend_from_slice(b"dump ")?;
    line.extend_from_slice(name.as_bytes())?;
    line.extend_from_slice(b"\n")?;
    Ok(line)
}

/// Writes the dump of an index to a file of this name, and then its line.
pub(crate) fn dump<K: Rack, O: Sink>(
    alloc: Global,
    index: &RenderIndex,
    name: &str,
    rack: &mut K,
    out: &mut O,
) -> Result<(), OutsideFault>
    ensures written { OnOk result (Wrote (file name.now (dump_text (rows_of index.now)) ∷ line (dump_line name.now) ∷ [])
        (record { rack = K.state rack.old; sink = O.state out.old })
        (record { rack = K.state rack.new; sink = O.state out.new })) }
    ensures cut { OnErr result (WroteCut (file name.now (dump_text (rows_of index.now)) ∷ line (dump_line name.now) ∷ [])
        (record { rack = K.state rack.old; sink = O.state out.old })
        (record { rack = K.state rack.new; sink = O.state out.new })) }
    ensures kept { OnOk result (NoFault
        (record { rack = K.state rack.old; sink = O.state out.old })
        (record { rack = K.state rack.new; sink = O.state out.new })) }
    ensures cause { IfErr result (WriteCause
        (record { rack = K.state rack.old; sink = O.state out.old })
        (record { rack = K.state rack.new; sink = O.state out.new })) }
{
    let (rows, registry) = index.parts();
    let text = dump_text(alloc, rows, registry)?;
    let line = dump_line(alloc, name)?;
    write_file(rack, name, &text)?;
    write_line(out, &line)?;
    Ok(())
}
