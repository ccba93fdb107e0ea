//! What holds of every line.

ghost use Rattle.hd_script.specs.Laws.{LinesWantNoMemory, PathsWantNoMemory, NamesWantNoMemory};

/// Each line has a command, nothing to do, or a fault of its own. So `NoMemory` is never the fault of a line, nor of
/// a path or a name in it.
pub fn lines_want_no_memory()
    ensures lines { LinesWantNoMemory }
    ensures paths { PathsWantNoMemory }
    ensures names { NamesWantNoMemory }
{}
