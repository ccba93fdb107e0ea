//! What holds of every outcome.

ghost use Rattle.hd_app.specs.Laws.{OutcomesEndWhole, EndingsIgnoreTiles};

/// The words and the files decide how a run ends. So `WriteFault` and `NoMemory` are never what they ask for.
pub fn outcomes_end_whole()
    ensures { OutcomesEndWhole }
{}

/// A run ends alike however many tiles its frames had when they ended.
pub fn endings_ignore_tiles()
    ensures { EndingsIgnoreTiles }
{}
