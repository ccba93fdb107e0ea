//! What a shelf keeps of its failed calls.

ghost use Rattle.std.specs.Prelude.{◌≡◌, None, Err, IsErr, IsErrOf, string_bytes};
ghost use Rattle.hd_io.specs.Failures.{failed_name, Notes, NotesNothing};

use crate::OutsideFault;
use std::alloc::Global;

/// How many calls failed, and the name that the last of them concerned.
#[derive(Drop)]
pub(crate) struct Failures {
    pub(crate) alloc: Global,
    pub(crate) count: u64,
    pub(crate) name: Option<String>,
}

impl Failures {
    pub(crate) fn new(alloc: Global) -> Self
        ensures count { result.count ≡ 0 }
        ensures name { failed_name result ≡ None }
    {
        Failures {
            alloc,
            count: 0,
            name: None,
        }
    }

    /// The answer to a call that failed and concerned this name.
    pub(crate) fn note<T>(&mut self, name: String) -> Result<T, OutsideFault>
        ensures answer { result ≡ Err OutsideFault.Failed }
        ensures noted { Notes (string_bytes name) self.old self.new }
    {
        self.name = Some(name);
        self.count = self.count.saturating_add(1);
        Err(OutsideFault::Failed)
    }

    /// The same, where the name is yet to be copied; without memory for it, nothing is noted.
    pub(crate) fn fail<T>(&mut self, name: &str) -> Result<T, OutsideFault>
        ensures err { IsErr result }
        ensures noted { IsErrOf result OutsideFault.Failed → Notes name.now self.old self.new }
        ensures no_memory { IsErrOf result OutsideFault.NoMemory → NotesNothing self.old self.new }
    {
        match String::from_str(self.alloc, name) {
            Ok(name) => self.note(name),
            Err(_) => Err(OutsideFault::NoMemory),
        }
    }
}
