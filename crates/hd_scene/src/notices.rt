//! Notices in the order in which they are given.

ghost use Rattle.std.specs.Prelude.{◌≡◌, [], ◌∷◌, ◌++◌, IfOk, OnOk, OnErr};

use crate::notice::Notice;
use std::alloc::{AllocError, Global};
use std::marker::Model;

/// A list of notices, the earliest first.
#[derive(Drop)]
pub struct Notices {
    items: Vec<Notice>,
}

impl Model for Notices {
    ghost use Rattle.std.specs.Prelude.{List};
    ghost use Rattle.hd_scene.specs.declared.notice.Notice.{Notice};

    ghost Value = { List Notice };

    ghost view = { λ notices. notices.items.items };
}

impl Notices {
    /// The list without notices, which takes no memory.
    pub fn new(alloc: Global) -> Notices
        ensures { result ≡ [] }
    {
        Notices {
            items: Vec::new(alloc),
        }
    }

    /// Appends a notice. Refused it changes nothing.
    pub fn push(&mut self, notice: Notice) -> Result<(), AllocError>
        ensures ok { OnOk result (self.new ≡ self.old ++ notice ∷ []) }
        ensures err { OnErr result (self.new ≡ self.old) }
    {
        self.items.push(notice)?;
        Ok(())
    }

    /// The notices, the earliest first.
    pub fn items(&self) -> &[Notice]
        ensures { result.now ≡ self.now }
    {
        self.items.as_slice()
    }

    /// An equal list.
    pub fn copy(&self, alloc: Global) -> Result<Notices, AllocError>
        ensures { IfOk result (λ copied. copied ≡ self.now) }
    {
        let mut items = Vec::with_capacity(alloc, self.items.len())?;
        for notice in self.items() {
            items.push(notice.copy(alloc)?)?;
        }
        Ok(Notices { items })
    }
}
