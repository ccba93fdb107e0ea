//! Which calls of an object in memory fail, and how much one call moves.

ghost use Rattle.std.specs.Prelude.{◌≡◌, ◌≤◌, ◌↔◌, IsTrue, OnOk, IsErr, IsErrOf};
ghost use Rattle.hd_io.specs.declared.fault.OutsideFault.TheVariants.{Failed};
ghost use Rattle.hd_io.specs.Causes.{Rose};
ghost use Rattle.hd_io.specs.Memory.{first_call, count_call, IsDue, KeepsToPlan};

use crate::OutsideFault;
use std::marker::Model;

/// The calls of an object in memory, which are numbered from 0.
#[derive(Drop)]
pub(crate) struct Calls {
    next: u64,
    failing: Vec<u64>,
    piece: usize,
}

impl Model for Calls {
    ghost use Rattle.std.specs.Prelude.{◌≤◌};
    ghost use Rattle.hd_io.specs.Memory.{CallPlan};

    ghost Value = { CallPlan };

    ghost view = { λ c. record { next = c.next; failing = c.failing.items; piece = c.piece } };

    ghost invariant = { λ c. 1 ≤ c.piece };
}

impl Calls {
    pub(crate) fn new(failing: Vec<u64>, piece: usize) -> Self
        requires { 1 ≤ piece }
        ensures { result ≡ first_call failing.items piece }
    {
        Calls {
            next: 0,
            failing,
            piece,
        }
    }

    /// Counts a call, and says whether it is one of those that fail.
    pub(crate) fn fails(&mut self) -> bool
        ensures answer { IsTrue result ↔ IsDue self.old }
        ensures counted { self.new ≡ count_call self.old }
    {
        let number = self.next;
        self.next = number.saturating_add(1);
        self.failing.contains(&number)
    }

    /// Counts a call, and adds the fault of one of those that fail to the faults.
    pub(crate) fn begin(&mut self, faults: &mut u64) -> Result<(), OutsideFault>
        ensures plan { KeepsToPlan self.old self.new result }
        ensures due { IsDue self.old → IsErrOf result Failed }
        ensures failed_only { IsErr result → IsDue self.old }
        ensures counted { IsErr result → Rose faults.old faults.new }
        ensures unchanged { OnOk result (faults.new ≡ faults.old) }
    {
        if self.fails() {
            *faults = faults.saturating_add(1);
            return Err(OutsideFault::Failed);
        }
        Ok(())
    }

    /// The most bytes that one call moves, at least one.
    pub(crate) fn piece(&self) -> usize
        ensures piece { result ≡ self.now.piece }
        ensures some { 1 ≤ result }
    {
        self.piece
    }
}
