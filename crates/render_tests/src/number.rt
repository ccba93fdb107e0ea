//! A content for tests, and a job that wants it.

ghost use Rattle.std.specs.Prelude.{◌≡◌, false, IfOk, Some, None, [], ◌∷◌};
ghost use Rattle.std.specs.Option.{option_map};

use hd_registry::{Content, Slot, Staging, Wants};
use std::alloc::{AllocError, Global};
use std::sync::Arc;

/// A content, of which many have one digest.
#[derive(PartialEq, Eq, Drop)]
pub(crate) struct Number(pub(crate) u64);

impl Content for Number {
    ghost use Rattle.std.specs.Prelude.{◌%◌};
    ghost use Rattle.std.proofs.Common.{rules};

    ghost digest_of = { λ x. x.0 % 4 };

    fn digest(&self) -> u64 {
        self.0 % 4
    }

    ghost same = { λ x y h. Prim.search rules };

    ghost itself = { λ x. Prim.search rules };
}

/// A job that wants one number.
#[derive(Drop)]
pub(crate) struct Numbering {
    pub(crate) number: u64,
    pub(crate) is_staged: bool,
    pub(crate) slots: [Option<Slot>; 3],
}

impl Staging for Numbering {
    ghost use Rattle.std.specs.Prelude.{Some, None, [], ◌∷◌};

    type Content = Number;

    type Subject = u64;

    ghost subject = { λ job. job.number };

    ghost wants = { λ job. Some (record { 0 = job.number }) ∷ None ∷ None ∷ [] };

    ghost is_staged = { λ job. job.is_staged };

    ghost given = { λ job. job.slots };

    fn stage(&mut self, alloc: Global) -> Result<Wants<Number>, AllocError> {
        let number = Arc::new(alloc, Number(self.number))?;
        self.is_staged = true;
        Ok(Wants {
            first: Some(number),
            second: None,
            third: None,
        })
    }

    fn give(&mut self, slots: [Option<Slot>; 3]) {
        self.slots = slots;
    }
}

/// Stages a job, and whether it wants one content alone.
fn wants_one<T: Staging>(alloc: Global, job: &mut T) -> Result<bool, AllocError>
    requires { T.is_staged job.old ≡ false }
{
    let wants = job.stage(alloc)?;
    Ok(wants.first.is_some() && wants.second.is_none() && wants.third.is_none())
}

fn numbering_wants_one(alloc: Global) -> Result<bool, AllocError> {
    let mut job = Numbering {
        number: 5,
        is_staged: false,
        slots: [None, None, None],
    };
    wants_one(alloc, &mut job)
}

#[test]
fn a_job_wants_what_it_makes(rt: HostRuntime) -> Result<(), AllocError> {
    assert!(rt; numbering_wants_one(rt.alloc())?);
    Ok(())
}
