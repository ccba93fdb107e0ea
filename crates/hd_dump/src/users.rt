//! The slots that rows use, numbered by first use, and how many uses each has.

ghost use Rattle.std.specs.Prelude.{ℕ, ◌+◌, ◌<◌, ◌^◌, [], ◌∷◌, IfOk, OnOk};
ghost use Rattle.hd_rprim.specs.Shown.{slots_of};
ghost use Rattle.hd_dump.specs.inner.Numbering.{slots_in, slot_uses, uses_at, Counts, CountsAll};

use hd_registry::Slot;
use hd_rprim::{Row, RowTable};
use indexmap::IndexMap;
use std::alloc::{AllocError, Global};

/// The slots in the order of first use, each with the number of its uses. A row has up to three uses, so 64 bits do not
/// hold each number of uses.
pub(crate) fn count_users(
    alloc: Global,
    rows: &RowTable,
) -> Result<IndexMap<Slot, u128>, AllocError>
    ensures { IfOk result (CountsAll (slot_uses rows.now)) }
{
    let mut users = IndexMap::new(alloc);
    'rows: for i in 0..rows.len() {
        count_row(&mut users, rows.row_at(i))?;
    }
    Ok(users)
}

/// Counts the uses of a row: points, triangles and colors.
fn count_row(users: &mut IndexMap<Slot, u128>, row: &Row) -> Result<(), AllocError>
    requires { (slot : ℕ) → uses_at users.old slot + 3 < 2 ^ 128 }
    ensures { OnOk result (Counts users.old (slots_in (slots_of row.now)) users.new) }
{
    if let Row::Rprim(row) = row {
        count_use(users, row.points)?;
        count_use(users, row.triangles)?;
        count_use(users, row.colors)?;
    }
    Ok(())
}

/// Counts the use of a slot, where there is one.
fn count_use(users: &mut IndexMap<Slot, u128>, slot: Option<Slot>) -> Result<(), AllocError>
    requires { (slot : ℕ) → uses_at users.old slot + 1 < 2 ^ 128 }
    ensures { OnOk result (Counts users.old (slots_in (slot ∷ [])) users.new) }
{
    let Some(slot) = slot else {
        return Ok(());
    };
    let count = users.get(&slot).copied().unwrap_or(0);
    users.insert(slot, count + 1)?;
    Ok(())
}
