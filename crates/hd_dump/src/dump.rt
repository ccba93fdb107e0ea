//! The dump of a table of rows.

ghost use Rattle.std.specs.Prelude.{◌≡◌, ◌++◌, map, IfOk, OnOk};
ghost use Rattle.std.specs.List.{enumerate_from, flat_map};
ghost use Rattle.indexmap.specs.IndexMap.{keys};
ghost use Rattle.hd_rprim.specs.Shown.{shown, KeepsSlots};
ghost use Rattle.hd_dump.specs.Dumps.{head_line, dump_text};
ghost use Rattle.hd_dump.specs.inner.Numbering.{slot_line, slot_entry_line, AreKept};

use crate::lines::{push_entry, push_row};
use crate::text::push_number;
use crate::users::count_users;
use hd_registry::{Registry, Slot};
use hd_rprim::{Buffer, RowTable};
use indexmap::IndexMap;
use std::alloc::{AllocError, Global};

/// The text of the rows, and of each content that they use once, with the number of its uses.
pub fn dump_text(
    alloc: Global,
    rows: &RowTable,
    registry: &Registry<Buffer>,
) -> Result<Vec<u8>, AllocError>
    requires { KeepsSlots rows.now registry.now }
    ensures { IfOk result (λ text. text.items ≡ dump_text (map (shown registry.now) rows.now)) }
{
    registry.contents_are_unique();
    let users = count_users(alloc, rows)?;
    let mut text = Vec::new(alloc);
    push_head(&mut text, rows.len(), users.len())?;
    push_rows(&mut text, rows, &users)?;
    push_entries(&mut text, registry, &users)?;
    Ok(text)
}

/// Appends the line of the counts of rows and of contents.
fn push_head(text: &mut Vec<u8>, rows: usize, contents: usize) -> Result<(), AllocError>
    ensures { OnOk result (text.new.items ≡ text.old.items ++ head_line rows contents) }
{
    text.extend_from_slice(b"dump ")?;
    push_number(text, rows)?;
    text.extend_from_slice(b" ")?;
    push_number(text, contents)?;
    text.extend_from_slice(b"\n")?;
    Ok(())
}

/// Appends the lines of the rows.
fn push_rows(
    text: &mut Vec<u8>,
    rows: &RowTable,
    users: &IndexMap<Slot, u128>,
) -> Result<(), AllocError>
    ensures { OnOk result (text.new.items ≡ text.old.items ++ flat_map (λ r. slot_line (keys users.now) r.path r.row) rows.now) }
{
    'rows: for i in 0..rows.len() {
        push_row(text, rows.path_at(i), rows.row_at(i), users)?;
    }
    Ok(())
}

/// Appends the lines of the contents.
fn push_entries(
    text: &mut Vec<u8>,
    registry: &Registry<Buffer>,
    users: &IndexMap<Slot, u128>,
) -> Result<(), AllocError>
    requires { AreKept registry.now (keys users.now) }
    ensures { OnOk result (text.new.items ≡ text.old.items
        ++ flat_map (slot_entry_line registry.now users.now) (enumerate_from 0 (keys users.now))) }
{
    'entries: for number in 0..users.len() {
        match users.get_index(number) {
            Some((slot, count)) => push_entry(text, number, registry.content(*slot), *count)?,
            None => unreachable!(),
        }
    }
    Ok(())
}
