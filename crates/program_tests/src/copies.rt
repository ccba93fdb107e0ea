//! Copies, which no run of the program makes. The contract of each `copy` says that the copy is equal.

use hd_app::{Place, Status};
use hd_num::List;
use hd_script::read_line;
use hd_usda::{LayerWhy, Which};
use std::alloc::{AllocError, Global};

/// What may go to another thread, and be lent to several.
fn across<T: Send + Sync>(value: T) -> T {
    value
}

/// The name of a file.
fn file_name(alloc: Global) -> Result<List<u8>, AllocError> {
    List::of(alloc, Vec::from_slice(alloc, b"a".as_slice())?)
}

fn is_copied(status: &Status) -> bool {
    status.copy().is_ok()
}

/// A status that names a file, by this number.
fn status_of(alloc: Global, number: u8) -> Result<Status, AllocError> {
    let name = file_name(alloc)?;
    Ok(match number {
        2 => Status::Layer {
            file: name,
            line: 7,
            why: LayerWhy::Syntax,
        },
        4 => Status::Limit {
            place: Place::Line(name, 7),
            which: Which::Depth,
            count: 32,
        },
        _ => Status::ReadFault { name },
    })
}

/// Whether each status that names a file is copied.
fn statuses_are_copied(alloc: Global) -> Result<bool, AllocError> {
    Ok(
        is_copied(&across(status_of(alloc, 2)?))
            && is_copied(&status_of(alloc, 4)?)
            && is_copied(&status_of(alloc, 5)?),
    )
}

#[test]
fn a_status_is_copied(rt: HostRuntime) {
    assert!(rt; statuses_are_copied(rt.alloc()) == Ok(true));
}

/// Whether the command of a line is copied.
fn is_command_copied(alloc: Global, line: &str) -> bool {
    match read_line(alloc, line.as_bytes()) {
        Ok(Some(command)) => across(command).copy().is_ok(),
        _ => false,
    }
}

/// Whether each command that takes memory is copied.
fn commands_are_copied(alloc: Global) -> bool {
    is_command_copied(alloc, "def Mesh /A")
        && is_command_copied(alloc, "set /A token purpose = \"guide\"")
        && is_command_copied(alloc, "clear /A purpose")
        && is_command_copied(alloc, "remove /A")
        && is_command_copied(alloc, "rename /A /B")
        && is_command_copied(alloc, "dump d")
        && is_command_copied(alloc, "start f 4 5 /C")
}

#[test]
fn a_command_is_copied(rt: HostRuntime) {
    assert!(rt; commands_are_copied(rt.alloc()));
}
