//! What faults say of themselves.

use hd_io::OutsideFault;
use hd_path::PathFault;
use std::alloc::{AllocError, Global};

const SAYINGS: &str =
    "no path goes on at byte 3; more than 32 names; a name of more than 64 bytes; out of memory; the outside failed; out of memory";

/// Whether each fault says what is wrong.
fn faults_are_printed(alloc: Global) -> Result<bool, AllocError> {
    let printed = format!(in alloc;
        "{}; {}; {}; {}; {}; {}",
        PathFault::Syntax { at: 3 },
        PathFault::TooDeep,
        PathFault::NameTooLong,
        PathFault::NoMemory,
        OutsideFault::Failed,
        OutsideFault::NoMemory
    )?;
    Ok(printed.as_str() == SAYINGS)
}

#[test]
fn a_fault_says_what_is_wrong(rt: HostRuntime) {
    assert!(rt; faults_are_printed(rt.alloc()) == Ok(true));
}
