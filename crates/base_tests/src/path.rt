//! Tests of paths.

use crate::across;
use hd_path::{Path, PathFault};
use std::alloc::Global;

/// Whether the calls of a path that take memory succeed.
fn calls_succeed(alloc: Global, path: &Path) -> bool {
    let root = Path::root();
    path.depth() > 0
        && path.parent(alloc).is_ok()
        && path.child(alloc, "c").is_ok()
        && path.has_prefix(&root)
        && path.replace_prefix(alloc, &root, path).is_ok()
        && path.to_text(alloc).is_ok()
        && path.copy().is_ok()
}

fn path_calls_succeed(alloc: Global) -> Result<bool, PathFault> {
    let path = across(Path::parse(alloc, "/A/b_1")?);
    Ok(calls_succeed(alloc, &path))
}

#[test]
fn a_path_has_neighbours(rt: HostRuntime) {
    assert!(rt; path_calls_succeed(rt.alloc()) == Ok(true));
}
