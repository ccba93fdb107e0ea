//! Lists of notices, and copies of them and of prims.

use crate::fixtures::{across, path};
use hd_path::Token;
use hd_scene::{Entry, Notice, Notices, Prim};
use hd_value::{Container, Locator, LocatorSet};
use std::alloc::{AllocError, Global};
use std::test::Fail;

/// The tokens of the members of a set, each after a blank.
fn push_set(set: &LocatorSet, text: &mut String) -> Result<(), AllocError> {
    for member in set.members() {
        for i in 0..member.len() {
            text.push_str(" ")?;
            text.push_str(member.token(i))?;
        }
    }
    Ok(())
}

/// Adds a notice as a line.
fn push_notice(alloc: Global, notice: &Notice, text: &mut String) -> Result<(), AllocError> {
    match notice {
        Notice::Added(path, kind) => text.push_str(format!(in alloc;
            "added {} {}",
            path.as_text(),
            kind.text()
        )?.as_str())?,
        Notice::Removed(path) => {
            text.push_str("removed ")?;
            text.push_str(path.as_text())?;
        }
        Notice::Dirtied(path, set) => {
            text.push_str("dirtied ")?;
            text.push_str(path.as_text())?;
            push_set(set, text)?;
        }
        Notice::Renamed(from, to) => text.push_str(format!(in alloc;
            "renamed {} {}",
            from.as_text(),
            to.as_text()
        )?.as_str())?,
    }
    text.push_str("\n")
}

/// Adds each notice as a line.
pub fn push_notices(alloc: Global, notices: &Notices, text: &mut String) -> Result<(), AllocError> {
    for notice in notices.items() {
        push_notice(alloc, notice, text)?;
    }
    Ok(())
}

/// Whether copies of one notice of each form are those notices, in their order.
fn are_notices_copied(alloc: Global) -> Result<bool, AllocError> {
    let mut set = LocatorSet::new(alloc);
    set.insert(&Locator::of(alloc, &["mesh", "counts"])?)?;
    let mut notices = across(Notices::new(alloc));
    notices.push(Notice::Added(path(alloc, "/A")?, Token::new(alloc, "Mesh")?))?;
    notices.push(Notice::Removed(path(alloc, "/B")?))?;
    notices.push(Notice::Dirtied(path(alloc, "/C")?, set))?;
    notices.push(Notice::Renamed(path(alloc, "/D")?, path(alloc, "/E")?))?;
    let mut text = String::new(alloc);
    push_notices(alloc, &notices.copy(alloc)?, &mut text)?;
    Ok(text.as_str() == "added /A Mesh\nremoved /B\ndirtied /C mesh counts\nrenamed /D /E\n")
}

/// Whether the copy of a prim that was made of a copied entry is that prim.
fn are_prims_copied(alloc: Global) -> Result<bool, AllocError> {
    let entry = Entry {
        kind: Token::new(alloc, "Mesh")?,
        values: Container::new(),
    };
    let mesh = across(entry).copy()?;
    let there = Prim {
        kind: mesh.kind,
        values: Some(mesh.values),
    };
    let copied = across(there).copy()?;
    Ok(copied.kind.text() == "Mesh" && copied.values.is_some())
}

#[test]
fn copies_are_equal(rt: HostRuntime) -> Result<(), Fail> {
    assert!(rt; are_notices_copied(rt.alloc())? && are_prims_copied(rt.alloc())?);
    Ok(())
}
