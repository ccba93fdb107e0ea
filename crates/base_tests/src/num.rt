//! A worked example of transform ops, and which lists are equal.

use crate::across;
use hd_num::{Axis, List, Op, Vec3};
use std::alloc::{AllocError, Global};

/// Where a translation and then a quarter turn about z move the origin.
fn moved_and_turned() -> Option<Vec3> {
    let translation = Op::Translate(Vec3 { x: 1, y: 2, z: 3 }).matrix()?;
    let both = translation.compose(&Op::Rotate(Axis::Z, 1).matrix()?)?;
    across(both).apply(Vec3 { x: 0, y: 0, z: 0 })
}

#[test]
fn a_translation_comes_before_a_turn(rt: HostRuntime) {
    assert!(rt; moved_and_turned() == Some(Vec3 { x: -2, y: 1, z: 3 }));
}

/// A list of these numbers.
fn list_of(alloc: Global, numbers: &[i64]) -> Result<List<i64>, AllocError> {
    let mut items = Vec::new(alloc);
    for number in numbers {
        items.push(*number)?;
    }
    List::of(alloc, items)
}

/// Which of five comparisons hold, a bit for each: with the same items, with none, with another item, with one more, and of two
/// lists without items of which one was made without memory.
fn equal_lists(alloc: Global) -> Result<u8, AllocError> {
    let list = list_of(alloc, &[3, 5])?;
    let none = list_of(alloc, &[])?;
    let same = list == list_of(alloc, &[3, 5])?;
    let shorter = list == none;
    let other = list == list_of(alloc, &[3, 6])?;
    let longer = list == list_of(alloc, &[3, 5, 5])?;
    let both_empty = none == List::empty();
    Ok(
        (same as u8)
            + 2 * (shorter as u8)
            + 4 * (other as u8)
            + 8 * (longer as u8)
            + 16 * (both_empty as u8),
    )
}

#[test]
fn lists_are_equal_by_their_items(rt: HostRuntime) {
    assert!(rt; equal_lists(rt.alloc()) == Ok(17));
}
