//! Tests of containers and locators.

use crate::across;
use hd_value::{Container, Group, Locator, LocatorSet, Value};
use std::alloc::{AllocError, Global};

/// Whether the calls of a container that take memory succeed.
fn container_calls_succeed(alloc: Global) -> Result<bool, AllocError> {
    let place = across(Locator::of(alloc, &["mesh", "counts"])?);
    let mut container = across(Container::new());
    let is_set = place.len() > 0
        && container.is_free(&place)
        && container.set(alloc, &place, Value::Flag(true)).is_ok();
    Ok(
        is_set
            && container.copy().is_ok()
            && Container::overlay(alloc, &[&container, &container]).is_ok(),
    )
}

#[test]
fn a_value_is_put_and_copied(rt: HostRuntime) {
    assert!(rt; container_calls_succeed(rt.alloc()) == Ok(true));
}

/// Whether the calls of locators and their sets that take memory succeed.
fn locator_calls_succeed(alloc: Global) -> Result<bool, AllocError> {
    let color = Group::Color.locator(alloc)?;
    let mut set = across(LocatorSet::new(alloc));
    let is_inserted = set.insert(&color).is_ok();
    Ok(
        is_inserted
            && set.copy(alloc).is_ok()
            && color.copy(alloc).is_ok()
            && Group::Color.locators_before_flattening(alloc).is_ok(),
    )
}

#[test]
fn a_locator_is_put_into_a_set(rt: HostRuntime) {
    assert!(rt; locator_calls_succeed(rt.alloc()) == Ok(true));
}
