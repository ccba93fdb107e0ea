//! Contents in a registry.

ghost use Rattle.std.specs.Prelude.{◌≡◌, ◌≤◌, true, IfOk};
ghost use Rattle.hd_registry.specs.Entries.{is_kept, users_at};

use crate::number::Number;
use hd_registry::{Registry, Slot};
use std::alloc::{AllocError, Global};
use std::sync::Arc;

/// A registry in which one content was registered twice, and the slots that it was given.
fn registered_twice(alloc: Global) -> Result<(Registry<Number>, Slot, Slot), AllocError>
    ensures { IfOk result (λ made. is_kept made.0 made.1 ≡ true) }
{
    let mut registry = Registry::new(alloc)?;
    let first = registry.register(alloc, Arc::new(alloc, Number(5))?)?;
    let second = registry.register(alloc, Arc::new(alloc, Number(5))?)?;
    Ok((registry, first, second))
}

#[test]
fn equal_contents_have_one_slot(rt: HostRuntime) -> Result<(), AllocError> {
    assert!(rt; slots_are_one(rt.alloc())?);
    Ok(())
}

fn slots_are_one(alloc: Global) -> Result<bool, AllocError> {
    let (_, first, second) = registered_twice(alloc)?;
    Ok(first == second)
}

/// Takes one user from a slot that has any.
fn release_one(registry: &mut Registry<Number>, slot: Slot)
    requires { is_kept registry.old slot ≡ true }
    ensures { is_kept registry.new slot ≡ true }
{
    if registry.users(slot) > 0 {
        registry.release(slot);
    }
}

fn users_of_two(alloc: Global) -> Result<u64, AllocError> {
    let (registry, first, _) = registered_twice(alloc)?;
    Ok(registry.users(first))
}

#[test]
fn each_registration_is_a_user(rt: HostRuntime) -> Result<(), AllocError> {
    assert!(rt; users_of_two(rt.alloc())? == 2);
    Ok(())
}

fn live_after_releases(alloc: Global) -> Result<usize, AllocError> {
    let (mut registry, slot, _) = registered_twice(alloc)?;
    release_one(&mut registry, slot);
    release_one(&mut registry, slot);
    Ok(registry.live())
}

#[test]
fn an_entry_without_users_stays(rt: HostRuntime) -> Result<(), AllocError> {
    assert!(rt; live_after_releases(rt.alloc())? == 1);
    Ok(())
}

fn collected_after_releases(alloc: Global) -> Result<usize, AllocError> {
    let (mut registry, slot, _) = registered_twice(alloc)?;
    release_one(&mut registry, slot);
    release_one(&mut registry, slot);
    Ok(registry.collect())
}

#[test]
fn an_entry_without_users_is_collected(rt: HostRuntime) -> Result<(), AllocError> {
    assert!(rt; collected_after_releases(rt.alloc())? == 1);
    Ok(())
}

fn live_after_collection(alloc: Global) -> Result<usize, AllocError> {
    let (mut registry, slot, _) = registered_twice(alloc)?;
    release_one(&mut registry, slot);
    release_one(&mut registry, slot);
    let _ = registry.collect();
    Ok(registry.live())
}

#[test]
fn nothing_is_left_after_the_collection(rt: HostRuntime) -> Result<(), AllocError> {
    assert!(rt; live_after_collection(rt.alloc())? == 0);
    Ok(())
}
