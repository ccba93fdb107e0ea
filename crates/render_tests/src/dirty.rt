//! Dirty bits of kinds and of locators.

use bitflags::Flags;
use hd_dirty::{Bits, all_of, bits_of};
use hd_path::Token;
use hd_value::{Group, Locator, LocatorSet};
use std::alloc::{AllocError, Global};

/// The number of all bits of a kind.
fn all(alloc: Global, kind: &str) -> Result<u32, AllocError> {
    let kind = Token::new(alloc, kind)?;
    Ok(all_of(&kind).number())
}

/// The number of the bits that one locator reaches.
fn reached(alloc: Global, kind: &str, tokens: &[&str]) -> Result<u32, AllocError> {
    let kind = Token::new(alloc, kind)?;
    let mut set = LocatorSet::new(alloc);
    set.insert(&Locator::of(alloc, tokens)?)?;
    Ok(bits_of(&kind, &set).number())
}

#[test]
fn a_mesh_has_eight_bits(rt: HostRuntime) -> Result<(), AllocError> {
    assert!(rt; all(rt.alloc(), "Mesh")? == 255);
    Ok(())
}

#[test]
fn points_have_no_topology(rt: HostRuntime) -> Result<(), AllocError> {
    assert!(rt; all(rt.alloc(), "Points")? == 253);
    Ok(())
}

#[test]
fn a_camera_has_its_transform(rt: HostRuntime) -> Result<(), AllocError> {
    assert!(rt; all(rt.alloc(), "Camera")? == 8);
    Ok(())
}

#[test]
fn a_material_has_its_color(rt: HostRuntime) -> Result<(), AllocError> {
    assert!(rt; all(rt.alloc(), "Material")? == 512);
    Ok(())
}

#[test]
fn an_instancer_has_four_bits(rt: HostRuntime) -> Result<(), AllocError> {
    assert!(rt; all(rt.alloc(), "PointInstancer")? == 408);
    Ok(())
}

#[test]
fn another_kind_has_none(rt: HostRuntime) -> Result<(), AllocError> {
    assert!(rt; all(rt.alloc(), "Xform")? == 0);
    Ok(())
}

#[test]
fn primvars_reach_points_and_color(rt: HostRuntime) -> Result<(), AllocError> {
    assert!(rt; reached(rt.alloc(), "Mesh", &["primvars"])? == 5);
    Ok(())
}

#[test]
fn the_empty_locator_reaches_all(rt: HostRuntime) -> Result<(), AllocError> {
    assert!(rt; reached(rt.alloc(), "Mesh", &[])? == 255);
    Ok(())
}

#[test]
fn counts_reach_topology(rt: HostRuntime) -> Result<(), AllocError> {
    assert!(rt; reached(rt.alloc(), "Mesh", &["mesh", "counts"])? == 2);
    Ok(())
}

#[test]
fn all_flags_are_ten_bits(rt: HostRuntime) {
    assert!(rt; Bits::all().number() == 1023);
}

#[test]
fn a_union_has_both(rt: HostRuntime) {
    let both = Bits::of_group(Group::Points).union(Bits::of_group(Group::Color));
    assert!(rt; both.has(Group::Color) && !both.has(Group::Purpose));
}
