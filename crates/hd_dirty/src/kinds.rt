//! The groups of values that prims of a kind have, and the bits that locators reach.

ghost use Rattle.std.specs.Prelude.{◌≡◌, filter};
ghost use Rattle.hd_dirty.specs.Bits.{bits_of_groups, number_of};
ghost use Rattle.hd_dirty.specs.Kinds.{groups_of, all_of, bits_of};
ghost use Rattle.hd_value.specs.Groups.{locator_of_group};
ghost use Rattle.hd_value.specs.LocatorSets.{touches};

use crate::bits::Bits;
use bitflags::Flags;
use hd_path::Token;
use hd_tokens::kinds;
use hd_value::{Group, LocatorSet};

const MESH: &[Group] = &[
    Group::Points,
    Group::Topology,
    Group::Color,
    Group::Transform,
    Group::Visibility,
    Group::Purpose,
    Group::Binding,
    Group::Instancer,
];

const POINTS: &[Group] = &[
    Group::Points,
    Group::Color,
    Group::Transform,
    Group::Visibility,
    Group::Purpose,
    Group::Binding,
    Group::Instancer,
];

const CAMERA: &[Group] = &[Group::Transform];

const MATERIAL: &[Group] = &[Group::MaterialColor];

const POINT_INSTANCER: &[Group] = &[
    Group::Transform,
    Group::Visibility,
    Group::Instancer,
    Group::Instances,
];

/// The groups of values that are read of a prim of this kind.
pub fn groups_of(kind: &Token) -> &'static [Group]
    ensures { result.now ≡ groups_of kind.now }
{
    let kind = kind.text();
    if kind == kinds::MESH {
        MESH
    } else if kind == kinds::POINTS {
        POINTS
    } else if kind == kinds::CAMERA {
        CAMERA
    } else if kind == kinds::MATERIAL {
        MATERIAL
    } else if kind == kinds::POINT_INSTANCER {
        POINT_INSTANCER
    } else {
        &[]
    }
}

/// All bits of a prim of this kind.
pub fn all_of(kind: &Token) -> Bits
    ensures { number_of result ≡ all_of kind.now }
{
    bits_of_groups(groups_of(kind))
}

/// The bits of a prim of this kind whose values the locators of the set reach: those with a locator that a member begins
/// with, or that begins with a member.
pub fn bits_of(kind: &Token, set: &LocatorSet) -> Bits
    ensures { number_of result ≡ bits_of kind.now set.now }
{
    reached_bits(groups_of(kind), set)
}

fn bits_of_groups(groups: &[Group]) -> Bits
    ensures { number_of result ≡ bits_of_groups groups.now }
{
    match groups.split_first() {
        None => Bits::empty(),
        Some((group, groups)) => Bits::of_group(*group).union(bits_of_groups(groups)),
    }
}

fn reached_bits(groups: &[Group], set: &LocatorSet) -> Bits
    ensures { number_of result ≡ bits_of_groups (filter (λ group. touches set.now (locator_of_group group)) groups.now) }
{
    match groups.split_first() {
        None => Bits::empty(),
        Some((group, groups)) => {
            let rest = reached_bits(groups, set);
            if set.intersects_at(group.tokens()) {
                Bits::of_group(*group).union(rest)
            } else {
                rest
            }
        }
    }
}
