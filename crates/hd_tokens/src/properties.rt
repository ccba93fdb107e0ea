//! The used properties: the name of each, what its value is, its locator, and the types that it may have.

ghost use Rattle.std.specs.Prelude.{◌≡◌, ◌≤◌, codes, find, map, nat_eq, length, IsTrue};
ghost use Rattle.std.specs.List.{starts_with};
ghost use Rattle.std.specs.Option.{option_copied, option_map};
ghost use Rattle.std.specs.Str.{bytes_eq};
ghost use Rattle.hd_tokens.specs.Names.{is_any};
ghost use Rattle.hd_tokens.specs.Properties.{named_property, op_value_kind, op_kind_of, content_of, attribute_kind_of, is_target_name, types_of, is_array, allows, visibilities, purposes, is_op_entry};
ghost use Rattle.hd_tokens.specs.Tables.{property_in, op_kind_in, texts};

use crate::locators;
use crate::words::{is_joined, part_len};

/// What the value of a used attribute is.
#[derive(Clone, Copy, Debug, PartialEq, Eq)]
pub enum AttributeKind {
    Points,
    Numbers,
    /// Colors with channels from 0 to 1.
    Colors,
    /// Colors with channels from 0 to 255.
    ByteColors,
    OpOrder,
    Visibility,
    Purpose,
    /// A translation, or the factors of a scaling.
    Vector,
    /// Degrees about one axis.
    Angle,
    /// Degrees about each axis.
    Angles,
    Transform,
    ByteColor,
}

/// What the value of a used property is.
#[derive(Clone, Copy, Debug, PartialEq, Eq)]
pub enum Content {
    /// That of an attribute.
    Attribute(AttributeKind),
    /// The paths of a relationship.
    Targets,
}

/// A property that the pipeline uses.
#[derive(Clone, Copy)]
pub struct UsedProperty {
    pub name: &'static str,
    pub content: Content,
    /// Where its value is in the container of a prim.
    pub locator: &'static [&'static str],
}

/// A kind of transform ops.
#[derive(Clone, Copy)]
pub struct OpKind {
    /// What follows `xformOp:` in the name of an op.
    pub name: &'static str,
    pub kind: AttributeKind,
}

/// The used properties but the transform ops.
pub const USED_PROPERTIES: &[UsedProperty] = &[
    UsedProperty {
        name: "points",
        content: Content::Attribute(AttributeKind::Points),
        locator: locators::POINTS,
    },
    UsedProperty {
        name: "faceVertexCounts",
        content: Content::Attribute(AttributeKind::Numbers),
        locator: locators::FACE_VERTEX_COUNTS,
    },
    UsedProperty {
        name: "faceVertexIndices",
        content: Content::Attribute(AttributeKind::Numbers),
        locator: locators::FACE_VERTEX_INDICES,
    },
    UsedProperty {
        name: "primvars:displayColor",
        content: Content::Attribute(AttributeKind::Colors),
        locator: locators::DISPLAY_COLOR,
    },
    UsedProperty {
        name: "primvars:color8",
        content: Content::Attribute(AttributeKind::ByteColors),
        locator: locators::COLOR8,
    },
    UsedProperty {
        name: "xformOpOrder",
        content: Content::Attribute(AttributeKind::OpOrder),
        locator: locators::XFORM_OP_ORDER,
    },
    UsedProperty {
        name: "visibility",
        content: Content::Attribute(AttributeKind::Visibility),
        locator: locators::VISIBILITY,
    },
    UsedProperty {
        name: "purpose",
        content: Content::Attribute(AttributeKind::Purpose),
        locator: locators::PURPOSE,
    },
    UsedProperty {
        name: "material:binding",
        content: Content::Targets,
        locator: locators::BINDING,
    },
    UsedProperty {
        name: "positions",
        content: Content::Attribute(AttributeKind::Points),
        locator: locators::POSITIONS,
    },
    UsedProperty {
        name: "protoIndices",
        content: Content::Attribute(AttributeKind::Numbers),
        locator: locators::PROTO_INDICES,
    },
    UsedProperty {
        name: "prototypes",
        content: Content::Targets,
        locator: locators::PROTOTYPES,
    },
    UsedProperty {
        name: "color8",
        content: Content::Attribute(AttributeKind::ByteColor),
        locator: locators::MATERIAL_COLOR8,
    },
];

/// The kinds of transform ops.
pub const OP_KINDS: &[OpKind] = &[
    OpKind {
        name: "translate",
        kind: AttributeKind::Vector,
    },
    OpKind {
        name: "scale",
        kind: AttributeKind::Vector,
    },
    OpKind {
        name: "rotateX",
        kind: AttributeKind::Angle,
    },
    OpKind {
        name: "rotateY",
        kind: AttributeKind::Angle,
    },
    OpKind {
        name: "rotateZ",
        kind: AttributeKind::Angle,
    },
    OpKind {
        name: "rotateXYZ",
        kind: AttributeKind::Angles,
    },
    OpKind {
        name: "transform",
        kind: AttributeKind::Transform,
    },
];

/// What a visibility may be.
pub const VISIBILITIES: &[&str] = &["inherited", "invisible"];

/// What a purpose may be.
pub const PURPOSES: &[&str] = &["default", "render", "proxy", "guide"];

/// What the name of a transform op begins with.
pub const OP_PREFIX: &str = "xformOp:";

const VECTOR_TYPES: &[&str] = &["float3", "double3", "half3"];

const POINT_TYPES: &[&str] = &[
    "point3f", "point3d", "point3h", "float3", "double3", "half3",
];

const COLOR_TYPES: &[&str] = &[
    "color3f", "color3d", "color3h", "float3", "double3", "half3",
];

const ANGLE_TYPES: &[&str] = &["float", "double", "half"];

/// The used property of this name among these.
fn property_among(properties: &'static [UsedProperty], name: &[u8]) -> Option<&'static UsedProperty>
    ensures { option_map property_in (option_copied result) ≡ find (λ p. bytes_eq name.now p.name) (map property_in properties.now) }
{
    match properties {
        [] => None,
        [property, rest @ ..] => {
            if name == property.name.as_bytes() {
                Some(property)
            } else {
                property_among(rest, name)
            }
        }
    }
}

/// The used property of this name, where it is no transform op.
pub fn named_property(name: &[u8]) -> Option<&'static UsedProperty>
    ensures { option_map property_in (option_copied result) ≡ named_property name.now }
{
    property_among(USED_PROPERTIES, name)
}

/// The kind of ops of this name among these.
fn op_kind_among(kinds: &'static [OpKind], name: &[u8]) -> Option<&'static OpKind>
    ensures { option_map op_kind_in (option_copied result) ≡ find (λ k. bytes_eq name.now k.name) (map op_kind_in kinds.now) }
{
    match kinds {
        [] => None,
        [kind, rest @ ..] => {
            if name == kind.name.as_bytes() {
                Some(kind)
            } else {
                op_kind_among(rest, name)
            }
        }
    }
}

/// What the value of an op of this kind is.
fn op_value_kind(name: &[u8]) -> Option<AttributeKind>
    ensures { result ≡ op_value_kind name.now }
{
    match op_kind_among(OP_KINDS, name) {
        Some(kind) => Some(kind.kind),
        None => None,
    }
}

/// Is the text one of the words?
fn is_any(words: &[&str], text: &[u8]) -> bool
    ensures { result ≡ is_any (texts words.now) text.now }
{
    match words {
        [] => false,
        [word, rest @ ..] => text == word.as_bytes() || is_any(rest, text),
    }
}

/// Does the name begin as that of an op?
fn begins_op(name: &[u8]) -> bool
    ensures begins { result ≡ starts_with nat_eq name.now (codes "xformOp:") }
    ensures bound { IsTrue result → 8 ≤ length name.now }
{
    name.starts_with(b"xformOp:".as_slice())
}

/// What the value of the op of this name is.
#[tactic(auto, unfolding(crate::specs::Properties::op_kind_of))]
fn op_kind_of(name: &[u8]) -> Option<AttributeKind>
    ensures { result ≡ op_kind_of name.now }
{
    if !begins_op(name) || !is_joined(name) {
        return None;
    }
    let kind = &name[8..];
    op_value_kind(&kind[..part_len(kind)])
}

/// What the value of the used property of this name is: `None` where no used property has the name.
#[tactic(auto, unfolding(crate::specs::Properties::property_of, crate::specs::Properties::content_of))]
pub fn content_of(name: &[u8]) -> Option<Content>
    ensures { result ≡ content_of name.now }
{
    if begins_op(name) {
        op_content(op_kind_of(name))
    } else {
        named_content(name)
    }
}

fn op_content(kind: Option<AttributeKind>) -> Option<Content>
    ensures { result ≡ option_map Content.Attribute kind }
{
    Some(Content::Attribute(kind?))
}

fn named_content(name: &[u8]) -> Option<Content>
    ensures { result ≡ option_map (λ p. p.content) (named_property name.now) }
{
    match named_property(name) {
        Some(property) => Some(property.content),
        None => None,
    }
}

/// What a used attribute of this name is, if there is one.
#[tactic(auto, unfolding(crate::specs::Properties::attribute_kind_of))]
pub fn attribute_kind_of(name: &[u8]) -> Option<AttributeKind>
    ensures { result ≡ attribute_kind_of name.now }
{
    match content_of(name)? {
        Content::Attribute(kind) => Some(kind),
        Content::Targets => None,
    }
}

/// Is it the name of a used relationship?
pub fn is_target_name(name: &[u8]) -> bool
    ensures { result ≡ is_target_name name.now }
{
    matches!(content_of(name), Some(Content::Targets))
}

/// The types that an attribute may have, but for the brackets of an array.
fn types_of(kind: AttributeKind) -> &'static [&'static str]
    ensures { texts result.now ≡ types_of kind }
{
    match kind {
        AttributeKind::Points => POINT_TYPES,
        AttributeKind::Numbers => &["int"],
        AttributeKind::Colors => COLOR_TYPES,
        AttributeKind::ByteColors | AttributeKind::ByteColor => &["int3"],
        AttributeKind::OpOrder | AttributeKind::Visibility | AttributeKind::Purpose => &["token"],
        AttributeKind::Vector | AttributeKind::Angles => VECTOR_TYPES,
        AttributeKind::Angle => ANGLE_TYPES,
        AttributeKind::Transform => &["matrix4d"],
    }
}

/// Is the type of the attribute that of an array?
fn is_array(kind: AttributeKind) -> bool
    ensures { result ≡ is_array kind }
{
    match kind {
        AttributeKind::Points
        | AttributeKind::Numbers
        | AttributeKind::Colors
        | AttributeKind::ByteColors
        | AttributeKind::OpOrder => true,
        AttributeKind::Visibility
        | AttributeKind::Purpose
        | AttributeKind::Vector
        | AttributeKind::Angle
        | AttributeKind::Angles
        | AttributeKind::Transform
        | AttributeKind::ByteColor => false,
    }
}

/// May the attribute have this type, with the brackets of an array or without?
pub fn allows(kind: AttributeKind, word: &[u8], brackets: bool) -> bool
    ensures { result ≡ allows kind word.now brackets }
{
    is_any(types_of(kind), word) && brackets == is_array(kind)
}

/// May the text be a visibility?
pub fn is_visibility(text: &[u8]) -> bool
    ensures { result ≡ is_any visibilities text.now }
{
    is_any(VISIBILITIES, text)
}

/// May the text be a purpose?
pub fn is_purpose(text: &[u8]) -> bool
    ensures { result ≡ is_any purposes text.now }
{
    is_any(PURPOSES, text)
}

/// May the text be an entry of an op order, the first one or another?
pub fn is_op_entry(first: bool, text: &[u8]) -> bool
    ensures { result ≡ is_op_entry first text.now }
{
    (first && text == b"!resetXformStack!".as_slice()) || op_kind_of(text).is_some()
}
