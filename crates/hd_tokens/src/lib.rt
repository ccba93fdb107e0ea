//! The vocabulary of a scene: the kinds of prims, the used properties with their types and locators, the kinds of transform ops, and the words of visibility and purpose.
#![tactic(auto)]

pub mod kinds;
pub mod locators;
mod properties;
mod words;

pub use properties::{
    AttributeKind, Content, OP_KINDS, OP_PREFIX, OpKind, PURPOSES, USED_PROPERTIES, UsedProperty,
    VISIBILITIES, allows, attribute_kind_of, content_of, is_op_entry, is_purpose, is_target_name,
    is_visibility, named_property,
};
pub use words::{is_identifier, is_joined, is_non_finite_word, part_len};
