//! The grammar of a layer after its header: prims, their properties, metadata and values.

pub mod attribute;
pub mod header;
pub mod kept;
pub mod metadata;
pub mod name_set;
pub mod prims;
pub mod property;
pub mod rule;
pub mod value;
