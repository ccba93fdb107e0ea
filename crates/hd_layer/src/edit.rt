//! Edits of a layer.

ghost use Rattle.std.specs.Prelude.{◌≡◌, IfOk};

use crate::spec::Property;
use hd_path::{Path, Token};
use std::alloc::AllocError;

/// A change of one layer at the paths of its prims, none of which is the root.
#[derive(Drop)]
pub enum Edit {
    /// The prim is there and has this type, the empty token for none, and no properties.
    Define {
        kind: Token,
        path: Path,
    },
    /// The prim has the property. `None` is for a property that is not used, which changes nothing.
    Set {
        path: Path,
        property: Option<Property>,
    },
    /// The prim has no property of this name.
    Clear {
        path: Path,
        name: Token,
    },
    /// The prim and all prims below it are absent.
    Remove {
        path: Path,
    },
    /// The prim and all prims below it are at another path.
    Rename {
        from: Path,
        to: Path,
    },
}

/// The property, if there is one, which shares what this one holds.
fn copied(property: &Option<Property>) -> Result<Option<Property>, AllocError>
    ensures { IfOk result (λ copied. copied ≡ property.now) }
{
    match property {
        Some(property) => Ok(Some(property.copy()?)),
        None => Ok(None),
    }
}

impl Edit {
    /// An edit that shares what this one holds.
    pub fn copy(&self) -> Result<Edit, AllocError>
        ensures { IfOk result (λ copied. copied ≡ self.now) }
    {
        Ok(match self {
            Edit::Define { kind, path } => Edit::Define {
                kind: kind.copy()?,
                path: path.copy()?,
            },
            Edit::Set { path, property } => Edit::Set {
                path: path.copy()?,
                property: copied(property)?,
            },
            Edit::Clear { path, name } => Edit::Clear {
                path: path.copy()?,
                name: name.copy()?,
            },
            Edit::Remove { path } => Edit::Remove { path: path.copy()? },
            Edit::Rename { from, to } => Edit::Rename {
                from: from.copy()?,
                to: to.copy()?,
            },
        })
    }
}
