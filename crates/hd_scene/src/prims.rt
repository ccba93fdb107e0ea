//! What a scene has at a path.

ghost use Rattle.std.specs.Prelude.{◌≡◌, None, Option, IfOk};
ghost use Rattle.hd_scene.specs.Scenes.{prim_of};
ghost use Rattle.hd_scene.specs.declared.prims.Entry.{Entry};

use hd_path::Token;
use hd_value::Container;
use std::alloc::{AllocError, Global};

/// A prim of a scene, which is there: its kind, as `Mesh`, and its values.
#[derive(Drop)]
pub struct Entry {
    pub kind: Token,
    pub values: Container,
}

/// The answer for a path: a prim, or the empty kind and no values where there is none. Crates above call it `Prim`: under
/// that name the type itself clashes, in each of them, with the module that the checker makes for it.
#[derive(Drop)]
pub struct Primitive {
    pub kind: Token,
    pub values: Option<Container>,
}

impl Entry {
    /// An equal entry, which shares what this one holds.
    pub fn copy(&self) -> Result<Entry, AllocError>
        ensures { IfOk result (λ copied. copied ≡ self.now) }
    {
        Ok(Entry {
            kind: self.kind.copy()?,
            values: self.values.copy()?,
        })
    }
}

impl Primitive {
    /// The answer for a path at which no prim is.
    pub fn absent(alloc: Global) -> Result<Primitive, AllocError>
        ensures { IfOk result (λ prim. prim ≡ prim_of None) }
    {
        Ok(Primitive {
            kind: Token::new(alloc, "")?,
            values: None,
        })
    }

    /// The answer for a path at which this prim is, or none.
    pub fn of(alloc: Global, there: Option<Entry>) -> Result<Primitive, AllocError>
        ensures { IfOk result (λ prim. prim ≡ prim_of there) }
    {
        match there {
            Some(entry) => Ok(Primitive {
                kind: entry.kind,
                values: Some(entry.values),
            }),
            None => Primitive::absent(alloc),
        }
    }

    /// The prim that was answered, if one is there.
    pub fn into_entry(self) -> Option<Entry>
        ensures { (there : Option Entry) → self ≡ prim_of there → result ≡ there }
    {
        let Primitive { kind, values } = self;
        match values {
            Some(values) => Some(Entry { kind, values }),
            None => None,
        }
    }

    /// An equal prim, which shares what this one holds.
    pub fn copy(&self) -> Result<Primitive, AllocError>
        ensures { IfOk result (λ copied. copied ≡ self.now) }
    {
        let kind = self.kind.copy()?;
        match &self.values {
            Some(values) => Ok(Primitive {
                kind,
                values: Some(values.copy()?),
            }),
            None => Ok(Primitive { kind, values: None }),
        }
    }
}
