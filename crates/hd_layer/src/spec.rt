//! What a text says.

ghost use Rattle.std.specs.Prelude.{◌≡◌, IfOk};

use hd_num::{List, Matrix, Vec3};
use hd_path::{Path, Token};
use std::alloc::AllocError;

/// The value of a used property, as its text spells it.
#[derive(Drop)]
pub enum RawValue {
    /// Numbers of at most 1,048,576 in absolute value.
    Numbers(List<i64>),
    /// Triples of such numbers.
    Triples(List<Vec3>),
    /// The contents of strings.
    Words(List<Token>),
    /// Paths of prims, none of which is the root.
    Paths(List<Path>),
    Matrix(Matrix),
}

/// A used property with its value.
#[derive(Drop)]
pub struct Property {
    pub name: Token,
    pub value: RawValue,
}

/// A prim with its used properties, in the order of the text.
#[derive(Drop)]
pub struct PrimSpec {
    pub path: Path,
    /// The empty token where none is given.
    pub kind: Token,
    pub properties: List<Property>,
}

/// The prims of a text, in the order of their paths.
#[derive(Drop)]
pub struct LayerSpec {
    pub prims: List<PrimSpec>,
}

impl RawValue {
    /// A value that shares the items of this one.
    pub fn copy(&self) -> Result<RawValue, AllocError>
        ensures { IfOk result (λ copied. copied ≡ self.now) }
    {
        Ok(match self {
            RawValue::Numbers(numbers) => RawValue::Numbers(numbers.copy()?),
            RawValue::Triples(triples) => RawValue::Triples(triples.copy()?),
            RawValue::Words(words) => RawValue::Words(words.copy()?),
            RawValue::Paths(paths) => RawValue::Paths(paths.copy()?),
            RawValue::Matrix(matrix) => RawValue::Matrix(*matrix),
        })
    }
}

impl Property {
    /// A property that shares the name and the value of this one.
    pub fn copy(&self) -> Result<Property, AllocError>
        ensures { IfOk result (λ copied. copied ≡ self.now) }
    {
        Ok(Property {
            name: self.name.copy()?,
            value: self.value.copy()?,
        })
    }
}

impl PrimSpec {
    /// A prim that shares what this one holds.
    pub fn copy(&self) -> Result<PrimSpec, AllocError>
        ensures { IfOk result (λ copied. copied ≡ self.now) }
    {
        Ok(PrimSpec {
            path: self.path.copy()?,
            kind: self.kind.copy()?,
            properties: self.properties.copy()?,
        })
    }
}

impl LayerSpec {
    /// A layer that shares the prims of this one.
    pub fn copy(&self) -> Result<LayerSpec, AllocError>
        ensures { IfOk result (λ copied. copied ≡ self.now) }
    {
        Ok(LayerSpec {
            prims: self.prims.copy()?,
        })
    }
}
