//! What the index stores of a prim of the layer, and the key under which it stores it.

ghost use Rattle.std.specs.Prelude.{◌≡◌, ◌≢◌, [], ◌∷◌, ◌++◌, not, map, filter, IfOk, OnOk, IsTrue};
ghost use Rattle.std.specs.List.{list_all};
ghost use Rattle.std.specs.Str.{bytes_eq};
ghost use Rattle.hd_layer.specs.WellFormed.{is_property, is_prim_spec, are_distinct};
ghost use Rattle.hd_retained.specs.Layers.{entry_of, properties_of, spelled_prim};
ghost use Rattle.hd_retained.specs.Edits.{with_value, without_value};
ghost use Rattle.hd_retained.specs.inner.Indexed.{depth_key_of, prim_of, IsStored};

use hd_layer::{PrimSpec, Property};
use hd_num::List;
use hd_path::{Path, Token};
use hd_scene::Entry;
use hd_schema::to_container;
use hd_value::Container;
use std::alloc::{AllocError, Global};

/// Where a prim is. In the order of keys those of one depth that begin with one path are together.
#[derive(PartialEq, Eq, PartialOrd, Ord, Drop)]
pub(crate) struct DepthKey {
    pub(crate) depth: usize,
    pub(crate) path: Path,
}

impl DepthKey {
    /// The key of a path.
    pub(crate) fn of(path: &Path) -> Result<DepthKey, AllocError>
        ensures { IfOk result (λ key. key ≡ depth_key_of path.now) }
    {
        Ok(DepthKey {
            depth: path.depth(),
            path: path.copy()?,
        })
    }

    /// An equal key.
    pub(crate) fn copy(&self) -> Result<DepthKey, AllocError>
        ensures { IfOk result (λ copied. copied ≡ self.now) }
    {
        Ok(DepthKey {
            depth: self.depth,
            path: self.path.copy()?,
        })
    }
}

/// What is stored of a prim of the layer, which in specifications is a `LayerPrim`: its kind and its properties, and with
/// them the values that these author.
#[derive(Drop)]
pub(crate) struct StoredPrim {
    pub(crate) kind: Token,
    pub(crate) properties: List<Property>,
    pub(crate) values: Container,
}

impl StoredPrim {
    /// A prim without properties.
    pub(crate) fn of_kind(kind: &Token) -> Result<StoredPrim, AllocError>
        ensures kind { IfOk result (λ stored. stored.kind ≡ kind.now) }
        ensures properties { IfOk result (λ stored. stored.properties ≡ []) }
        ensures stored { IfOk result IsStored }
    {
        Ok(StoredPrim {
            kind: kind.copy()?,
            properties: List::empty(),
            values: Container::new(),
        })
    }

    /// A prim as a text spells it, whose properties are shared.
    pub(crate) fn of_spec(alloc: Global, spec: &PrimSpec) -> Result<StoredPrim, AllocError>
        requires { IsTrue (is_prim_spec spec.now) }
        ensures prim { IfOk result (λ stored. prim_of stored ≡ spelled_prim spec.now) }
        ensures stored { IfOk result IsStored }
    {
        Ok(StoredPrim {
            kind: spec.kind.copy()?,
            properties: spec.properties.copy()?,
            values: to_container(alloc, spec)?,
        })
    }

    /// The prim with these properties in place of its own. It is at the path.
    fn with_properties(
        &self,
        alloc: Global,
        path: &Path,
        properties: Vec<Property>,
    ) -> Result<StoredPrim, AllocError>
        requires below_root { path.now ≢ [] }
        requires formed { IsTrue (list_all is_property properties.items) }
        requires distinct { IsTrue (are_distinct (map (λ p. p.name) properties.items)) }
        ensures prim { IfOk result (λ stored. prim_of stored ≡ record { kind = self.now.kind; properties = properties_of properties.items }) }
        ensures stored { IfOk result IsStored }
    {
        let spec = PrimSpec {
            path: path.copy()?,
            kind: self.kind.copy()?,
            properties: List::of(alloc, properties)?,
        };
        StoredPrim::of_spec(alloc, &spec)
    }

    /// The prim where a property has a value. It is at the path.
    pub(crate) fn with(
        &self,
        alloc: Global,
        path: &Path,
        property: &Property,
    ) -> Result<StoredPrim, AllocError>
        requires below_root { path.now ≢ [] }
        requires self_held { IsStored self.now }
        requires formed { IsTrue (is_property property.now) }
        ensures prim { IfOk result (λ stored. prim_of stored ≡ with_value property.now (prim_of self.now)) }
        ensures stored { IfOk result IsStored }
    {
        let mut properties = others(alloc, self.properties.items(), property.name.text())?;
        properties.push(property.copy()?)?;
        self.with_properties(alloc, path, properties)
    }

    /// The prim without the property of this name. It is at the path.
    pub(crate) fn without(
        &self,
        alloc: Global,
        path: &Path,
        name: &Token,
    ) -> Result<StoredPrim, AllocError>
        requires below_root { path.now ≢ [] }
        requires self_held { IsStored self.now }
        ensures prim { IfOk result (λ stored. prim_of stored ≡ without_value name.now (prim_of self.now)) }
        ensures stored { IfOk result IsStored }
    {
        let properties = others(alloc, self.properties.items(), name.text())?;
        self.with_properties(alloc, path, properties)
    }

    /// The prim as the scene has it.
    pub(crate) fn entry(&self) -> Result<Entry, AllocError>
        requires { IsStored self.now }
        ensures { IfOk result (λ entry. entry ≡ entry_of (prim_of self.now)) }
    {
        Ok(Entry {
            kind: self.kind.copy()?,
            values: self.values.copy()?,
        })
    }

    /// An equal prim, which shares what this one holds.
    pub(crate) fn copy(&self) -> Result<StoredPrim, AllocError>
        ensures { IfOk result (λ copied. copied ≡ self.now) }
    {
        Ok(StoredPrim {
            kind: self.kind.copy()?,
            properties: self.properties.copy()?,
            values: self.values.copy()?,
        })
    }
}

/// The properties that have another name.
fn others(alloc: Global, properties: &[Property], name: &str) -> Result<Vec<Property>, AllocError>
    ensures { IfOk result (λ kept. kept.items ≡ filter (λ p. not (bytes_eq name.now p.name)) properties.now) }
{
    let mut kept = Vec::new(alloc);
    for property in properties {
        push_other(&mut kept, property, name)?;
    }
    Ok(kept)
}

/// Adds a property that has another name.
fn push_other(kept: &mut Vec<Property>, property: &Property, name: &str) -> Result<(), AllocError>
    ensures { OnOk result (kept.new.items ≡ kept.old.items ++ filter (λ p. not (bytes_eq name.now p.name)) (property.now ∷ [])) }
{
    if name == property.name.text() {
        return Ok(());
    }
    kept.push(property.copy()?)?;
    Ok(())
}
