//! A layer as a scene index, and its edits.

ghost use Rattle.std.specs.Prelude.{◌≡◌, ◌≢◌, [], ◌∷◌, None, Ok, OnOk, OnErr, IfOk, IfErr, IsTrue, option_copied};
ghost use Rattle.hd_layer.specs.Edits.{is_edit, may_be_set};
ghost use Rattle.hd_layer.specs.declared.edit.Edit.TheVariants.{Set};
ghost use Rattle.hd_layer.specs.WellFormed.{is_property, is_layer};
ghost use Rattle.hd_schema.specs.Places.{locators_of};
ghost use Rattle.hd_scene.specs.declared.notice.Notice.TheVariants.{Added, Removed, Dirtied, Renamed};
ghost use Rattle.hd_value.specs.Schema.{is_authored};
ghost use Rattle.hd_scene.specs.Scenes.{IsClosed, SceneConforms};
ghost use Rattle.hd_retained.specs.Layers.{layer_of, scene_of, kind_in, AreUsed, ArePathsFrom};
ghost use Rattle.hd_retained.specs.Edits.{after_define, after_set, after_set_if_used, after_clear, after_remove, after_rename, edit_layer, dirtied_notices, notices_of_edit, IsRefusal};

use crate::fault::EditFault;
use crate::layer::Layer;
use crate::stored::{DepthKey, StoredPrim};
use crate::{edits, prims, renaming};
use hd_layer::{Edit, LayerSpec, Property};
use hd_num::List;
use hd_path::{Path, Token};
use hd_scene::{Notice, Notices, Prim, SceneIndex};
use hd_schema::locators_of;
use hd_value::LocatorSet;
use std::alloc::{AllocError, Global};
use std::collections::BTreeMap;
use std::marker::Model;

/// A layer as a scene index, which is always in step with it.
///
/// An edit answers the notices of its change. Refused it changes nothing.
#[derive(Drop)]
pub struct Retained {
    prims: BTreeMap<DepthKey, StoredPrim>,
    pulls: u64,
}

impl Model for Retained {
    ghost use Rattle.hd_retained.specs.Edits.{State, state_code};
    ghost use Rattle.hd_retained.specs.inner.Indexed.{layer_in, IsIndex};

    ghost Value = { State };

    ghost coded = { state_code };

    ghost view = { λ index. record { layer = layer_in index.prims; pulls = index.pulls } };

    ghost invariant = { λ index. IsIndex index.prims };
}

impl SceneIndex for Retained {
    type Origin = Layer;

    ghost scene = { λ index. scene_of index.layer };

    ghost origin = { λ index. index.layer };

    ghost is_in_step = { λ index. IsClosed (scene_of index.layer) };

    ghost pulls = { λ index. index.pulls };

    fn prim(&mut self, alloc: Global, path: &Path) -> Result<Prim, AllocError> {
        self.pulls = self.pulls.saturating_add(1);
        prims::prim(alloc, &self.prims, path)
    }

    fn children(&mut self, alloc: Global, path: &Path) -> Result<List<Token>, AllocError> {
        List::of(alloc, prims::children(alloc, &self.prims, path)?)
    }

    fn pulls(&self) -> u64 {
        self.pulls
    }

    ghost closed = { λ index in_step. in_step };
}

impl Retained {
    /// The index of a layer that was read. The call fails for lack of memory alone.
    pub fn from_layer(alloc: Global, layer: LayerSpec) -> Result<Retained, AllocError>
        requires { IsTrue (is_layer layer) }
        ensures layer { IfOk result (λ made. made.layer ≡ layer_of layer) }
        ensures in_step { IfOk result (λ made. IsClosed (scene_of made.layer)) }
        ensures pulls { IfOk result (λ made. made.pulls ≡ 0) }
    {
        Ok(Retained {
            prims: prims::of_layer(alloc, &layer)?,
            pulls: 0,
        })
    }

    /// The index is in step: a fact for proofs, which costs nothing.
    pub fn is_in_step(&self)
        ensures { IsClosed (scene_of self.now.layer) }
    {
        let _ = &self.prims;
    }

    /// Each value of the scene has the form of one that a text can author: a fact for proofs, which costs nothing.
    pub fn conforms(&self)
        ensures { SceneConforms is_authored (scene_of self.now.layer) }
    {
        let _ = &self.prims;
    }

    /// Each property of the layer is a used one whose value has its form: a fact for proofs, which costs nothing.
    pub fn has_used_properties(&self)
        ensures { AreUsed self.now.layer }
    {
        let _ = &self.prims;
    }

    /// The kind of the prim at a path, if there is one. The call fails for lack of memory alone.
    pub fn kind(&self, path: &Path) -> Result<Option<&Token>, AllocError>
        ensures { IfOk result (λ kind. option_copied kind ≡ kind_in self.now.layer path.now) }
    {
        prims::kind(&self.prims, path)
    }

    /// The paths of the prims at and below a path, those with fewer names first, and else in their order. The call
    /// fails for lack of memory alone.
    pub fn paths_from(&self, alloc: Global, path: &Path) -> Result<Vec<Path>, AllocError>
        ensures { IfOk result (λ paths. ArePathsFrom self.now.layer path.now paths.items) }
    {
        prims::paths_from(alloc, &self.prims, path)
    }

    /// Does an edit: what `define`, `set`, `clear`, `remove` or `rename` does, with their notices and refusals.
    ///
    /// To set a property that is not used changes nothing and has no notice. `NoPrim` where no prim is there.
    pub fn edit(&mut self, alloc: Global, edit: &Edit) -> Result<Notices, EditFault>
        requires formed { IsTrue (is_edit edit.now) }
        ensures done { OnOk result (edit_layer self.old.layer edit.now ≡ Ok self.new.layer) }
        ensures notices { IfOk result (λ notices. notices ≡ notices_of_edit edit.now) }
        ensures refusal { IfErr result (IsRefusal (edit_layer self.old.layer edit.now)) }
        ensures err { OnErr result (self.new ≡ self.old) }
        ensures in_step { IsClosed (scene_of self.new.layer) }
        ensures same_pulls { self.new.pulls ≡ self.old.pulls }
    {
        match edit {
            Edit::Define { kind, path } => self.define(alloc, kind, path),
            Edit::Set { path, property } => self.set_if_used(alloc, path, property),
            Edit::Clear { path, name } => self.clear(alloc, path, name),
            Edit::Remove { path } => self.remove(alloc, path),
            Edit::Rename { from, to } => self.rename(alloc, from, to),
        }
    }

    /// Gives a property of the prim at a path a value. Without a property only the prim is looked for.
    fn set_if_used(
        &mut self,
        alloc: Global,
        path: &Path,
        property: &Option<Property>,
    ) -> Result<Notices, EditFault>
        requires below_root { path.now ≢ [] }
        requires formed { IsTrue (may_be_set property.now) }
        ensures done { OnOk result (after_set_if_used self.old.layer path.now property.now ≡ Ok self.new.layer) }
        ensures notices { IfOk result (λ notices. notices ≡ notices_of_edit (Set path.now property.now)) }
        ensures refusal { IfErr result (IsRefusal (after_set_if_used self.old.layer path.now property.now)) }
        ensures err { OnErr result (self.new ≡ self.old) }
        ensures in_step { IsClosed (scene_of self.new.layer) }
        ensures same_pulls { self.new.pulls ≡ self.old.pulls }
    {
        self.is_in_step();
        match property {
            Some(property) => self.set(alloc, path, property),
            None => self.look_for(alloc, path),
        }
    }

    /// No notice, where a prim is at the path.
    fn look_for(&self, alloc: Global, path: &Path) -> Result<Notices, EditFault>
        ensures done { OnOk result (after_set_if_used self.now.layer path.now None ≡ Ok self.now.layer) }
        ensures notices { IfOk result (λ notices. notices ≡ []) }
        ensures refusal { IfErr result (IsRefusal (after_set_if_used self.now.layer path.now None)) }
    {
        if self.kind(path)?.is_none() {
            return Err(EditFault::NoPrim);
        }
        Ok(Notices::new(alloc))
    }

    /// Puts a prim of this kind at a path, without properties. What is below it stays. Notice: added.
    ///
    /// `NoPrim` where no prim is at the parent, then `Limit(Prims)` of a 65,537th prim.
    pub fn define(&mut self, alloc: Global, kind: &Token, path: &Path) -> Result<Notices, EditFault>
        requires { path.now ≢ [] }
        ensures done { OnOk result (after_define self.old.layer kind.now path.now ≡ Ok self.new.layer) }
        ensures notices { IfOk result (λ notices. notices ≡ Added path.now kind.now ∷ []) }
        ensures refusal { IfErr result (IsRefusal (after_define self.old.layer kind.now path.now)) }
        ensures err { OnErr result (self.new ≡ self.old) }
        ensures in_step { IsClosed (scene_of self.new.layer) }
        ensures same_pulls { self.new.pulls ≡ self.old.pulls }
    {
        self.is_in_step();
        let notices = only(alloc, Notice::Added(path.copy()?, kind.copy()?))?;
        edits::define(&mut self.prims, alloc, kind, path)?;
        Ok(notices)
    }

    /// Gives a property of the prim at a path a value. Notice: dirtied, also where the property has that value.
    ///
    /// `NoPrim` where no prim is there.
    pub fn set(
        &mut self,
        alloc: Global,
        path: &Path,
        property: &Property,
    ) -> Result<Notices, EditFault>
        requires below_root { path.now ≢ [] }
        requires formed { IsTrue (is_property property.now) }
        ensures done { OnOk result (after_set self.old.layer path.now property.now ≡ Ok self.new.layer) }
        ensures notices { IfOk result (λ notices. notices ≡ Dirtied path.now (locators_of property.now.name) ∷ []) }
        ensures refusal { IfErr result (IsRefusal (after_set self.old.layer path.now property.now)) }
        ensures err { OnErr result (self.new ≡ self.old) }
        ensures in_step { IsClosed (scene_of self.new.layer) }
        ensures same_pulls { self.new.pulls ≡ self.old.pulls }
    {
        self.is_in_step();
        let locators = locators_of(alloc, &property.name)?;
        let notices = only(alloc, Notice::Dirtied(path.copy()?, locators))?;
        edits::set(&mut self.prims, alloc, path, property)?;
        Ok(notices)
    }

    /// Takes a property from the prim at a path, if it is there. Notice: dirtied for the name of a used property, and
    /// none for another name.
    ///
    /// `NoPrim` where no prim is there.
    pub fn clear(&mut self, alloc: Global, path: &Path, name: &Token) -> Result<Notices, EditFault>
        requires { path.now ≢ [] }
        ensures done { OnOk result (after_clear self.old.layer path.now name.now ≡ Ok self.new.layer) }
        ensures notices { IfOk result (λ notices. notices ≡ dirtied_notices path.now (locators_of name.now)) }
        ensures refusal { IfErr result (IsRefusal (after_clear self.old.layer path.now name.now)) }
        ensures err { OnErr result (self.new ≡ self.old) }
        ensures in_step { IsClosed (scene_of self.new.layer) }
        ensures same_pulls { self.new.pulls ≡ self.old.pulls }
    {
        self.is_in_step();
        let notices = dirtied_notices(alloc, path, locators_of(alloc, name)?)?;
        edits::clear(&mut self.prims, alloc, path, name)?;
        Ok(notices)
    }

    /// Takes out the prims at and below a path. Notice: removed.
    ///
    /// `NoPrim` where no prim is there.
    pub fn remove(&mut self, alloc: Global, path: &Path) -> Result<Notices, EditFault>
        requires { path.now ≢ [] }
        ensures done { OnOk result (after_remove self.old.layer path.now ≡ Ok self.new.layer) }
        ensures notices { IfOk result (λ notices. notices ≡ Removed path.now ∷ []) }
        ensures refusal { IfErr result (IsRefusal (after_remove self.old.layer path.now)) }
        ensures err { OnErr result (self.new ≡ self.old) }
        ensures in_step { IsClosed (scene_of self.new.layer) }
        ensures same_pulls { self.new.pulls ≡ self.old.pulls }
    {
        self.is_in_step();
        let notices = only(alloc, Notice::Removed(path.copy()?))?;
        edits::remove(&mut self.prims, alloc, path)?;
        Ok(notices)
    }

    /// Moves the prims at and below a path to another one. Notice: renamed.
    ///
    /// In this order: `NoPrim` where no prim is at the first path, `UnderItself` where the second one is at or below
    /// it, `NoPrim` where no prim is at the second one's parent, `PrimThere` where one is at the second path, and
    /// `Limit(Depth)` where a moved path would have more than 32 names.
    pub fn rename(&mut self, alloc: Global, from: &Path, to: &Path) -> Result<Notices, EditFault>
        requires from { from.now ≢ [] }
        requires to { to.now ≢ [] }
        ensures done { OnOk result (after_rename self.old.layer from.now to.now ≡ Ok self.new.layer) }
        ensures notices { IfOk result (λ notices. notices ≡ Renamed from.now to.now ∷ []) }
        ensures refusal { IfErr result (IsRefusal (after_rename self.old.layer from.now to.now)) }
        ensures err { OnErr result (self.new ≡ self.old) }
        ensures in_step { IsClosed (scene_of self.new.layer) }
        ensures same_pulls { self.new.pulls ≡ self.old.pulls }
    {
        self.is_in_step();
        let notices = only(alloc, Notice::Renamed(from.copy()?, to.copy()?))?;
        renaming::rename(&mut self.prims, alloc, from, to)?;
        Ok(notices)
    }
}

/// The list of this notice.
fn only(alloc: Global, notice: Notice) -> Result<Notices, AllocError>
    ensures { IfOk result (λ notices. notices ≡ notice ∷ []) }
{
    let mut notices = Notices::new(alloc);
    notices.push(notice)?;
    Ok(notices)
}

/// The notice that values of a prim at these locators may have changed, where there are any.
fn dirtied_notices(alloc: Global, path: &Path, locators: LocatorSet) -> Result<Notices, AllocError>
    ensures { IfOk result (λ notices. notices ≡ dirtied_notices path.now locators) }
{
    if locators.is_empty() {
        return Ok(Notices::new(alloc));
    }
    only(alloc, Notice::Dirtied(path.copy()?, locators))
}
