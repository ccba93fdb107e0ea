//! The render index.

ghost use Rattle.std.specs.Prelude.{◌≡◌, ◌≤◌, ◌^◌, [], length, map, IfOk, OnOk, OnErr};
ghost use Rattle.std.specs.FinMap.{empty, keys};
ghost use Rattle.hd_index.specs.Index.{contents_left_out, slots_left_out, HasEntries, Shows};
ghost use Rattle.hd_index.specs.Reports.{ReportsAll};
ghost use Rattle.hd_registry.specs.Entries.{Unique};
ghost use Rattle.hd_rprim.specs.PrimRows.{rows_of};
ghost use Rattle.hd_rprim.specs.Shown.{KeepsSlots};

use crate::nowhere::empty_scene;
use crate::populating;
use crate::report::Report;
use hd_registry::Registry;
use hd_rprim::{Buffer, RowTable};
use hd_scene::{Kept, SceneIndex};
use hd_sync::Syncer;
use std::alloc::{AllocError, Global};
use std::marker::Model;

/// The rows of the scene that was committed last, and the buffers that they share.
#[derive(Drop)]
pub struct RenderIndex {
    rows: RowTable,
    registry: Registry<Buffer>,
    committed: Kept,
}

impl Model for RenderIndex {
    ghost use Rattle.hd_scene.specs.Scenes.{Scene, scene_code};
    ghost use Rattle.hd_index.specs.Index.{Shows};

    ghost Value = { Scene };

    ghost coded = { scene_code };

    ghost view = { λ index. index.committed.scene };

    ghost invariant = { λ index. Shows index.committed.scene index.rows index.registry };
}

impl RenderIndex {
    /// An index of the scene without prims.
    pub fn new(alloc: Global) -> Result<RenderIndex, AllocError>
        ensures { IfOk result (λ index. index ≡ empty) }
    {
        Ok(RenderIndex {
            rows: RowTable::new(alloc),
            registry: Registry::new(alloc)?,
            committed: empty_scene(),
        })
    }

    /// Fills an index without rows with those of a scene. Refused, it stays as it was.
    pub fn populate<I: SceneIndex, Y: Syncer>(
        &mut self,
        alloc: Global,
        scene: &mut I,
        syncer: &mut Y,
    ) -> Result<Report, AllocError>
        requires in_step { I.is_in_step scene.old }
        requires few { length (keys (I.scene scene.old)) ≤ 2 ^ 20 }
        requires empty { rows_of self.old ≡ [] }
        ensures ok { OnOk result (self.new ≡ I.scene scene.old) }
        ensures report { IfOk result (ReportsAll (I.scene scene.old)) }
        ensures err { OnErr result (self.new ≡ self.old) }
        ensures in_step { I.is_in_step scene.new }
        ensures same_scene { I.scene scene.new ≡ I.scene scene.old }
        ensures same_origin { I.origin scene.new ≡ I.origin scene.old }
    {
        populating::populate(
            alloc,
            &mut self.rows,
            &mut self.registry,
            &mut self.committed,
            scene,
            syncer,
        )
    }

    /// The table of the rows, and the registry of the buffers that they use.
    pub fn parts(&self) -> (&RowTable, &Registry<Buffer>)
        ensures shows { Shows self.now result.0.now result.1.now }
        ensures kept { KeepsSlots result.0.now result.1.now }
        ensures unique { Unique result.1.now }
    {
        self.registry.contents_are_unique();
        (&self.rows, &self.registry)
    }

    /// The table of the rows.
    pub fn rows(&self) -> &RowTable
        ensures { map slots_left_out result.now ≡ map contents_left_out (rows_of self.now) }
    {
        &self.rows
    }

    /// The registry of the buffers that the rows use.
    pub fn registry(&self) -> &Registry<Buffer>
        ensures { HasEntries (rows_of self.now) result.now }
    {
        self.registry.contents_are_unique();
        &self.registry
    }
}
