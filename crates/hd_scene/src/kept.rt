//! The scene of an index as it was, for contracts alone.

ghost use Rattle.std.specs.Prelude.{◌≡◌};
ghost use Rattle.hd_scene.specs.Scenes.{Scene, scene_code};

use crate::scene_index::SceneIndex;
use std::marker::{Model, PhantomData};

/// A scene as it was when it was kept. It has no bytes: contracts alone see it.
pub struct Kept {
    marker: PhantomData<()>,
    pub ghost scene: { Scene } by { scene_code },
}

impl Model for Kept {
    ghost use Rattle.std.specs.Borrow.{ftrue};

    ghost also_owns = { λ _. ftrue };
}

impl Kept {
    /// The scene that an index has now.
    pub fn of<I: SceneIndex>(index: &I) -> Kept
        ensures { result.scene ≡ I.scene index.now }
    {
        let _ = index;
        Kept {
            marker: PhantomData,
        }
    }
}

impl Drop for Kept {
    fn drop(self) {
        let Self { marker: _ } = self;
    }
}
