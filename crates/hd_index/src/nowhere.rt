//! A scene index without prims.

ghost use Rattle.std.specs.Prelude.{◌≡◌};
ghost use Rattle.std.specs.FinMap.{empty};

use hd_num::List;
use hd_path::{Path, Token};
use hd_scene::{Kept, Prim, SceneIndex};
use std::alloc::{AllocError, Global};

/// A scene index without prims.
#[derive(Drop)]
struct Nowhere {
    pulls: u64,
}

impl SceneIndex for Nowhere {
    ghost use Rattle.std.specs.Prelude.{⊤};
    ghost use Rattle.std.specs.FinMap.{empty};
    ghost use Rattle.hd_index.specs.inner.NoPrims.{no_prims_closed};

    type Origin = ();

    ghost scene = { λ _. empty };

    ghost origin = { λ _. tt };

    ghost is_in_step = { λ _. ⊤ };

    ghost pulls = { λ nowhere. nowhere.pulls };

    ghost closed = { λ _ _. no_prims_closed };

    fn prim(&mut self, alloc: Global, _path: &Path) -> Result<Prim, AllocError> {
        self.pulls = self.pulls.saturating_add(1);
        Prim::absent(alloc)
    }

    fn children(&mut self, _alloc: Global, _path: &Path) -> Result<List<Token>, AllocError> {
        Ok(List::empty())
    }

    fn pulls(&self) -> u64 {
        self.pulls
    }
}

/// The scene without prims, as a scene that was kept.
pub(crate) fn empty_scene() -> Kept
    ensures { result.scene ≡ empty }
{
    Kept::of(&Nowhere { pulls: 0 })
}
