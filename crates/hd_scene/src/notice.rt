//! What one notice says.

ghost use Rattle.std.specs.Prelude.{◌≡◌, IfOk};

use hd_path::{Path, Token};
use hd_value::LocatorSet;
use std::alloc::{AllocError, Global};

/// A change of a scene.
#[derive(Drop)]
pub enum Notice {
    /// At the path there is now a prim of this kind. Where there was one, each of its values may have changed; what is
    /// below it stays.
    Added(Path, Token),

    /// The prims at and below the path are gone.
    Removed(Path),

    /// Values of the prim may have changed, at locators that intersect a member of the set.
    Dirtied(Path, LocatorSet),

    /// The prims at and below the first path are gone, and those at and below the second one are added, each with the
    /// kind that it now has.
    Renamed(Path, Path),
}

impl Notice {
    /// An equal notice.
    pub fn copy(&self, alloc: Global) -> Result<Notice, AllocError>
        ensures { IfOk result (λ copied. copied ≡ self.now) }
    {
        match self {
            Notice::Added(path, kind) => Ok(Notice::Added(path.copy()?, kind.copy()?)),
            Notice::Removed(path) => Ok(Notice::Removed(path.copy()?)),
            Notice::Dirtied(path, set) => Ok(Notice::Dirtied(path.copy()?, set.copy(alloc)?)),
            Notice::Renamed(from, to) => Ok(Notice::Renamed(from.copy()?, to.copy()?)),
        }
    }
}
