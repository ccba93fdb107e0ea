//! A source of prims.

ghost use Rattle.std.specs.Prelude.{◌≡◌, ℕ, IfOk};
ghost use Rattle.std.specs.FinMap.{get};
ghost use Rattle.hd_scene.specs.Scenes.{Scene, prim_of, children_of, saturating_succ, IsClosed};

use crate::prims::Primitive as Prim;
use hd_num::List;
use hd_path::{Path, Token};
use std::alloc::{AllocError, Global};

/// A source of prims, which is asked by path.
///
/// For contracts it has four meanings: its scene; its origin, which tells what the scene is made from; whether it is in
/// step with what it is made from, without which it is not asked; and how often it was asked for a prim.
pub trait SceneIndex {
    /// For contracts alone: what the scene is made from.
    type Origin;

    ghost scene: { Self → Scene };

    ghost origin: { Self → Self.Origin };

    ghost is_in_step: { Self → Type 0 };

    ghost pulls: { Self → ℕ };

    /// The prim at a path, or the empty kind and no values where there is none. Refused or not, the index stays as it
    /// is, and the call counts as a pull.
    fn prim(&mut self, alloc: Global, path: &Path) -> Result<Prim, AllocError>
        requires { is_in_step self.old }
        ensures value { IfOk result (λ prim. prim ≡ prim_of (get (scene self.old) path.now)) }
        ensures in_step { is_in_step self.new }
        ensures same_scene { scene self.new ≡ scene self.old }
        ensures same_origin { origin self.new ≡ origin self.old }
        ensures pulled { pulls self.new ≡ saturating_succ (pulls self.old) };

    /// The names of the prims immediately below a path, in byte order. An absent path has none, but for the root, below
    /// which the outermost prims are. Refused or not, the index stays as it is.
    fn children(&mut self, alloc: Global, path: &Path) -> Result<List<Token>, AllocError>
        requires { is_in_step self.old }
        ensures value { IfOk result (λ names. names ≡ children_of (scene self.old) path.now) }
        ensures in_step { is_in_step self.new }
        ensures same_scene { scene self.new ≡ scene self.old }
        ensures same_origin { origin self.new ≡ origin self.old }
        ensures same_pulls { pulls self.new ≡ pulls self.old };

    /// How often `prim` was called, or the greatest number.
    fn pulls(&self) -> u64
        ensures { result ≡ pulls self.now };

    ghost closed: { (x : Self) → is_in_step x → IsClosed (scene x) };
}
