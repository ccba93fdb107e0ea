//! What several tests use.

ghost use Rattle.std.specs.Prelude.{◌≡◌};

use hd_path::Path;
use hd_scene::SceneIndex;
use std::alloc::{AllocError, Global};

/// The value, whose type may go from one thread to another and be shared by them.
pub fn across<T: Send + Sync>(value: T) -> T
    ensures { result ≡ value }
{
    value
}

pub fn path(alloc: Global, text: &str) -> Result<Path, AllocError> {
    match Path::parse(alloc, text) {
        Ok(path) => Ok(path),
        Err(_) => Err(AllocError),
    }
}

/// The names below a prim, each after a blank.
pub fn names_below<I: SceneIndex>(
    index: &mut I,
    alloc: Global,
    text: &str,
) -> Result<String, AllocError>
    requires { I.is_in_step index.old }
    ensures { I.is_in_step index.new }
{
    let names = index.children(alloc, &path(alloc, text)?)?;
    let mut all = String::new(alloc);
    for name in names.items() {
        all.push_str(" ")?;
        all.push_str(name.text())?;
    }
    Ok(all)
}
