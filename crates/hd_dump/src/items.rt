//! Appends lists to a text.

ghost use Rattle.std.specs.Prelude.{◌≡◌, ◌++◌, OnOk};
ghost use Rattle.hd_dump.specs.Texts.{list_text};

use crate::text::{push_color, push_number, push_triple};
use hd_num::{Rgb, Vec3};
use hd_path::Path;
use hd_rprim::Tri;
use std::alloc::AllocError;

/// What lists of a dump consist of.
pub(crate) trait Item {
    ghost use Rattle.std.specs.Prelude.{◌≡◌, ◌++◌, ℕ, List, OnOk};

    ghost written_as: { Self → List ℕ };

    /// Appends the item.
    fn push(&self, text: &mut Vec<u8>) -> Result<(), AllocError>
        ensures { OnOk result (text.new.items ≡ text.old.items ++ written_as self.now) };
}

impl Item for Path {
    ghost use Rattle.hd_path.specs.Paths.{path_text};

    ghost written_as = { path_text };

    fn push(&self, text: &mut Vec<u8>) -> Result<(), AllocError> {
        text.extend_from_slice(self.as_text().as_bytes())
    }
}

impl Item for i64 {
    ghost use Rattle.std.specs.Fmt.{signed_decimal};

    ghost written_as = { signed_decimal };

    fn push(&self, text: &mut Vec<u8>) -> Result<(), AllocError> {
        push_number(text, *self)
    }
}

impl Item for Vec3 {
    ghost use Rattle.hd_dump.specs.Texts.{point_text};

    ghost written_as = { point_text };

    fn push(&self, text: &mut Vec<u8>) -> Result<(), AllocError> {
        push_triple(text, self.x, self.y, self.z)
    }
}

impl Item for Tri {
    ghost use Rattle.hd_dump.specs.Texts.{triangle_text};

    ghost written_as = { triangle_text };

    fn push(&self, text: &mut Vec<u8>) -> Result<(), AllocError> {
        push_triple(text, self.a, self.b, self.c)?;
        text.extend_from_slice(b",")?;
        push_number(text, self.face)?;
        Ok(())
    }
}

impl Item for Rgb {
    ghost use Rattle.hd_dump.specs.Texts.{color_text};

    ghost written_as = { color_text };

    fn push(&self, text: &mut Vec<u8>) -> Result<(), AllocError> {
        push_color(text, *self)
    }
}

/// Appends the items with a separator between them, or `-` where there are none.
pub(crate) fn push_list<T: Item>(
    text: &mut Vec<u8>,
    separator: &[u8],
    items: &[T],
) -> Result<(), AllocError>
    ensures { OnOk result (text.new.items ≡ text.old.items ++ list_text T.written_as separator.now items.now) }
{
    let Some((first, rest)) = items.split_first() else {
        return text.extend_from_slice(b"-");
    };
    first.push(text)?;
    'rest: for item in rest {
        text.extend_from_slice(separator)?;
        item.push(text)?;
    }
    Ok(())
}
