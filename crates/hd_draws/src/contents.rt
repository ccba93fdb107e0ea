//! The contents that a row has in a registry.

ghost use Rattle.std.specs.Prelude.{◌≡◌, true};
ghost use Rattle.std.specs.Option.{option_copied};
ghost use Rattle.hd_sync.specs.Syncing.{content_given};
ghost use Rattle.hd_draws.specs.DrawList.{points_of, triangles_of, colors_of};
ghost use Rattle.hd_rprim.specs.Shown.{is_slot_kept};

use hd_num::{Rgb, Vec3};
use hd_registry::{Registry, Slot};
use hd_rprim::{Buffer, RprimRow, Shape, Tri};

/// What a row is drawn from.
#[derive(Clone, Copy)]
pub(crate) struct Geometry<'a> {
    pub(crate) shape: Shape,
    pub(crate) faces: u64,
    pub(crate) points: &'a [Vec3],
    pub(crate) triangles: &'a [Tri],
    pub(crate) colors: &'a [Rgb],
}

/// The buffer of a slot that is kept.
fn buffer_of<'a>(registry: &'a Registry<Buffer>, slot: Option<Slot>) -> Option<&'a Buffer>
    requires { is_slot_kept registry.now slot ≡ true }
    ensures { option_copied result ≡ content_given registry.now slot }
{
    match slot {
        Some(slot) => Some(&**registry.content(slot)),
        None => None,
    }
}

/// The points of a row.
fn points_of<'a>(registry: &'a Registry<Buffer>, slot: Option<Slot>) -> &'a [Vec3]
    requires { is_slot_kept registry.now slot ≡ true }
    ensures { result.now ≡ points_of (content_given registry.now slot) }
{
    match buffer_of(registry, slot) {
        Some(Buffer::Points(points)) => points.items(),
        _ => &[],
    }
}

/// The triangles of a row.
fn triangles_of<'a>(registry: &'a Registry<Buffer>, slot: Option<Slot>) -> &'a [Tri]
    requires { is_slot_kept registry.now slot ≡ true }
    ensures { result.now ≡ triangles_of (content_given registry.now slot) }
{
    match buffer_of(registry, slot) {
        Some(Buffer::Triangles(triangles)) => triangles.items(),
        _ => &[],
    }
}

/// The colors of a row.
fn colors_of<'a>(registry: &'a Registry<Buffer>, slot: Option<Slot>) -> &'a [Rgb]
    requires { is_slot_kept registry.now slot ≡ true }
    ensures { result.now ≡ colors_of (content_given registry.now slot) }
{
    match buffer_of(registry, slot) {
        Some(Buffer::Colors(colors)) => colors.items(),
        _ => &[],
    }
}

/// What a row is drawn from, as the registry has it.
pub(crate) fn geometry_of<'a>(registry: &'a Registry<Buffer>, row: &RprimRow) -> Geometry<'a>
    requires points_kept { is_slot_kept registry.now row.now.points ≡ true }
    requires triangles_kept { is_slot_kept registry.now row.now.triangles ≡ true }
    requires colors_kept { is_slot_kept registry.now row.now.colors ≡ true }
    ensures shape { result.shape ≡ row.now.shape }
    ensures faces { result.faces ≡ row.now.faces }
    ensures points { result.points.now ≡ points_of (content_given registry.now row.now.points) }
    ensures triangles { result.triangles.now ≡ triangles_of (content_given registry.now row.now.triangles) }
    ensures colors { result.colors.now ≡ colors_of (content_given registry.now row.now.colors) }
{
    Geometry {
        shape: row.shape,
        faces: row.faces,
        points: points_of(registry, row.points),
        triangles: triangles_of(registry, row.triangles),
        colors: colors_of(registry, row.colors),
    }
}
