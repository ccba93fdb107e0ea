//! Where the eye of a picture is.

ghost use Rattle.std.specs.Prelude.{◌≡◌, ◌^◌, map, IfSome};
ghost use Rattle.std.specs.Option.{option_copied};
ghost use Rattle.hd_registry.specs.Entries.{Entries};
ghost use Rattle.hd_picture.specs.Limits.{IsPointWithin};
ghost use Rattle.hd_rprim.specs.declared.buffer.Buffer.{Buffer};
ghost use Rattle.hd_rprim.specs.Shown.{shown};
ghost use Rattle.hd_draws.specs.Cameras.{origin_of, camera_place, camera_at, eye};

use hd_num::{Matrix, Vec3};
use hd_path::Path;
use hd_rprim::{Row, RowTable};

/// The eye of a picture that names no camera.
const DEFAULT_EYE: Vec3 = Vec3 {
    x: 0,
    y: 0,
    z: 1 << 24,
};

/// The place of the camera at a path, or of the default one. `None` exactly where no camera is at
/// the path or its matrix is out of range.
pub fn camera(rows: &RowTable, path: Option<&Path>) -> Option<Vec3>
    ensures place { (entries : Entries Buffer) → result ≡ eye (map (shown entries) rows.now) (option_copied path.entry) }
    ensures near { IfSome result (IsPointWithin (2 ^ 30)) }
{
    match path {
        Some(path) => camera_at(rows, path),
        None => Some(DEFAULT_EYE),
    }
}

/// The place of the camera at a path.
fn camera_at(rows: &RowTable, path: &Path) -> Option<Vec3>
    ensures place { (entries : Entries Buffer) → result ≡ camera_at (map (shown entries) rows.now) path.now }
    ensures near { IfSome result (IsPointWithin (2 ^ 30)) }
{
    camera_place(rows.row_at(rows.find(path)?))
}

/// The place of a camera whose matrix is in range.
fn camera_place(row: &Row) -> Option<Vec3>
    ensures place { result ≡ camera_place row.now }
    ensures near { IfSome result (IsPointWithin (2 ^ 30)) }
{
    match row {
        Row::Camera(Some(matrix)) => Some(origin_of(matrix)),
        _ => None,
    }
}

/// The place to which a matrix moves the origin.
fn origin_of(matrix: &Matrix) -> Vec3
    ensures place { result ≡ origin_of matrix.now }
    ensures near { IsPointWithin (2 ^ 30) result }
{
    Vec3 {
        x: matrix.entry(3, 0),
        y: matrix.entry(3, 1),
        z: matrix.entry(3, 2),
    }
}
