//! The squares of a cloud of points where a matrix places it.

ghost use Rattle.std.specs.Prelude.{◌≡◌, ◌^◌, ◌<◌, ◌++◌, length, true, OnOk};
ghost use Rattle.std.specs.List.{list_all};
ghost use Rattle.hd_num.specs.Matrices.{is_within};
ghost use Rattle.hd_num.specs.Points.{components, transform_point};
ghost use Rattle.hd_draws.specs.DrawList.{offset, point_square, squares_from};

use crate::fault::DrawsFault;
use crate::near::{if_near, near_image};
use crate::triangles::{TriangleList, color_of, world_triangle};
use hd_num::{Matrix, Rgb, Vec3};

/// Adds the squares of all points of a cloud.
pub(crate) fn push_squares(
    points: &[Vec3],
    colors: &[Rgb],
    matrix: &Matrix,
    tris: &mut TriangleList,
) -> Result<(), DrawsFault>
    ensures pushed { OnOk result (tris.new ≡ tris.old ++ squares_from 0 (length points.now) colors.now matrix.now points.now) }
    ensures many { result ≡ Err DrawsFault.Triangles → 2 ^ 20 < length (tris.old ++ squares_from 0 (length points.now) colors.now matrix.now points.now) }
{
    for number in 0..points.len() {
        let color = color_of(colors, points.len() as u64, number as u64);
        push_point(points[number], color, matrix, tris)?;
    }
    Ok(())
}

/// Adds the square of a point where a matrix places it.
fn push_point(
    point: Vec3,
    color: Rgb,
    matrix: &Matrix,
    tris: &mut TriangleList,
) -> Result<(), DrawsFault>
    ensures pushed { OnOk result (tris.new ≡ tris.old ++ point_square (transform_point point matrix.now) color) }
    ensures many { result ≡ Err DrawsFault.Triangles → 2 ^ 20 < length (tris.old ++ point_square (transform_point point matrix.now) color) }
{
    match near_image(matrix, point) {
        Some(corner) => push_square(corner, color, tris),
        None => Ok(()),
    }
}

/// Adds the square of a point that is drawn.
fn push_square(corner: Vec3, color: Rgb, tris: &mut TriangleList) -> Result<(), DrawsFault>
    requires { list_all (is_within (2 ^ 24)) (components corner) ≡ true }
    ensures pushed { OnOk result (tris.new ≡ tris.old ++ point_square corner color) }
    ensures many { result ≡ Err DrawsFault.Triangles → 2 ^ 20 < length (tris.old ++ point_square corner color) }
{
    let first = if_near(corner);
    let right = if_near(offset(corner, 1, 0));
    let above_right = if_near(offset(corner, 1, 1));
    let above = if_near(offset(corner, 0, 1));
    tris.push(world_triangle(first, right, above_right, color))?;
    tris.push(world_triangle(first, above_right, above, color))
}

/// A point to the right of another one, and above it.
fn offset(point: Vec3, right: u8, up: u8) -> Vec3
    requires { list_all (is_within (2 ^ 24)) (components point) ≡ true }
    ensures { result ≡ offset point right up }
{
    Vec3 {
        x: point.x + i64::from(right),
        y: point.y + i64::from(up),
        z: point.z,
    }
}
