//! The triangles of a mesh where a matrix places it.

ghost use Rattle.std.specs.Prelude.{◌≡◌, ◌^◌, ◌<◌, ◌++◌, ◌↔◌, length, map, filter_map, None, All, IsTrue, OnOk};
ghost use Rattle.hd_num.specs.Points.{transform_point};
ghost use Rattle.hd_draws.specs.DrawList.{if_near, corner_at, mesh_triangle, mesh_triangles};

use crate::contents::Geometry;
use crate::fault::DrawsFault;
use crate::near::near_image;
use crate::triangles::{TriangleList, color_of, world_triangle};
use hd_num::{Matrix, Rgb, Vec3};
use hd_picture::WorldTri;
use hd_rprim::Tri;
use std::alloc::AllocError;

/// Adds the triangles of a mesh where a matrix places it. What is in `placed` is written over.
pub(crate) fn push_mesh(
    mesh: &Geometry,
    matrix: &Matrix,
    placed: &mut Vec<Option<Vec3>>,
    tris: &mut TriangleList,
) -> Result<(), DrawsFault>
    ensures pushed { OnOk result (tris.new ≡ tris.old ++ mesh_triangles mesh.now.points.now mesh.now.triangles.now mesh.now.colors.now mesh.now.faces matrix.now) }
    ensures many { result ≡ Err DrawsFault.Triangles → 2 ^ 20 < length (tris.old ++ mesh_triangles mesh.now.points.now mesh.now.triangles.now mesh.now.colors.now mesh.now.faces matrix.now) }
{
    place_points(mesh.points, matrix, placed)?;
    if are_far(placed) {
        return Ok(());
    }
    push_triangles(placed, mesh.triangles, mesh.colors, mesh.faces, tris)
}

/// Writes down where a matrix moves points, those of them that are drawn.
fn place_points(
    points: &[Vec3],
    matrix: &Matrix,
    placed: &mut Vec<Option<Vec3>>,
) -> Result<(), AllocError>
    ensures { OnOk result (placed.new.items ≡ map (λ p. if_near (transform_point p matrix.now)) points.now) }
{
    placed.clear();
    for point in points {
        placed.push(near_image(matrix, *point))?;
    }
    Ok(())
}

/// Whether none of the points is drawn, so that no triangle is.
fn are_far(points: &[Option<Vec3>]) -> bool
    ensures { IsTrue result ↔ All (λ point. point ≡ None) points.now }
{
    points.iter().all(|point| point.is_none())
}

/// Adds the triangles whose points are all drawn.
fn push_triangles(
    points: &[Option<Vec3>],
    triangles: &[Tri],
    colors: &[Rgb],
    faces: u64,
    tris: &mut TriangleList,
) -> Result<(), DrawsFault>
    ensures pushed { OnOk result (tris.new ≡ tris.old ++ filter_map (mesh_triangle points.now colors.now faces) triangles.now) }
    ensures many { result ≡ Err DrawsFault.Triangles → 2 ^ 20 < length (tris.old ++ filter_map (mesh_triangle points.now colors.now faces) triangles.now) }
{
    for triangle in triangles {
        tris.push(mesh_triangle(points, triangle, colors, faces))?;
    }
    Ok(())
}

/// A triangle in the color of its face.
fn mesh_triangle(
    points: &[Option<Vec3>],
    triangle: &Tri,
    colors: &[Rgb],
    faces: u64,
) -> Option<WorldTri>
    ensures { result ≡ mesh_triangle points.now colors.now faces triangle.now }
{
    world_triangle(
        corner_at(points, triangle.a),
        corner_at(points, triangle.b),
        corner_at(points, triangle.c),
        color_of(colors, faces, triangle.face),
    )
}

/// The point that an index names, where it is drawn.
fn corner_at(points: &[Option<Vec3>], index: i64) -> Option<Vec3>
    ensures { result ≡ corner_at points.now index }
{
    if index < 0 {
        return None;
    }
    match points.get(index as usize) {
        Some(point) => *point,
        None => None,
    }
}
