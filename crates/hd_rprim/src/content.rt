//! Buffers as contents of a registry.

ghost use Rattle.std.specs.Prelude.{◌≡◌, fold};
ghost use Rattle.hd_rprim.specs.Digests.{mixed, mixed_int, mixed_point, mixed_corners, mixed_triangle, mixed_color, digest_of};

use crate::buffer::{Buffer, Tri};
use hd_num::{Rgb, Vec3};
use hd_registry::Content;

/// The odd number that a digest is multiplied by before a number is added.
const FACTOR: u64 = 6364136223846793005;

impl Content for Buffer {
    ghost use Rattle.hd_rprim.specs.Digests.{digest_of};
    ghost use Rattle.hd_rprim.specs.inner.Equality.{same_buffer, buffer_itself};

    ghost digest_of = { digest_of };

    fn digest(&self) -> u64 {
        match self {
            Buffer::Points(points) => points_digest(points.items()),
            Buffer::Triangles(triangles) => triangles_digest(triangles.items()),
            Buffer::Colors(colors) => colors_digest(colors.items()),
        }
    }

    ghost same = { same_buffer };

    ghost itself = { buffer_itself };
}

fn points_digest(points: &[Vec3]) -> u64
    ensures { result ≡ fold mixed_point 1 points.now }
{
    let mut digest = 1;
    for point in points {
        digest = mixed_point(digest, point);
    }
    digest
}

fn triangles_digest(triangles: &[Tri]) -> u64
    ensures { result ≡ fold mixed_triangle 2 triangles.now }
{
    let mut digest = 2;
    for triangle in triangles {
        digest = mixed_triangle(digest, triangle);
    }
    digest
}

fn colors_digest(colors: &[Rgb]) -> u64
    ensures { result ≡ fold mixed_color 3 colors.now }
{
    let mut digest = 3;
    for color in colors {
        digest = mixed_color(digest, color);
    }
    digest
}

fn mixed_point(digest: u64, point: &Vec3) -> u64
    ensures { result ≡ mixed_point digest point.now }
{
    mixed_int(mixed_int(mixed_int(digest, point.x), point.y), point.z)
}

fn mixed_triangle(digest: u64, triangle: &Tri) -> u64
    ensures { result ≡ mixed_triangle digest triangle.now }
{
    mixed(mixed_corners(digest, triangle), triangle.face)
}

fn mixed_corners(digest: u64, triangle: &Tri) -> u64
    ensures { result ≡ mixed_corners digest triangle.now }
{
    mixed_int(
        mixed_int(mixed_int(digest, triangle.a), triangle.b),
        triangle.c,
    )
}

fn mixed_color(digest: u64, color: &Rgb) -> u64
    ensures { result ≡ mixed_color digest color.now }
{
    let first = mixed(digest, u64::from(color.r));
    mixed(mixed(first, u64::from(color.g)), u64::from(color.b))
}

/// Mixes the 64 bits of a signed number into a digest.
fn mixed_int(digest: u64, number: i64) -> u64
    ensures { result ≡ mixed_int digest number }
{
    mixed(digest, number.cast_unsigned())
}

/// Mixes one more number into a digest.
fn mixed(digest: u64, number: u64) -> u64
    ensures { result ≡ mixed digest number }
{
    digest.wrapping_mul(FACTOR).wrapping_add(number)
}
