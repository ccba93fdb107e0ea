//! A worked example of pixels, and a copy of what is drawn. Cases of `program_cases` show whole pictures.

use hd_num::{List, Rgb, Vec3};
use hd_picture::{Draws, WorldTri, is_drawable, pixel};
use std::alloc::{AllocError, Global};

const WHITE: Rgb = Rgb {
    r: 255,
    g: 255,
    b: 255,
};

const BLACK: Rgb = Rgb { r: 0, g: 0, b: 0 };

/// A right triangle around the middle of the picture.
const TRIANGLE: WorldTri = WorldTri {
    a: Vec3 { x: -2, y: -2, z: 0 },
    b: Vec3 { x: 2, y: -2, z: 0 },
    c: Vec3 { x: -2, y: 2, z: 0 },
    color: WHITE,
};

/// What may go to another thread, and be lent to several.
fn across<T: Send + Sync>(value: T) -> T {
    value
}

/// The triangle, as an eye above it sees it in a picture of four by four pixels.
fn triangle(alloc: Global) -> Result<Draws, AllocError> {
    Ok(Draws {
        tris: List::of(alloc, vec![in alloc; TRIANGLE]?)?,
        eye: Vec3 {
            x: 0,
            y: 0,
            z: 1 << 24,
        },
        width: 4,
        height: 4,
    })
}

/// Whether a copy of the triangle covers the pixels on its long edge, and none beyond.
fn pixels_are_right(alloc: Global) -> Result<bool, AllocError> {
    let draws = across(triangle(alloc)?.copy()?);
    if draws.width != 4 || draws.height != 4 || !is_drawable(&draws) {
        return Ok(false);
    }
    Ok(
        pixel(&draws, 0, 0) == WHITE
            && pixel(&draws, 2, 2) == WHITE
            && pixel(&draws, 0, 3) == WHITE
            && pixel(&draws, 1, 0) == BLACK
            && pixel(&draws, 3, 2) == BLACK,
    )
}

#[test]
fn a_triangle_covers_its_edges(rt: HostRuntime) {
    assert!(rt; pixels_are_right(rt.alloc()) == Ok(true));
}
