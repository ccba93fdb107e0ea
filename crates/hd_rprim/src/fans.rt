//! Faces cut into triangles.

ghost use Rattle.std.specs.Prelude.{◌≡◌, true, ◌++◌, ◌-◌, ◌+◌, ◌≤◌, ◌<◌, ◌≤ℤ◌, pos, nat_abs, length, take, drop, IfOk, OnOk};
ghost use Rattle.hd_rprim.specs.Fans.{takes_all, faces, fan, fan_triangle, fans_from, triangles};

use crate::buffer::Tri;
use hd_num::List;
use std::alloc::{AllocError, Global};

/// The triangles of a mesh, face by face, each face a fan about its first corner. There are none where a count is negative
/// or the counts do not add up to the number of indices.
pub fn triangulate(
    alloc: Global,
    counts: &List<i64>,
    indices: &List<i64>,
) -> Result<List<Tri>, AllocError>
    ensures { IfOk result (λ made. made ≡ triangles counts.now indices.now) }
{
    if !takes_all(counts.items(), indices.items()) {
        return Ok(List::empty());
    }
    let mut made = Vec::with_capacity(alloc, indices.len())?;
    push_fans(counts.items(), indices.items(), &mut made)?;
    List::of(alloc, made)
}

/// Is no count negative, and do they take all the indices?
fn takes_all(counts: &[i64], indices: &[i64]) -> bool
    ensures { result ≡ takes_all counts.now indices.now }
{
    let mut left = indices.len();
    for count in counts {
        if *count < 0 || *count as usize > left {
            return false;
        }
        left -= *count as usize;
    }
    left == 0
}

/// Adds the triangles of the faces that the counts cut the indices into.
fn push_fans(counts: &[i64], indices: &[i64], made: &mut Vec<Tri>) -> Result<(), AllocError>
    requires { takes_all counts.now indices.now ≡ true }
    ensures { OnOk result (made.new.items ≡ made.old.items ++ fans_from 0 (faces counts.now indices.now)) }
{
    let mut rest = indices;
    for number in 0..counts.len() {
        let (face, after) = split_face(rest, counts[number]);
        push_fan(number as u64, face, made)?;
        rest = after;
    }
    Ok(())
}

/// The indices of a face of so many corners, and those after them.
fn split_face(indices: &[i64], count: i64) -> (&[i64], &[i64])
    requires counted { pos 0 ≤ℤ count }
    requires within { nat_abs count ≤ length indices.now }
    ensures face { result.0.now ≡ take (nat_abs count) indices.now }
    ensures after { result.1.now ≡ drop (nat_abs count) indices.now }
{
    indices.split_at(count as usize)
}

/// Adds the triangles of a face.
fn push_fan(number: u64, face: &[i64], made: &mut Vec<Tri>) -> Result<(), AllocError>
    ensures { OnOk result (made.new.items ≡ made.old.items ++ fan number face.now) }
{
    for k in 1..face.len().saturating_sub(1) {
        made.push(fan_triangle(number, face, k))?;
    }
    Ok(())
}

/// The triangle of a face's first corner, corner `k` and the one after that.
fn fan_triangle(number: u64, face: &[i64], k: usize) -> Tri
    requires { k + 1 < length face.now }
    ensures { result ≡ fan_triangle number face.now k }
{
    Tri {
        a: face[0],
        b: face[k],
        c: face[k + 1],
        face: number,
    }
}
