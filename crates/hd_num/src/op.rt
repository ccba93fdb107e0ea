//! Transform ops, each of which is a matrix.

ghost use Rattle.std.specs.Prelude.{◌≡◌};
ghost use Rattle.hd_num.specs.Matrices.{if_in_range};
ghost use Rattle.hd_num.specs.Ops.{op_matrix};

use crate::axis::Axis;
use crate::matrix::Matrix;
use crate::vector::Vec3;

/// A step of a transform. Turns are counted in quarters, and four of them are none.
#[derive(Clone, Copy, Debug, PartialEq, Eq)]
pub enum Op {
    /// Adds a vector to each point.
    Translate(Vec3),

    /// Multiplies each component of a point by that of a vector.
    Scale(Vec3),

    /// Turns about one axis.
    Rotate(Axis, u8),

    /// Turns about x, then about y, then about z.
    RotateXyz(u8, u8, u8),

    /// Moves points by a matrix.
    Transform(Matrix),
}

impl Op {
    /// The matrix of the op, or `None` where a number of it is outside -2^30 to 2^30.
    pub fn matrix(&self) -> Option<Matrix>
        ensures { result ≡ if_in_range (op_matrix self.now) }
    {
        match *self {
            Op::Translate(v) => {
                Matrix::of_rows([[1, 0, 0], [0, 1, 0], [0, 0, 1], [v.x, v.y, v.z]])
            }
            Op::Scale(v) => Matrix::of_rows([[v.x, 0, 0], [0, v.y, 0], [0, 0, v.z], [0, 0, 0]]),
            Op::Rotate(axis, k) => Some(Matrix::quarter_turn(axis, k)),
            Op::RotateXyz(x, y, z) => Matrix::quarter_turn(Axis::X, x)
                .compose(&Matrix::quarter_turn(Axis::Y, y))?
                .compose(&Matrix::quarter_turn(Axis::Z, z)),
            Op::Transform(matrix) => matrix.if_in_range(),
        }
    }
}
