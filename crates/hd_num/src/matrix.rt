//! Matrices of whole numbers, which move points.

ghost use Rattle.std.specs.Prelude.{◌≡◌, ◌<◌, ◌%◌, ◌^◌, ◌*ℤ◌, IfSome, IsTrue, if◌then◌else◌, pos, slice_index_or};
ghost use Rattle.std.specs.List.{list_all};
ghost use Rattle.hd_num.specs.Matrices.{IsMatrix, if_in_range, column_of, entry, identity, in_range, is_within, product, row_times, sum_below, table, three, with_last};
ghost use Rattle.hd_num.specs.Points.{if_point_in_range, transform_point, point_in_range, point_of};
ghost use Rattle.hd_num.specs.Turns.{cosine, sine, turns};

use crate::axis::Axis;
use crate::vector::Vec3;
use std::marker::Model;

/// The largest magnitude of a number in a matrix, and of a component of a moved point.
const LIMIT: u64 = 1 << 30;

/// The largest magnitude of a component whose products are summed in 64 bits.
const NARROW_LIMIT: u64 = 1 << 31;

/// A matrix that moves points: four rows of three numbers, each from -2^30 to 2^30.
///
/// A point is a row, and the matrix is to its right. The fourth row is the translation.
#[derive(Clone, Copy, Debug, PartialEq, Eq)]
pub struct Matrix {
    rows: [[i64; 3]; 4],
}

impl Model for Matrix {
    ghost use Rattle.hd_num.specs.Matrices.{Rows, IsMatrix};

    ghost Value = { Rows };

    ghost view = { λ m. m.rows };

    ghost invariant = { λ m. IsMatrix m.rows };

    ghost inverse = { λ rows. record { rows = rows } };
}

impl Matrix {
    /// The matrix that leaves each point where it is.
    pub fn identity() -> Matrix
        ensures { result ≡ identity }
    {
        Matrix {
            rows: [[1, 0, 0], [0, 1, 0], [0, 0, 1], [0, 0, 0]],
        }
    }

    /// The matrix with these rows, or `None` where a number is outside -2^30 to 2^30.
    pub fn of_rows(rows: [[i64; 3]; 4]) -> Option<Matrix>
        ensures { result ≡ if_in_range rows }
    {
        if is_in_range(&rows) {
            Some(Matrix { rows })
        } else {
            None
        }
    }

    /// So many quarter turns about an axis, of which four are none.
    ///
    /// One turns y to z about x, z to x about y, and x to y about z.
    pub fn quarter_turn(axis: Axis, k: u8) -> Matrix
        ensures { result ≡ turns axis (k % 4) }
    {
        let (cosine, sine) = cosine_and_sine(k);
        let rows = match axis {
            Axis::X => [[1, 0, 0], [0, cosine, sine], [0, -sine, cosine], [0, 0, 0]],
            Axis::Y => [[cosine, 0, -sine], [0, 1, 0], [sine, 0, cosine], [0, 0, 0]],
            Axis::Z => [[cosine, sine, 0], [-sine, cosine, 0], [0, 0, 1], [0, 0, 0]],
        };
        Matrix { rows }
    }

    /// The matrix, which is in range as each matrix is.
    #[inline]
    pub(crate) fn if_in_range(self) -> Option<Matrix>
        ensures { result ≡ if_in_range self }
    {
        let rows = self.rows;
        Some(Matrix { rows })
    }

    /// The number at a row and a column.
    pub fn entry(&self, row: usize, column: usize) -> i64
        requires row_in { row < 4 }
        requires column_in { column < 3 }
        ensures number { result ≡ entry self.now row column }
        ensures within { IsTrue (is_within (2 ^ 30) result) }
        ensures matrix { IsMatrix self.now }
    {
        self.rows[row][column]
    }

    /// The matrix that moves a point first by `self` and then by `next`, or `None` where a
    /// number of it is outside -2^30 to 2^30.
    pub fn compose(&self, next: &Matrix) -> Option<Matrix>
        ensures { result ≡ if_in_range (product self.now next.now) }
    {
        let [x, y, z, origin] = self.rows;
        Matrix::of_rows([
            next.image(x, 0),
            next.image(y, 0),
            next.image(z, 0),
            next.image(origin, 1),
        ])
    }

    /// Where the matrix moves a point, or `None` where a component is outside -2^30 to 2^30.
    pub fn apply(&self, p: Vec3) -> Option<Vec3>
        ensures exact { result ≡ if_point_in_range (transform_point p self.now) }
        ensures within { IfSome result (λ image. IsTrue (point_in_range image)) }
    {
        let row = [p.x, p.y, p.z];
        if is_row_within(&row, NARROW_LIMIT) {
            point_in_range(self.image(row, 1))
        } else {
            self.apply_wide(row)
        }
    }

    /// Where the matrix moves a point of any size, as `apply` answers it.
    #[cold]
    fn apply_wide(&self, row: [i64; 3]) -> Option<Vec3>
        ensures { result ≡ if_point_in_range (point_of (three (row_times (with_last row (pos 1)) self.now))) }
    {
        Some(Vec3 {
            x: self.wide_component(row, 0)?,
            y: self.wide_component(row, 1)?,
            z: self.wide_component(row, 2)?,
        })
    }

    /// One component of a moved point, or `None` where it is outside -2^30 to 2^30.
    fn wide_component(&self, row: [i64; 3], column: usize) -> Option<i64>
        requires { column < 3 }
        ensures { let component = row_times (with_last row (pos 1)) self.now column in
            result ≡ (if is_within (2 ^ 30) component then Some component else None) }
    {
        let component = wide_dot(row, self.column(column));
        if component.unsigned_abs() <= u128::from(LIMIT) {
            Some(component as i64)
        } else {
            None
        }
    }

    /// The product of a row of four numbers, the last of them 0 or 1, with the matrix.
    #[inline]
    fn image(&self, row: [i64; 3], last: i64) -> [i64; 3]
        requires row_in { IsTrue (list_all (is_within (2 ^ 31)) row) }
        requires last_in { IsTrue (is_within 1 last) }
        ensures { result ≡ three (row_times (with_last row last) self.now) }
    {
        [
            dot(row, last, self.column(0)),
            dot(row, last, self.column(1)),
            dot(row, last, self.column(2)),
        ]
    }

    /// The four numbers of a column.
    #[inline]
    fn column(&self, column: usize) -> [i64; 4]
        requires { column < 3 }
        ensures numbers { result ≡ column_of self.now column }
        ensures within { IsTrue (list_all (is_within (2 ^ 30)) result) }
    {
        let [x, y, z, origin] = self.rows;
        [x[column], y[column], z[column], origin[column]]
    }
}

/// The cosine and the sine of so many quarter turns.
fn cosine_and_sine(k: u8) -> (i64, i64)
    ensures cosine { result.0 ≡ cosine (k % 4) }
    ensures sine { result.1 ≡ sine (k % 4) }
{
    match k % 4 {
        0 => (1, 0),
        1 => (0, 1),
        2 => (-1, 0),
        _ => (0, -1),
    }
}

/// The sum of the products of four numbers with the numbers of a column.
#[inline]
fn dot(row: [i64; 3], last: i64, column: [i64; 4]) -> i64
    requires row_in { IsTrue (list_all (is_within (2 ^ 31)) row) }
    requires last_in { IsTrue (is_within 1 last) }
    requires column_in { IsTrue (list_all (is_within (2 ^ 30)) column) }
    ensures { result ≡ sum_below 4 (λ k. with_last row last k *ℤ slice_index_or column k (pos 0)) }
{
    row[0] * column[0] + row[1] * column[1] + row[2] * column[2] + last * column[3]
}

/// The sum of the products of three numbers, and of 1, with the numbers of a column.
fn wide_dot(row: [i64; 3], column: [i64; 4]) -> i128
    requires { IsTrue (list_all (is_within (2 ^ 30)) column) }
    ensures { result ≡ sum_below 4 (λ k. with_last row (pos 1) k *ℤ slice_index_or column k (pos 0)) }
{
    i128::from(row[0]) * i128::from(column[0])
        + i128::from(row[1]) * i128::from(column[1])
        + i128::from(row[2]) * i128::from(column[2])
        + i128::from(column[3])
}

/// The point with these coordinates, or `None` where one is outside -2^30 to 2^30.
#[inline]
fn point_in_range(row: [i64; 3]) -> Option<Vec3>
    ensures { result ≡ if_point_in_range (point_of row) }
{
    if is_row_within(&row, LIMIT) {
        let [x, y, z] = row;
        Some(Vec3 { x, y, z })
    } else {
        None
    }
}

/// Whether each number is from -2^30 to 2^30.
#[inline]
fn is_in_range(rows: &[[i64; 3]; 4]) -> bool
    ensures test { result ≡ in_range rows.now }
    ensures shaped { rows.now ≡ table (entry rows.now) }
{
    is_row_within(&rows[0], LIMIT)
        & is_row_within(&rows[1], LIMIT)
        & is_row_within(&rows[2], LIMIT)
        & is_row_within(&rows[3], LIMIT)
}

/// Whether each of three numbers is from `-bound` to `bound`.
#[inline]
fn is_row_within(row: &[i64; 3], bound: u64) -> bool
    ensures test { result ≡ list_all (is_within bound) row.now }
    ensures shaped { row.now ≡ three (λ column. slice_index_or row.now column (pos 0)) }
{
    (row[0].unsigned_abs() <= bound)
        & (row[1].unsigned_abs() <= bound)
        & (row[2].unsigned_abs() <= bound)
}
