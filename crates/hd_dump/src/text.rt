//! Appends values to a text.

ghost use Rattle.std.specs.Prelude.{◌≡◌, ◌++◌, ◌<◌, OnOk, decimal};
ghost use Rattle.hd_path.specs.Paths.{path_text};
ghost use Rattle.hd_dump.specs.Texts.{triple_text, text_or_dash, color_text, matrix_row_text, matrix_text, flag_text};

use hd_num::{Matrix, Rgb};
use hd_path::Path;
use itoa::{Buffer, Integer};
use std::alloc::AllocError;

/// Appends a number in decimal.
pub(crate) fn push_number<I: Integer>(text: &mut Vec<u8>, number: I) -> Result<(), AllocError>
    ensures { OnOk result (text.new.items ≡ text.old.items ++ I.text number) }
{
    let mut buffer = Buffer::new();
    text.extend_from_slice(buffer.format(number).as_bytes())
}

/// Appends three numbers, with commas between them.
pub(crate) fn push_triple(text: &mut Vec<u8>, x: i64, y: i64, z: i64) -> Result<(), AllocError>
    ensures { OnOk result (text.new.items ≡ text.old.items ++ triple_text x y z) }
{
    push_number(text, x)?;
    text.extend_from_slice(b",")?;
    push_number(text, y)?;
    text.extend_from_slice(b",")?;
    push_number(text, z)?;
    Ok(())
}

/// Appends the three channels of a color, with commas between them.
pub(crate) fn push_color(text: &mut Vec<u8>, color: Rgb) -> Result<(), AllocError>
    ensures { OnOk result (text.new.items ≡ text.old.items ++ color_text color) }
{
    push_number(text, color.r)?;
    text.extend_from_slice(b",")?;
    push_number(text, color.g)?;
    text.extend_from_slice(b",")?;
    push_number(text, color.b)?;
    Ok(())
}

/// Appends the three numbers of a row of a matrix.
fn push_matrix_row(text: &mut Vec<u8>, matrix: &Matrix, row: usize) -> Result<(), AllocError>
    requires { row < 4 }
    ensures { OnOk result (text.new.items ≡ text.old.items ++ matrix_row_text matrix.now row) }
{
    push_triple(
        text,
        matrix.entry(row, 0),
        matrix.entry(row, 1),
        matrix.entry(row, 2),
    )
}

/// Appends the twelve numbers of a matrix row by row, or `out` where it is out of range.
pub(crate) fn push_matrix(text: &mut Vec<u8>, matrix: &Option<Matrix>) -> Result<(), AllocError>
    ensures { OnOk result (text.new.items ≡ text.old.items ++ matrix_text matrix.now) }
{
    let Some(matrix) = matrix else {
        return text.extend_from_slice(b"out");
    };
    push_matrix_row(text, matrix, 0)?;
    text.extend_from_slice(b",")?;
    push_matrix_row(text, matrix, 1)?;
    text.extend_from_slice(b",")?;
    push_matrix_row(text, matrix, 2)?;
    text.extend_from_slice(b",")?;
    push_matrix_row(text, matrix, 3)?;
    Ok(())
}

/// Appends 1 for yes, and 0 for no.
pub(crate) fn push_flag(text: &mut Vec<u8>, flag: bool) -> Result<(), AllocError>
    ensures { OnOk result (text.new.items ≡ text.old.items ++ flag_text flag) }
{
    text.extend_from_slice(if flag { b"1" } else { b"0" })
}

/// Appends a path, or `-` where there is none.
pub(crate) fn push_binding(text: &mut Vec<u8>, path: &Option<Path>) -> Result<(), AllocError>
    ensures { OnOk result (text.new.items ≡ text.old.items ++ text_or_dash path_text path.now) }
{
    match path {
        Some(path) => text.extend_from_slice(path.as_text().as_bytes()),
        None => text.extend_from_slice(b"-"),
    }
}

/// Appends a color, or `-` where there is none.
pub(crate) fn push_color_or_dash(text: &mut Vec<u8>, color: &Option<Rgb>) -> Result<(), AllocError>
    ensures { OnOk result (text.new.items ≡ text.old.items ++ text_or_dash color_text color.now) }
{
    match color {
        Some(color) => push_color(text, *color),
        None => text.extend_from_slice(b"-"),
    }
}

/// Appends a number, or `-` where there is none.
pub(crate) fn push_number_or_dash(
    text: &mut Vec<u8>,
    number: Option<usize>,
) -> Result<(), AllocError>
    ensures { OnOk result (text.new.items ≡ text.old.items ++ text_or_dash decimal number) }
{
    match number {
        Some(number) => push_number(text, number),
        None => text.extend_from_slice(b"-"),
    }
}
