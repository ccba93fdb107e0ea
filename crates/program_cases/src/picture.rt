//! Pictures as rows of letters.
//!
//! `.` is black, `W` white, `R` red, `G` green, `B` blue, `Y` yellow, `C` cyan and `M` magenta. Another colour has the
//! small letter of the nearest of these, with each of red, green and blue 255 where it is 128 or more, and else 0; `k` is
//! nearly black. Columns count from the left and rows from the top, from 0. A picture is shown from its first row and
//! column that are not black to its last ones, where these are at most 32 by 32 pixels, and else each fourth pixel of
//! each fourth row of all of it.

ghost use Rattle.std.specs.Prelude.{◌<◌};

use std::alloc::{AllocError, Global};

/// A binary PPM, of a header and three bytes for each pixel.
#[derive(Clone, Copy)]
pub struct Picture<'a> {
    width: usize,
    height: usize,
    pixels: &'a [u8],
}

/// Columns and rows of a picture, from the first to the last.
#[derive(Clone, Copy)]
struct Window {
    left: usize,
    right: usize,
    top: usize,
    bottom: usize,
    step: usize,
}

/// What has no column and no row, so that it ends before it begins.
const NOTHING: Window = Window {
    left: usize::MAX,
    right: 0,
    top: usize::MAX,
    bottom: 0,
    step: 1,
};

/// The width and the height that a header's line spells.
fn size_of(line: &[u8]) -> Option<(usize, usize)> {
    let (width, height) = str::from_utf8(line).ok()?.split_once(' ')?;
    Some((width.parse::<usize>().ok()?, height.parse::<usize>().ok()?))
}

/// The picture of a file's bytes, if all its pixels are there.
pub fn picture_of(bytes: &[u8]) -> Option<Picture<'_>> {
    let mut parts = bytes.splitn(4, |byte| *byte == b'\n');
    let _magic = parts.next()?;
    let (width, height) = size_of(parts.next()?)?;
    let _greatest = parts.next()?;
    let pixels = parts.next()?;
    if pixels.len() == width.saturating_mul(height).saturating_mul(3) {
        Some(Picture {
            width,
            height,
            pixels,
        })
    } else {
        None
    }
}

/// How many bytes a row has, or 1 where a row has none.
fn row_len(picture: &Picture) -> usize
    ensures { 0 < result }
{
    picture.width.saturating_mul(3).max(1)
}

/// The window that has this pixel besides.
fn with_pixel(window: Window, x: usize, y: usize) -> Window {
    Window {
        left: window.left.min(x),
        right: window.right.max(x),
        top: window.top.min(y),
        bottom: window.bottom.max(y),
        step: window.step,
    }
}

/// The window of a row that is not black, with what is in the window before.
fn with_row(window: Window, row: &[u8], y: usize) -> Window {
    let mut window = window;
    for (x, pixel) in row.chunks(3).enumerate() {
        if pixel != [0, 0, 0].as_slice() {
            window = with_pixel(window, x, y);
        }
    }
    window
}

/// The smallest window of what is not black.
fn window_of(picture: &Picture) -> Window {
    let mut window = NOTHING;
    for (y, row) in picture.pixels.chunks(row_len(picture)).enumerate() {
        window = with_row(window, row, y);
    }
    window
}

/// A window that is at most 32 by 32, or each fourth pixel of all.
fn fitted(picture: &Picture, window: Window) -> Window {
    if window.right.saturating_sub(window.left) < 32
        && window.bottom.saturating_sub(window.top) < 32
    {
        return window;
    }
    Window {
        left: 0,
        right: picture.width,
        top: 0,
        bottom: picture.height,
        step: 4,
    }
}

fn is_shown(place: usize, first: usize, last: usize, step: usize) -> bool {
    first <= place && place <= last && place.checked_rem(step) == Some(0)
}

/// The letter of a colour.
fn letter(pixel: &[u8]) -> char {
    let [r, g, b] = pixel else { return '?' };
    let exact = [r, g, b].iter().all(|part| **part == 0 || **part == 255);
    let capital = match (*r >= 128, *g >= 128, *b >= 128) {
        (false, false, false) if exact => '.',
        (false, false, false) => 'K',
        (true, true, true) => 'W',
        (true, false, false) => 'R',
        (false, true, false) => 'G',
        (false, false, true) => 'B',
        (true, true, false) => 'Y',
        (false, true, true) => 'C',
        (true, false, true) => 'M',
    };
    if exact {
        capital
    } else {
        capital.to_ascii_lowercase()
    }
}

fn push_row(text: &mut String, row: &[u8], window: Window) -> Result<(), AllocError> {
    text.push_str("    ")?;
    for (x, pixel) in row.chunks(3).enumerate() {
        if is_shown(x, window.left, window.right, window.step) {
            text.push(letter(pixel))?;
        }
    }
    text.push_str("\n")
}

/// Adds the size of a picture and its rows.
pub fn push_picture(alloc: Global, text: &mut String, picture: &Picture) -> Result<(), AllocError> {
    let Picture { width, height, .. } = picture;
    let seen = window_of(picture);
    if seen.right < seen.left {
        let line = format!(in alloc; "  {width} by {height} pixels, all black\n")?;
        return text.push_str(&line);
    }
    let Window {
        left,
        right,
        top,
        bottom,
        ..
    } = seen;
    let line = format!(in alloc;
        "  {width} by {height} pixels, black but for columns {left} to {right} of rows {top} to {bottom}:\n"
    )?;
    text.push_str(&line)?;
    let window = fitted(picture, seen);
    for (y, row) in picture.pixels.chunks(row_len(picture)).enumerate() {
        if is_shown(y, window.top, window.bottom, window.step) {
            push_row(text, row, window)?;
        }
    }
    Ok(())
}
