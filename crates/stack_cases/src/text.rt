//! A prim and its values as text.

use hd_num::{Matrix, Rgb, Vec3};
use hd_path::Path;
use hd_scene::Prim;
use hd_value::{Container, Locator, Source, Value};
use std::alloc::{AllocError, Global};

/// Each locator at which a prim can have a value.
const LOCATORS: [&str; 17] = [
    "xform/matrix",
    "xform/order",
    "xform/reset",
    "visibility",
    "purpose",
    "binding",
    "primvars/color",
    "primvars/color8",
    "primvars/displayColor",
    "primvars/points",
    "mesh/counts",
    "mesh/indices",
    "instancer/positions",
    "instancer/protoIndices",
    "instancer/prototypes",
    "material/color8",
    "instancedBy",
];

/// Adds the line of a prim, and a line for each of these locators.
pub fn push_prim(
    alloc: Global,
    path: &Path,
    prim: &Prim,
    locators: &[String],
    text: &mut String,
) -> Result<(), AllocError> {
    text.push_str("  ")?;
    text.push_str(path.to_text(alloc)?.as_str())?;
    let Some(values) = &prim.values else {
        return text.push_str(" is no prim\n");
    };
    if !prim.kind.text().is_empty() {
        text.push_str(" ")?;
        text.push_str(prim.kind.text())?;
    }
    text.push_str("\n")?;
    for locator in locators {
        push_line(alloc, values, locator.as_str(), text)?;
    }
    Ok(())
}

/// Adds a line for each value of a prim.
pub fn push_values(alloc: Global, prim: &Prim, text: &mut String) -> Result<(), AllocError> {
    let Some(values) = &prim.values else {
        return Ok(());
    };
    for locator in LOCATORS {
        if values.get(&locator_of(alloc, locator)?).is_some() {
            push_line(alloc, values, locator, text)?;
        }
    }
    Ok(())
}

/// The locator of one token, or of two with a stroke between them.
fn locator_of(alloc: Global, text: &str) -> Result<Locator, AllocError> {
    match text.split_once('/') {
        Some((first, second)) => Locator::of(alloc, &[first, second]),
        None => Locator::of(alloc, &[text]),
    }
}

/// Adds the line of a locator.
fn push_line(
    alloc: Global,
    values: &Container,
    locator: &str,
    text: &mut String,
) -> Result<(), AllocError> {
    text.push_str("    ")?;
    text.push_str(locator)?;
    match values.get(&locator_of(alloc, locator)?) {
        Some(Source::Leaf(value)) => {
            text.push_str(" =")?;
            push_value(alloc, value, text)?;
        }
        Some(Source::Inner(_)) => text.push_str(" has values below it")?,
        None => text.push_str(" is absent")?,
    }
    text.push_str("\n")
}

/// Adds a value after a blank, and a list item by item.
fn push_value(alloc: Global, value: &Value, text: &mut String) -> Result<(), AllocError> {
    match value {
        Value::Token(token) => push_word(token.text(), text),
        Value::Flag(flag) => push_word(if *flag { "true" } else { "false" }, text),
        Value::Out => push_word("out", text),
        Value::Matrix(matrix) => push_matrix(alloc, matrix, text),
        Value::Ints(numbers) => push_numbers(alloc, numbers.items(), text),
        Value::Vecs(points) => push_points(alloc, points.items(), text),
        Value::Color(color) => push_color(alloc, *color, text),
        Value::Colors(colors) => push_colors(alloc, colors.items(), text),
        Value::Paths(paths) => push_paths(alloc, paths.items(), text),
        Value::Tokens(_) | Value::Op(_) => push_word("not flat", text),
    }
}

fn push_word(word: &str, text: &mut String) -> Result<(), AllocError> {
    text.push_str(" ")?;
    text.push_str(word)
}

fn push_triple(alloc: Global, triple: [i64; 3], text: &mut String) -> Result<(), AllocError> {
    let [x, y, z] = triple;
    text.push_str(format!(in alloc; " ({x},{y},{z})")?.as_str())
}

/// Adds the four rows of a matrix.
fn push_matrix(alloc: Global, matrix: &Matrix, text: &mut String) -> Result<(), AllocError> {
    for row in 0..4 {
        let numbers = [
            matrix.entry(row, 0),
            matrix.entry(row, 1),
            matrix.entry(row, 2),
        ];
        push_triple(alloc, numbers, text)?;
    }
    Ok(())
}

fn push_numbers(alloc: Global, numbers: &[i64], text: &mut String) -> Result<(), AllocError> {
    for number in numbers {
        push_word(number.to_string(alloc)?.as_str(), text)?;
    }
    Ok(())
}

fn push_points(alloc: Global, points: &[Vec3], text: &mut String) -> Result<(), AllocError> {
    for point in points {
        push_triple(alloc, [point.x, point.y, point.z], text)?;
    }
    Ok(())
}

fn push_color(alloc: Global, color: Rgb, text: &mut String) -> Result<(), AllocError> {
    let triple = [i64::from(color.r), i64::from(color.g), i64::from(color.b)];
    push_triple(alloc, triple, text)
}

fn push_colors(alloc: Global, colors: &[Rgb], text: &mut String) -> Result<(), AllocError> {
    if colors.is_empty() {
        return push_word("none", text);
    }
    for color in colors {
        push_color(alloc, *color, text)?;
    }
    Ok(())
}

fn push_paths(alloc: Global, paths: &[Path], text: &mut String) -> Result<(), AllocError> {
    for path in paths {
        push_word(path.to_text(alloc)?.as_str(), text)?;
    }
    Ok(())
}
