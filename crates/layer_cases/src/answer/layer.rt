//! A layer in lines: each prim with its type, and under it each used property with its value.

use hd_num::{Matrix, Vec3};
use hd_path::{Path, Token};
use hd_usda::{LayerSpec, PrimSpec, Property, RawValue};
use std::alloc::{AllocError, Global};

/// The most prims of a layer, or values of a list, that are printed one by one.
const MOST: usize = 20;

fn add_numbers(to: &mut String, numbers: &[i64]) -> Result<(), AllocError> {
    for number in numbers {
        write!(to, " {number}")?;
    }
    Ok(())
}

fn add_triples(to: &mut String, triples: &[Vec3]) -> Result<(), AllocError> {
    for triple in triples {
        write!(to, " ({}, {}, {})", triple.x, triple.y, triple.z)?;
    }
    Ok(())
}

fn add_words(to: &mut String, words: &[Token]) -> Result<(), AllocError> {
    for word in words {
        write!(to, " {}", word.text())?;
    }
    Ok(())
}

fn add_paths(to: &mut String, paths: &[Path]) -> Result<(), AllocError> {
    for path in paths {
        write!(to, " <{}>", path.as_text())?;
    }
    Ok(())
}

/// Adds the rows of a matrix without its last column, which is that of every matrix.
fn add_rows(to: &mut String, matrix: &Matrix) -> Result<(), AllocError> {
    for row in 0..4 {
        let (x, y) = (matrix.entry(row, 0), matrix.entry(row, 1));
        write!(to, " ({x}, {y}, {})", matrix.entry(row, 2))?;
    }
    Ok(())
}

fn len(value: &RawValue) -> usize {
    match value {
        RawValue::Numbers(numbers) => numbers.len(),
        RawValue::Triples(triples) => triples.len(),
        RawValue::Words(words) => words.len(),
        RawValue::Paths(paths) => paths.len(),
        RawValue::Matrix(_) => 1,
    }
}

fn add_value(to: &mut String, value: &RawValue) -> Result<(), AllocError> {
    if len(value) > MOST {
        return write!(to, " {} values", len(value));
    }
    match value {
        RawValue::Numbers(numbers) => add_numbers(to, numbers.items()),
        RawValue::Triples(triples) => add_triples(to, triples.items()),
        RawValue::Words(words) => add_words(to, words.items()),
        RawValue::Paths(paths) => add_paths(to, paths.items()),
        RawValue::Matrix(matrix) => add_rows(to, matrix),
    }
}

/// A property and its value in a line.
pub fn property_line(alloc: Global, property: &Property) -> Result<String, AllocError> {
    let mut line = format!(in alloc; "{}:", property.name.text())?;
    add_value(&mut line, &property.value)?;
    line.push_str("\n")?;
    Ok(line)
}

fn add_prim(to: &mut String, alloc: Global, prim: &PrimSpec) -> Result<(), AllocError> {
    let gap = if prim.kind.text().is_empty() { "" } else { " " };
    write!(to, "{}{gap}{}\n", prim.path.as_text(), prim.kind.text())?;
    for property in prim.properties.items() {
        write!(to, "    {}", property_line(alloc, property)?)?;
    }
    Ok(())
}

/// The prims of a layer.
pub fn lines(alloc: Global, layer: &LayerSpec) -> Result<String, AllocError> {
    let prims = layer.prims.items();
    if prims.is_empty() || prims.len() > MOST {
        return format!(in alloc; "{} prims\n", prims.len());
    }
    let mut all = String::new(alloc);
    for prim in prims {
        add_prim(&mut all, alloc, prim)?;
    }
    Ok(all)
}
