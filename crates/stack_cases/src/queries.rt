//! What a stack is asked.

use crate::text::{push_prim, push_values};
use hd_path::{Path, Token};
use hd_scene::SceneIndex;
use hd_stack::Stack;
use hd_value::List;
use std::alloc::{AllocError, Global};

/// More prims than eight layers have.
const MANY_PRIMS: u32 = 8 * 65_536 + 1;

/// The answer to a query, or `None` where the words are not one.
pub fn answer(
    stack: &mut Stack,
    alloc: Global,
    words: &[String],
) -> Result<Option<String>, AllocError> {
    let Some((word, rest)) = words.split_first() else {
        return Ok(None);
    };
    if word.as_str() == "scene" {
        return Ok(Some(scene(stack, alloc, rest)?));
    }
    if word.as_str() == "paths" && rest.len() == 2 {
        return Ok(Some(paths(stack, alloc, rest[0].as_str(), rest[1].as_str())?));
    }
    let Some((path, rest)) = rest.split_first() else {
        return Ok(None);
    };
    match Path::parse(alloc, path.as_str()) {
        Ok(path) => answer_at(stack, alloc, word.as_str(), &path, rest),
        Err(_) => Ok(None),
    }
}

/// The answer to a query of one path.
fn answer_at(
    stack: &mut Stack,
    alloc: Global,
    word: &str,
    path: &Path,
    rest: &[String],
) -> Result<Option<String>, AllocError> {
    let mut text = String::new(alloc);
    if word == "show" {
        show(stack, alloc, path, rest, &mut text)?;
    } else if word == "kind" {
        push_kind(stack, path, &mut text)?;
    } else if word == "children" {
        push_children(stack, alloc, path, &mut text)?;
    } else {
        return Ok(None);
    }
    Ok(Some(text))
}

/// Adds a prim with its values at these locators.
fn push_at(
    stack: &mut Stack,
    alloc: Global,
    path: &Path,
    locators: &[String],
    text: &mut String,
) -> Result<(), AllocError> {
    stack.is_in_step();
    let prim = stack.prim(alloc, path)?;
    push_prim(alloc, path, &prim, locators, text)
}

/// Adds a prim with its values at these locators, or with all of them.
fn show(
    stack: &mut Stack,
    alloc: Global,
    path: &Path,
    locators: &[String],
    text: &mut String,
) -> Result<(), AllocError> {
    push_at(stack, alloc, path, locators, text)?;
    if locators.is_empty() {
        stack.is_in_step();
        push_values(alloc, &stack.prim(alloc, path)?, text)?;
    }
    Ok(())
}

fn push_kind(stack: &Stack, path: &Path, text: &mut String) -> Result<(), AllocError> {
    text.push_str("  ")?;
    match stack.kind(path)? {
        Some(kind) if kind.text().is_empty() => text.push_str("no type")?,
        Some(kind) => text.push_str(kind.text())?,
        None => text.push_str("no prim")?,
    }
    text.push_str("\n")
}

fn names_below(stack: &mut Stack, alloc: Global, path: &Path) -> Result<List<Token>, AllocError> {
    stack.is_in_step();
    stack.children(alloc, path)
}

fn push_children(
    stack: &mut Stack,
    alloc: Global,
    path: &Path,
    text: &mut String,
) -> Result<(), AllocError> {
    let names = names_below(stack, alloc, path)?;
    text.push_str(if names.is_empty() { "  none" } else { " " })?;
    for name in names.items() {
        text.push_str(" ")?;
        text.push_str(name.text())?;
    }
    text.push_str("\n")
}

/// Puts the paths below this one on the stack of those that are still to be shown, the last name first.
fn push_paths_below(
    stack: &mut Stack,
    alloc: Global,
    path: &Path,
    waiting: &mut Vec<Path>,
) -> Result<(), AllocError> {
    for name in names_below(stack, alloc, path)?.items().iter().rev() {
        match path.child(alloc, name.text()) {
            Ok(child) => waiting.push(child)?,
            Err(_) => return Err(AllocError),
        }
    }
    Ok(())
}

/// Each prim with its values at these locators, a parent before its children.
fn scene(stack: &mut Stack, alloc: Global, locators: &[String]) -> Result<String, AllocError> {
    let mut text = String::new(alloc);
    let mut waiting = Vec::new(alloc);
    push_paths_below(stack, alloc, &Path::root(), &mut waiting)?;
    for _ in 0..MANY_PRIMS {
        match waiting.pop() {
            Some(path) => {
                push_at(stack, alloc, &path, locators, &mut text)?;
                push_paths_below(stack, alloc, &path, &mut waiting)?;
            }
            None => return Ok(text),
        }
    }
    Ok(text)
}

/// The paths at and below a path that a layer has.
fn paths_from(
    stack: &Stack,
    alloc: Global,
    layer: &str,
    path: &str,
) -> Result<Vec<Path>, AllocError> {
    let layer: usize = layer.parse().unwrap_or(8);
    if layer >= stack.layers() {
        return Ok(Vec::new(alloc));
    }
    match Path::parse(alloc, path) {
        Ok(path) => stack.paths_from(alloc, layer, &path),
        Err(_) => Ok(Vec::new(alloc)),
    }
}

fn paths(stack: &Stack, alloc: Global, layer: &str, path: &str) -> Result<String, AllocError> {
    let found = paths_from(stack, alloc, layer, path)?;
    let mut text = String::from_str(alloc, if found.is_empty() { "  none" } else { " " })?;
    for path in &found {
        text.push_str(" ")?;
        text.push_str(path.as_text())?;
    }
    text.push_str("\n")?;
    Ok(text)
}
