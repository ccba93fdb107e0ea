//! What is read of the values of a prim.

ghost use Rattle.std.specs.Prelude.{◌≡◌, ◌<◌, length, IfOk, option_copied, [], ◌∷◌};
ghost use Rattle.std.specs.FinMap.{get};
ghost use Rattle.hd_tokens.specs.Tables.{texts};
ghost use Rattle.hd_flattening.specs.Values.{token_of, paths_of, colors_of, is_set};
ghost use Rattle.hd_flattening.specs.Flat.{first_of};
ghost use Rattle.hd_rprim.specs.Readings.{values_of, white, vecs_of, ints_of, color_of, matrix_of, purpose_named, matrix_in, visible_in, purpose_in, binding_in, paths_in, points_in, counts_in, face_count_in, triangles_in, colors_in, material_color_in, instancers_in, positions_in, proto_indices_in, targets_in};

use crate::buffer::Tri;
use crate::fans::triangulate;
use crate::row::Purpose;
use hd_num::{List, Matrix, Rgb, Vec3};
use hd_path::{Path, Token};
use hd_scene::Prim;
use hd_tokens::locators;
use hd_value::{Source, Value};
use std::alloc::{AllocError, Global};

const WHITE: Rgb = Rgb {
    r: 255,
    g: 255,
    b: 255,
};

/// The value at the locator of these tokens.
fn value_at<'a>(prim: &'a Prim, tokens: &[&str]) -> Option<&'a Value>
    requires { 0 < length tokens.now }
    ensures { option_copied result ≡ get (values_of prim.now) (texts tokens.now) }
{
    match &prim.values {
        Some(values) => match values.get_at(tokens) {
            Some(Source::Leaf(value)) => Some(value),
            Some(Source::Inner(_)) => None,
            None => None,
        },
        None => None,
    }
}

/// The points of a value, and none of another value.
fn vecs_of(value: Option<&Value>) -> Result<List<Vec3>, AllocError>
    ensures { IfOk result (λ points. points ≡ vecs_of (option_copied value.entry)) }
{
    match value {
        Some(Value::Vecs(points)) => points.copy(),
        _ => Ok(List::empty()),
    }
}

fn ints_of(value: Option<&Value>) -> Result<List<i64>, AllocError>
    ensures { IfOk result (λ numbers. numbers ≡ ints_of (option_copied value.entry)) }
{
    match value {
        Some(Value::Ints(numbers)) => numbers.copy(),
        _ => Ok(List::empty()),
    }
}

fn colors_of(value: Option<&Value>) -> Result<List<Rgb>, AllocError>
    ensures { IfOk result (λ colors. colors ≡ colors_of (option_copied value.entry)) }
{
    match value {
        Some(Value::Colors(colors)) => colors.copy(),
        _ => Ok(List::empty()),
    }
}

fn color_of(value: Option<&Value>) -> Option<Rgb>
    ensures { result ≡ color_of (option_copied value.entry) }
{
    match value {
        Some(Value::Color(color)) => Some(*color),
        _ => None,
    }
}

fn matrix_of(value: Option<&Value>) -> Option<Matrix>
    ensures { result ≡ matrix_of (option_copied value.entry) }
{
    match value {
        Some(Value::Matrix(matrix)) => Some(*matrix),
        _ => None,
    }
}

/// Whether there is a flag that is set.
fn is_set(value: Option<&Value>) -> bool
    ensures { result ≡ is_set (option_copied value.entry) }
{
    match value {
        Some(Value::Flag(flag)) => *flag,
        _ => false,
    }
}

fn token_of<'a>(value: Option<&'a Value>) -> Option<&'a Token>
    ensures { option_copied result ≡ token_of (option_copied value.entry) }
{
    match value {
        Some(Value::Token(token)) => Some(token),
        _ => None,
    }
}

fn paths_of<'a>(value: Option<&'a Value>) -> Option<&'a List<Path>>
    ensures { option_copied result ≡ paths_of (option_copied value.entry) }
{
    match value {
        Some(Value::Paths(paths)) => Some(paths),
        _ => None,
    }
}

/// The purpose of a word. Another word, and no word, mean the default one.
fn purpose_named(word: Option<&Token>) -> Purpose
    ensures { result ≡ purpose_named (option_copied word.entry) }
{
    match word {
        Some(word) => {
            let word = word.text();
            if word == "render" {
                Purpose::Render
            } else if word == "proxy" {
                Purpose::Proxy
            } else if word == "guide" {
                Purpose::Guide
            } else {
                Purpose::Default
            }
        }
        None => Purpose::Default,
    }
}

/// The transform to the world, or `None` where it is out of range.
pub(crate) fn matrix_in(prim: &Prim) -> Option<Matrix>
    ensures { result ≡ matrix_in (values_of prim.now) }
{
    matrix_of(value_at(prim, locators::XFORM_MATRIX))
}

pub(crate) fn visible_in(prim: &Prim) -> bool
    ensures { result ≡ visible_in (values_of prim.now) }
{
    is_set(value_at(prim, locators::VISIBILITY))
}

pub(crate) fn purpose_in(prim: &Prim) -> Purpose
    ensures { result ≡ purpose_in (values_of prim.now) }
{
    purpose_named(token_of(value_at(prim, locators::PURPOSE)))
}

/// The first path of the binding.
pub(crate) fn binding_in(prim: &Prim) -> Result<Option<Path>, AllocError>
    ensures { IfOk result (λ path. path ≡ binding_in (values_of prim.now)) }
{
    match paths_of(value_at(prim, locators::BINDING)) {
        Some(paths) => first_copy(paths.items()),
        None => Ok(None),
    }
}

/// A copy of the first path.
fn first_copy(paths: &[Path]) -> Result<Option<Path>, AllocError>
    ensures { IfOk result (λ path. path ≡ first_of paths.now) }
{
    match paths.first() {
        Some(path) => Ok(Some(path.copy()?)),
        None => Ok(None),
    }
}

/// The paths at the locator of these tokens.
fn paths_in(prim: &Prim, tokens: &[&str]) -> Result<List<Path>, AllocError>
    requires { 0 < length tokens.now }
    ensures { IfOk result (λ paths. paths ≡ paths_in (values_of prim.now) (texts tokens.now)) }
{
    match paths_of(value_at(prim, tokens)) {
        Some(paths) => paths.copy(),
        None => Ok(List::empty()),
    }
}

pub(crate) fn points_in(prim: &Prim) -> Result<List<Vec3>, AllocError>
    ensures { IfOk result (λ points. points ≡ points_in (values_of prim.now)) }
{
    vecs_of(value_at(prim, locators::POINTS))
}

/// The number of corners of each face.
fn counts_in(prim: &Prim) -> Result<List<i64>, AllocError>
    ensures { IfOk result (λ counts. counts ≡ counts_in (values_of prim.now)) }
{
    ints_of(value_at(prim, locators::FACE_VERTEX_COUNTS))
}

pub(crate) fn face_count_in(prim: &Prim) -> Result<u64, AllocError>
    ensures { IfOk result (λ count. count ≡ face_count_in (values_of prim.now)) }
{
    let counts = counts_in(prim)?;
    Ok(counts.len() as u64)
}

pub(crate) fn triangles_in(alloc: Global, prim: &Prim) -> Result<List<Tri>, AllocError>
    ensures { IfOk result (λ triangles. triangles ≡ triangles_in (values_of prim.now)) }
{
    let counts = counts_in(prim)?;
    let indices = ints_of(value_at(prim, locators::FACE_VERTEX_INDICES))?;
    triangulate(alloc, &counts, &indices)
}

/// The colors, or one white where there are none.
pub(crate) fn colors_in(alloc: Global, prim: &Prim) -> Result<List<Rgb>, AllocError>
    ensures { IfOk result (λ colors. colors ≡ colors_in (values_of prim.now)) }
{
    let colors = colors_of(value_at(prim, locators::COLOR))?;
    if colors.is_empty() {
        return one_white(alloc);
    }
    Ok(colors)
}

fn one_white(alloc: Global) -> Result<List<Rgb>, AllocError>
    ensures { IfOk result (λ colors. colors ≡ white ∷ []) }
{
    let mut colors = Vec::with_capacity(alloc, 1)?;
    colors.push(WHITE)?;
    List::of(alloc, colors)
}

pub(crate) fn material_color_in(prim: &Prim) -> Option<Rgb>
    ensures { result ≡ material_color_in (values_of prim.now) }
{
    color_of(value_at(prim, locators::MATERIAL_COLOR8))
}

/// The paths of the prim's instancers.
pub(crate) fn instancers_in(prim: &Prim) -> Result<List<Path>, AllocError>
    ensures { IfOk result (λ paths. paths ≡ instancers_in (values_of prim.now)) }
{
    paths_in(prim, locators::INSTANCED_BY)
}

/// The place of each copy that an instancer makes.
pub(crate) fn positions_in(prim: &Prim) -> Result<List<Vec3>, AllocError>
    ensures { IfOk result (λ positions. positions ≡ positions_in (values_of prim.now)) }
{
    vecs_of(value_at(prim, locators::POSITIONS))
}

/// The number of the target of each copy.
pub(crate) fn proto_indices_in(prim: &Prim) -> Result<List<i64>, AllocError>
    ensures { IfOk result (λ numbers. numbers ≡ proto_indices_in (values_of prim.now)) }
{
    ints_of(value_at(prim, locators::PROTO_INDICES))
}

/// The paths of an instancer's prototypes.
pub(crate) fn targets_in(prim: &Prim) -> Result<List<Path>, AllocError>
    ensures { IfOk result (λ paths. paths ≡ targets_in (values_of prim.now)) }
{
    paths_in(prim, locators::PROTOTYPES)
}
