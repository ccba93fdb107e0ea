//! Files at the limits of their bytes, prims and triangles, which are too large to lie in a folder.

ghost use Rattle.std.specs.Prelude.{◌≡◌, ◌≢◌, false, All, AllPairs, string_bytes};

use hd_app::top_plain;
use hd_io::{MemoryFile, MemoryRack, MemoryShelf, MemorySink};
use std::alloc::{AllocError, Global};

/// More than any call moves here.
const AMPLE: usize = 1 << 24;

/// The bytes that a file may have.
const MOST_BYTES: usize = 1_048_576;

fn is_among(files: &[MemoryFile], name: &str) -> bool
    ensures { result ≡ false → All (λ file. string_bytes file.name ≢ name.now) files.now }
{
    files.iter().any(|file| file.name.as_str() == name)
}

/// Adds a file, but where there is one of its name.
fn put(
    alloc: Global,
    files: &mut Vec<MemoryFile>,
    name: &str,
    text: &[u8],
) -> Result<(), AllocError>
    requires { AllPairs (λ one other. string_bytes one.name ≢ string_bytes other.name) files.old.items }
    ensures { AllPairs (λ one other. string_bytes one.name ≢ string_bytes other.name) files.new.items }
{
    if is_among(files, name) {
        return Ok(());
    }
    let name = String::from_str(alloc, name)?;
    let bytes = Vec::from_slice(alloc, text)?;
    files.push(MemoryFile { name, bytes })?;
    Ok(())
}

/// The files of a run: a layer and a script.
fn shelf_of(alloc: Global, layer: &[u8], script: &[u8]) -> Result<MemoryShelf, AllocError> {
    let mut files = Vec::new(alloc);
    put(alloc, &mut files, "layer", layer)?;
    put(alloc, &mut files, "script", script)?;
    Ok(MemoryShelf::new(alloc, files, Vec::new(alloc), AMPLE))
}

/// The words that ask for the steps of the script over the layer.
const STEP: &[&str] = &["step", "layer", "script"];

/// The words that ask for the picture of the layer.
const DRAW: &[&str] = &["draw", "layer", "out.ppm"];

fn words_of(alloc: Global, words: &[&str]) -> Result<Vec<String>, AllocError> {
    let mut all = Vec::new(alloc);
    for word in words {
        all.push(String::from_str(alloc, word)?)?;
    }
    Ok(all)
}

/// Whether words over a layer and a script end with this status and write these lines.
fn ends(
    alloc: Global,
    words: &[&str],
    layer: &[u8],
    script: &[u8],
    status: u8,
    lines: &[u8],
) -> Result<bool, AllocError> {
    let words = words_of(alloc, words)?;
    let mut shelf = shelf_of(alloc, layer, script)?;
    let mut rack = MemoryRack::new(alloc, Vec::new(alloc), AMPLE);
    let mut out = MemorySink::new(alloc, Vec::new(alloc), AMPLE);
    let ending = top_plain(alloc, &words, &mut shelf, &mut rack, &mut out);
    Ok(ending.number() == status && out.bytes() == lines)
}

/// A text of so many bytes that is a layer without prims and a script without commands.
fn blank(alloc: Global, len: usize) -> Result<Vec<u8>, AllocError> {
    let mut text = Vec::from_slice(alloc, b"#usda 1.0".as_slice())?;
    text.resize(len, b' ')?;
    Ok(text)
}

/// Whether a layer and a script have 1,048,576 bytes at most.
fn byte_limit_holds(alloc: Global) -> Result<bool, AllocError> {
    let full = blank(alloc, MOST_BYTES)?;
    let past = blank(alloc, MOST_BYTES + 1)?;
    let layer = b"fault limit bytes 1048576 at layer\n".as_slice();
    let script = b"fault limit bytes 1048576 at script\n".as_slice();
    Ok(
        ends(alloc, STEP, &full, &full, 0, b"".as_slice())?
            && ends(alloc, STEP, &full, &past, 4, script)?
            && ends(alloc, STEP, &past, &past, 4, layer)?,
    )
}

#[test]
fn each_file_may_have_1048576_bytes(rt: HostRuntime) {
    assert!(rt; byte_limit_holds(rt.alloc()) == Ok(true));
}

/// A layer of 65,535 prims, in the order of their names.
fn almost_full_layer(alloc: Global) -> Result<Vec<u8>, AllocError> {
    let mut text = Vec::from_slice(alloc, b"#usda 1.0\n".as_slice())?;
    for number in 0..65_535_u32 {
        let prim = format!(in alloc; "def\"p{number:05}\"{{}}")?;
        text.extend_from_slice(prim.as_bytes())?;
    }
    Ok(text)
}

/// Whether an edit adds the last prim that a layer may have, and a later one is refused.
fn edits_are_counted(alloc: Global) -> Result<bool, AllocError> {
    let layer = almost_full_layer(alloc)?;
    let script = b"def Mesh /a\n\ndef Mesh /p00000\ndef Mesh /b\n".as_slice();
    let lines = b"fault limit prims 65536 at script line 4\n".as_slice();
    ends(alloc, STEP, &layer, script, 4, lines)
}

#[test]
fn an_edit_leaves_at_most_65536_prims(rt: HostRuntime) {
    assert!(rt; edits_are_counted(rt.alloc()) == Ok(true));
}

/// Adds a mesh of one face, which has so many corners, each of them the one point.
fn push_face(
    alloc: Global,
    text: &mut Vec<u8>,
    name: &str,
    corners: u32,
) -> Result<(), AllocError> {
    let head = format!(in alloc;
        "def Mesh \"{name}\" {{ point3f[] points = [(0, 0, 0)] int[] faceVertexCounts = [{corners}]\n"
    )?;
    text.extend_from_slice(head.as_bytes())?;
    text.extend_from_slice(b"int[] faceVertexIndices = [")?;
    for _corner in 0..corners {
        text.extend_from_slice(b"0,")?;
    }
    text.extend_from_slice(b"] }\n")
}

/// A layer that draws 16 times 65,534 triangles, and two less than so many more.
fn triangles(alloc: Global, corners: u32) -> Result<Vec<u8>, AllocError> {
    let mut text = Vec::from_slice(alloc, b"#usda 1.0\n".as_slice())?;
    text.extend_from_slice(b"def PointInstancer \"I\" { rel prototypes = </P>\n")?;
    text.extend_from_slice(
        b"int[] protoIndices = [0,0,0,0,0,0,0,0,0,0,0,0,0,0,0,0] point3f[] positions = [",
    )?;
    for _place in 0..16_u32 {
        text.extend_from_slice(b"(0, 0, 0), ")?;
    }
    text.extend_from_slice(b"] }\n")?;
    push_face(alloc, &mut text, "P", 65_536)?;
    push_face(alloc, &mut text, "Q", corners)?;
    Ok(text)
}

/// Whether a picture draws 1,048,576 triangles at most.
fn triangle_limit_holds(alloc: Global) -> Result<bool, AllocError> {
    let full = triangles(alloc, 34)?;
    let past = triangles(alloc, 35)?;
    let frame = b"frame out.ppm converged 16 of 16\n".as_slice();
    let fault = b"fault limit triangles 1048576 at layer\n".as_slice();
    Ok(
        ends(alloc, DRAW, &full, b"".as_slice(), 0, frame)?
            && ends(alloc, DRAW, &past, b"".as_slice(), 4, fault)?,
    )
}

#[test]
fn a_picture_draws_at_most_1048576_triangles(rt: HostRuntime) {
    assert!(rt; triangle_limit_holds(rt.alloc()) == Ok(true));
}
