//! The program's call over forms in memory.

ghost use Rattle.std.specs.Prelude.{◌≡◌, ◌≢◌, false, All, AllPairs, string_bytes, IfOk};

use crate::case::{Case, bytes_of, plan_of};
use crate::report::{push_files, push_lines};
use hd_app::top_plain;
use hd_io::{MemoryFile, MemoryRack, MemoryShelf, MemorySink};
use std::alloc::{AllocError, Global};
use std::{fs, io};

fn words_of(alloc: Global, words: &str) -> Result<Vec<String>, AllocError> {
    let mut all = Vec::new(alloc);
    for word in words.split_whitespace() {
        all.push(String::from_str(alloc, word)?)?;
    }
    Ok(all)
}

fn is_among(files: &[MemoryFile], name: &str) -> bool
    ensures { result ≡ false → All (λ file. string_bytes file.name ≢ name.now) files.now }
{
    files.iter().any(|file| file.name.as_str() == name)
}

/// Adds a file, but where there is one of its name.
fn put(
    alloc: Global,
    files: &mut Vec<MemoryFile>,
    name: &str,
    bytes: Vec<u8>,
) -> Result<(), AllocError>
    requires { AllPairs (λ one other. string_bytes one.name ≢ string_bytes other.name) files.old.items }
    ensures { AllPairs (λ one other. string_bytes one.name ≢ string_bytes other.name) files.new.items }
{
    if is_among(files, name) {
        return Ok(());
    }
    let name = String::from_str(alloc, name)?;
    files.push(MemoryFile { name, bytes })?;
    Ok(())
}

/// Adds the file of the folder that has this name, if there is one.
fn put_named(rt: HostRuntime, files: &mut Vec<MemoryFile>, name: &str) -> Result<(), AllocError>
    requires { AllPairs (λ one other. string_bytes one.name ≢ string_bytes other.name) files.old.items }
    ensures { AllPairs (λ one other. string_bytes one.name ≢ string_bytes other.name) files.new.items }
{
    match fs::read(&rt, name) {
        Ok(bytes) => put(rt.alloc(), files, name, bytes),
        Err(_) => Ok(()),
    }
}

/// The files of the folder that the words name, and the text of the case under the name `-`.
fn files_of(rt: HostRuntime, words: &[String], text: &str) -> Result<Vec<MemoryFile>, AllocError>
    ensures { IfOk result (λ files. AllPairs (λ one other. string_bytes one.name ≢ string_bytes other.name) files.items) }
{
    let alloc = rt.alloc();
    let mut files = Vec::new(alloc);
    put(alloc, &mut files, "-", bytes_of(alloc, text)?)?;
    for word in words {
        put_named(rt, &mut files, word.as_str())?;
    }
    Ok(files)
}

/// Does what a case says, and tells what was written and how it ended.
pub fn answer(rt: HostRuntime, case: &Case) -> Result<String, AllocError> {
    let alloc = rt.alloc();
    let words = words_of(alloc, case.words)?;
    let shelf = plan_of(alloc, case.plan, "shelf")?;
    let rack = plan_of(alloc, case.plan, "rack")?;
    let sink = plan_of(alloc, case.plan, "sink")?;
    let files = files_of(rt, &words, case.text)?;
    let mut shelf = MemoryShelf::new(alloc, files, shelf.failing, shelf.piece.max(1));
    let mut rack = MemoryRack::new(alloc, rack.failing, rack.piece.max(1));
    let mut sink = MemorySink::new(alloc, sink.failing, sink.piece.max(1));
    let status = top_plain(alloc, &words, &mut shelf, &mut rack, &mut sink);
    let mut text = String::new(alloc);
    push_lines(&mut text, sink.bytes())?;
    push_files(alloc, &mut text, &rack)?;
    text.push_str(&format!(in alloc; "  status {}\n", status.number())?)?;
    Ok(text)
}
