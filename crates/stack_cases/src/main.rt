//! Answers cases over stacks of layers. Each line of standard input is printed with what the stack answers to it.
//!
//! - `open FILE..` opens layers, of which the first is the strongest.
//! - `show PATH LOCATOR..` shows a prim's type and its values at these locators, or all of them where none is named.
//! - `scene LOCATOR..` does so for each prim, and shows the types alone where no locator is named.
//! - `kind PATH` shows the type alone, and `children PATH` the names below a prim.
//! - `paths LAYER PATH` shows the paths at and below this one that a layer has.
//! - Any other line is one of a script, which edits a layer.
#![tactic(auto)]

ghost use Rattle.std.specs.Prelude.{IsTrue};
ghost use Rattle.hd_script.specs.WellFormed.{is_command};

mod layers;
mod queries;
mod text;

use hd_retained::EditFault;
use hd_script::{Command, LineFault, read_line};
use hd_stack::Stack;
use hd_usda::Which;
use layers::stack_of;
use std::alloc::{AllocError, Global};
use std::io;

/// The stack that is open, and the number of the layer that edits change.
#[derive(Drop)]
struct Opened {
    stack: Stack,
    layer: usize,
}

fn words_of(alloc: Global, line: &str) -> Result<Vec<String>, AllocError> {
    let mut all = Vec::new(alloc);
    for word in line.split_whitespace() {
        all.push(String::from_str(alloc, word)?)?;
    }
    Ok(all)
}

/// Why an edit was refused, in the word of a fault line.
fn word_of(fault: EditFault) -> &'static str {
    match fault {
        EditFault::NoPrim => "no-prim",
        EditFault::PrimThere => "prim-there",
        EditFault::UnderItself => "under-itself",
        EditFault::Limit(which) => which.word(),
        EditFault::NoMemory => "no-memory",
    }
}

/// Does what a line of a script asks for.
fn done(opened: &mut Opened, alloc: Global, command: &Command) -> &'static str
    requires { IsTrue (is_command command.now) }
{
    match command {
        Command::Layer(number) => {
            if *number as usize >= opened.stack.layers() {
                return "no-layer";
            }
            opened.layer = *number as usize;
            "done"
        }
        Command::Edit(edit) => {
            if opened.layer >= opened.stack.layers() {
                return "no-layer";
            }
            match opened.stack.edit(alloc, opened.layer, edit) {
                Ok(()) => "done",
                Err(fault) => word_of(fault),
            }
        }
        _ => "not an edit",
    }
}

/// Reads and does a line of a script.
fn edit(opened: &mut Opened, alloc: Global, line: &str) -> &'static str {
    match read_line(alloc, line.as_bytes()) {
        Ok(Some(command)) => done(opened, alloc, &command),
        Ok(None) => "nothing",
        Err(LineFault::Limit(Which::Depth)) => "depth",
        Err(_) => "not a line",
    }
}

/// What the open stack answers to a line of these words.
fn asked(
    opened: &mut Opened,
    alloc: Global,
    line: &str,
    words: &[String],
) -> Result<String, AllocError> {
    match queries::answer(&mut opened.stack, alloc, words)? {
        Some(text) => Ok(text),
        None => format!(in alloc; "  {}\n", edit(opened, alloc, line)),
    }
}

/// The answer to a line, each of whose lines ends with a line feed.
fn answer(rt: HostRuntime, case: &mut Option<Opened>, line: &str) -> io::Result<String> {
    let alloc = rt.alloc();
    let words = words_of(alloc, line)?;
    if words.is_empty() || line.starts_with("#") {
        return Ok(String::new(alloc));
    }
    if words[0].as_str() == "open" {
        *case = match stack_of(rt, &words[1..])? {
            Some(stack) => Some(Opened { stack, layer: 0 }),
            None => None,
        };
        return Ok(String::from_str(alloc, if case.is_some() { "" } else { "  refused\n" })?);
    }
    match case {
        Some(opened) => Ok(asked(opened, alloc, line, &words)?),
        None => Ok(String::from_str(alloc, "  no layers\n")?),
    }
}

fn main(rt: HostRuntime) -> io::Result<()> {
    let mut case = None;
    for line in rt.lines(rt.alloc()) {
        let line = line?;
        let text = answer(rt, &mut case, &line)?;
        print!(rt; "{line}\n{text}")?;
    }
    Ok(())
}
