//! Reads the texts of the topics that standard input names, and prints what each spells: its prims with their used
//! properties, or its first fault.
//!
//! A topic is a file. Its first line says how its texts are read, and each text follows a line `== what it shows`.
#![tactic(auto)]

mod answer;
mod text;

use crate::answer::Form;
use crate::text::expanded;
use std::alloc::AllocError;
use std::{fs, io};

/// The name of a case, and what its text spells.
fn told(rt: HostRuntime, form: Form, case: &str) -> Result<String, AllocError> {
    let (name, text) = case.split_once('\n').unwrap_or((case, ""));
    let text = expanded(rt.alloc(), text)?;
    let answer = form.answer(rt.alloc(), text.as_slice())?;
    format!(in rt.alloc(); "== {name}\n{answer}")
}

fn run(rt: HostRuntime, topic: &str) -> io::Result<()> {
    let file = fs::read_to_string(&rt, topic)?;
    let (form, cases) = file.split_once("\n== ").unwrap_or((file.as_str(), ""));
    println!(rt; "# {topic}")?;
    for case in cases.strip_suffix('\n').unwrap_or(cases).split("\n== ") {
        print!(rt; "{}", told(rt, Form::named(form), case)?)?;
    }
    Ok(())
}

fn main(rt: HostRuntime) -> io::Result<()> {
    for topic in rt.lines(rt.alloc()) {
        run(rt, topic?.as_str())?;
    }
    Ok(())
}
