//! The program `hydra`.
#![tactic(auto)]

ghost use Rattle.std.specs.Prelude.{◌≡◌, ◌≢◌, [], drop, map, string_bytes, IfOk, IfErr, IsOk, IsErr};
ghost use Rattle.std.specs.IoError.{error_kind};
ghost use Rattle.std.specs.Process.{exit_status};
ghost use Rattle.std.specs.Vec.Iter.{into_iter_items};
ghost use Rattle.hd_app.specs.Commands.{command};
ghost use Rattle.hd_app.specs.FaultLines.{number_of};
ghost use Rattle.hd_app.specs.Runs.{IsAnswerTo};
ghost use Rattle.hd_io.specs.Shelf.{ShelfState};

use hd_app::{Status, top_plain};
use hd_io::{FileRack, FileShelf, OutSink};
use std::alloc::{AllocError, Global};
use std::env::Args;
use std::io::ErrorKind;
use std::process::ExitCode;
use std::{env, io};

/// The words after the program's name.
fn after_name(alloc: Global, args: Args) -> Result<Vec<String>, AllocError>
    ensures { IfOk result (λ words. words.items ≡ drop 1 (into_iter_items args)) }
{
    let mut args = args;
    let _ = args.next();
    let mut words = Vec::new(alloc);
    for word in args {
        words.push(word)?;
    }
    Ok(words)
}

/// The words of the command line. Words that are no text make no command, and so does no word.
fn words_of(alloc: Global, args: io::Result<Args>) -> Result<Vec<String>, AllocError>
    ensures given { IfOk args (λ all. IfOk result (λ words. words.items ≡ drop 1 (into_iter_items all))) }
    ensures none { IfErr args (λ _. IfOk result (λ words. words.items ≡ [])) }
    ensures no_text { IfErr args (λ error. error_kind error ≢ ErrorKind.OutOfMemory → IsOk result) }
    ensures no_memory { IfErr args (λ error. error_kind error ≡ ErrorKind.OutOfMemory → IsErr result) }
{
    match args {
        Ok(args) => after_name(alloc, args),
        Err(error) if error.kind() == ErrorKind::OutOfMemory => Err(AllocError),
        Err(_) => Ok(Vec::new(alloc)),
    }
}

/// Does what the words say over the system's files and its standard output. The answer is one to the command that the
/// words spell.
fn run(rt: HostRuntime, words: &[String]) -> Status
    ensures answer { (shelf : ShelfState) × IsAnswerTo (command (map string_bytes words.now)) shelf result }
{
    let mut shelf = FileShelf::new(rt, rt.alloc());
    let mut rack = FileRack::new(rt);
    let mut out = OutSink::new(io::writer(&rt));
    top_plain(rt.alloc(), words, &mut shelf, &mut rack, &mut out)
}

/// What the program ends with.
fn ended(status: &Status) -> ExitCode
    ensures { exit_status result ≡ number_of status.now }
{
    ExitCode::from(status.number())
}

fn main(rt: HostRuntime) -> ExitCode {
    match words_of(rt.alloc(), env::args(&rt)) {
        Ok(words) => ended(&run(rt, &words)),
        Err(_) => ended(&Status::NoMemory),
    }
}
