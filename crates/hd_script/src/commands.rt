//! The commands, each by the words after its name.

ghost use Rattle.std.specs.Prelude.{◌≡◌, IfOk, IsTrue};
ghost use Rattle.hd_layer.specs.WellFormed.{is_below_root};
ghost use Rattle.hd_script.specs.Faults.{Gives};
ghost use Rattle.hd_script.specs.Fields as form;
ghost use Rattle.hd_script.specs.Commands.{field, ends, alone, layer, define, set, clear, remove, rename, dump, last_path, start, tiles, named_command, command_in};
ghost use Rattle.hd_script.specs.WellFormed.{is_size, is_camera, is_command};

use crate::command::Command;
use crate::fault::LineFault;
use crate::fields::{file_name, number, prim_path, prim_type, property, property_name, size};
use crate::words::Words;
use hd_layer::Edit;
use hd_path::{Path, Token};
use std::alloc::Global;

/// Reads a number.
fn next_number(words: &mut Words) -> Result<u32, LineFault>
    ensures { Gives (λ n. (n, words.new)) result (field form.number words.old) }
{
    match words.next() {
        Some(word) => number(word.text),
        None => Err(LineFault::Syntax),
    }
}

/// Reads the width or the height of a frame.
fn next_size(words: &mut Words) -> Result<u32, LineFault>
    ensures given { Gives (λ n. (n, words.new)) result (field form.size words.old) }
    ensures within { IfOk result (λ n. IsTrue (is_size n)) }
{
    match words.next() {
        Some(word) => size(word.text),
        None => Err(LineFault::Syntax),
    }
}

/// Reads the name of a file.
fn next_file_name(alloc: Global, words: &mut Words) -> Result<Token, LineFault>
    ensures { Gives (λ name. (name, words.new)) result (field form.file_name words.old) }
{
    match words.next() {
        Some(word) => file_name(alloc, word.text),
        None => Err(LineFault::Syntax),
    }
}

/// Reads the type of a prim.
fn next_type(alloc: Global, words: &mut Words) -> Result<Token, LineFault>
    ensures { Gives (λ kind. (kind, words.new)) result (field form.prim_type words.old) }
{
    match words.next() {
        Some(word) => prim_type(alloc, word.text),
        None => Err(LineFault::Syntax),
    }
}

/// Reads the path of a prim.
fn next_path(alloc: Global, words: &mut Words) -> Result<Path, LineFault>
    ensures given { Gives (λ path. (path, words.new)) result (field form.prim_path words.old) }
    ensures below_root { IfOk result (λ path. IsTrue (is_below_root path)) }
{
    match words.next() {
        Some(word) => prim_path(alloc, word.text),
        None => Err(LineFault::Syntax),
    }
}

/// Reads the name of a property.
fn next_property_name(alloc: Global, words: &mut Words) -> Result<Token, LineFault>
    ensures { Gives (λ name. (name, words.new)) result (field form.property_name words.old) }
{
    match words.next() {
        Some(word) => property_name(alloc, word.text),
        None => Err(LineFault::Syntax),
    }
}

/// Is no word left?
fn ends(words: &mut Words) -> Result<(), LineFault>
    ensures { Gives (λ _. words.new) result (ends words.old) }
{
    match words.next() {
        Some(_) => Err(LineFault::Syntax),
        None => Ok(()),
    }
}

/// Reads a command of one word.
#[tactic(auto, unfolding(crate::specs::Commands::alone))]
fn alone(command: Command, words: &mut Words) -> Result<Command, LineFault>
    ensures given { Gives (λ found. found) result (alone command words.old) }
    ensures same { IfOk result (λ found. found ≡ command) }
{
    ends(words)?;
    Ok(command)
}

/// `layer NUMBER`
#[tactic(auto, unfolding(crate::specs::Commands::layer))]
fn layer(words: &mut Words) -> Result<Command, LineFault>
    ensures given { Gives (λ command. command) result (layer words.old) }
    ensures well_formed { IfOk result (λ command. IsTrue (is_command command)) }
{
    let number = next_number(words)?;
    ends(words)?;
    Ok(Command::Layer(number))
}

/// `def TYPE PATH`
#[tactic(auto, unfolding(crate::specs::Commands::define))]
fn define(alloc: Global, words: &mut Words) -> Result<Command, LineFault>
    ensures given { Gives (λ command. command) result (define words.old) }
    ensures well_formed { IfOk result (λ command. IsTrue (is_command command)) }
{
    let kind = next_type(alloc, words)?;
    let path = next_path(alloc, words)?;
    ends(words)?;
    Ok(Command::Edit(Edit::Define { kind, path }))
}

/// `set PATH PROPERTY`
#[tactic(auto, unfolding(crate::specs::Commands::set))]
fn set(alloc: Global, words: &mut Words) -> Result<Command, LineFault>
    ensures given { Gives (λ command. command) result (set words.old) }
    ensures well_formed { IfOk result (λ command. IsTrue (is_command command)) }
{
    match words.next() {
        Some(word) => {
            let path = prim_path(alloc, word.text)?;
            let property = property(alloc, word.after)?;
            Ok(Command::Edit(Edit::Set { path, property }))
        }
        None => Err(LineFault::Syntax),
    }
}

/// `clear PATH NAME`
#[tactic(auto, unfolding(crate::specs::Commands::clear))]
fn clear(alloc: Global, words: &mut Words) -> Result<Command, LineFault>
    ensures given { Gives (λ command. command) result (clear words.old) }
    ensures well_formed { IfOk result (λ command. IsTrue (is_command command)) }
{
    let path = next_path(alloc, words)?;
    let name = next_property_name(alloc, words)?;
    ends(words)?;
    Ok(Command::Edit(Edit::Clear { path, name }))
}

/// `remove PATH`
#[tactic(auto, unfolding(crate::specs::Commands::remove))]
fn remove(alloc: Global, words: &mut Words) -> Result<Command, LineFault>
    ensures given { Gives (λ command. command) result (remove words.old) }
    ensures well_formed { IfOk result (λ command. IsTrue (is_command command)) }
{
    let path = next_path(alloc, words)?;
    ends(words)?;
    Ok(Command::Edit(Edit::Remove { path }))
}

/// `rename PATH PATH`
#[tactic(auto, unfolding(crate::specs::Commands::rename))]
fn rename(alloc: Global, words: &mut Words) -> Result<Command, LineFault>
    ensures given { Gives (λ command. command) result (rename words.old) }
    ensures well_formed { IfOk result (λ command. IsTrue (is_command command)) }
{
    let from = next_path(alloc, words)?;
    let to = next_path(alloc, words)?;
    ends(words)?;
    Ok(Command::Edit(Edit::Rename { from, to }))
}

/// `dump NAME`
#[tactic(auto, unfolding(crate::specs::Commands::dump))]
fn dump(alloc: Global, words: &mut Words) -> Result<Command, LineFault>
    ensures given { Gives (λ command. command) result (dump words.old) }
    ensures well_formed { IfOk result (λ command. IsTrue (is_command command)) }
{
    let name = next_file_name(alloc, words)?;
    ends(words)?;
    Ok(Command::Dump(name))
}

/// `[PATH]` at the end of a line
#[tactic(auto, unfolding(crate::specs::Commands::last_path))]
fn last_path(alloc: Global, words: &mut Words) -> Result<Option<Path>, LineFault>
    ensures given { Gives (λ path. path) result (last_path words.old) }
    ensures below_root { IfOk result (λ path. IsTrue (is_camera path)) }
{
    match words.next() {
        Some(word) => {
            let path = prim_path(alloc, word.text)?;
            ends(words)?;
            Ok(Some(path))
        }
        None => Ok(None),
    }
}

/// `start NAME WIDTH HEIGHT [PATH]`
#[tactic(auto, unfolding(crate::specs::Commands::start))]
fn start(alloc: Global, words: &mut Words) -> Result<Command, LineFault>
    ensures given { Gives (λ command. command) result (start words.old) }
    ensures well_formed { IfOk result (λ command. IsTrue (is_command command)) }
{
    let name = next_file_name(alloc, words)?;
    let width = next_size(words)?;
    let height = next_size(words)?;
    let camera = last_path(alloc, words)?;
    Ok(Command::Start {
        name,
        width,
        height,
        camera,
    })
}

/// `tiles NUMBER`
#[tactic(auto, unfolding(crate::specs::Commands::tiles))]
fn tiles(words: &mut Words) -> Result<Command, LineFault>
    ensures given { Gives (λ command. command) result (tiles words.old) }
    ensures well_formed { IfOk result (λ command. IsTrue (is_command command)) }
{
    let count = next_number(words)?;
    ends(words)?;
    Ok(Command::Tiles(count))
}

/// The command that the first word names, with the words after it.
#[tactic(auto, unfolding(crate::specs::Commands::named_command))]
fn named_command(alloc: Global, name: &str, words: &mut Words) -> Result<Command, LineFault>
    ensures given { Gives (λ command. command) result (named_command name.now words.old) }
    ensures well_formed { IfOk result (λ command. IsTrue (is_command command)) }
{
    if name == "layer" {
        layer(words)
    } else if name == "def" {
        define(alloc, words)
    } else if name == "set" {
        set(alloc, words)
    } else if name == "clear" {
        clear(alloc, words)
    } else if name == "remove" {
        remove(alloc, words)
    } else if name == "rename" {
        rename(alloc, words)
    } else if name == "commit" {
        alone(Command::Commit, words)
    } else if name == "dump" {
        dump(alloc, words)
    } else if name == "report" {
        alone(Command::Report, words)
    } else if name == "start" {
        start(alloc, words)
    } else if name == "tiles" {
        tiles(words)
    } else if name == "pause" {
        alone(Command::Pause, words)
    } else if name == "resume" {
        alone(Command::Resume, words)
    } else if name == "stop" {
        alone(Command::Stop, words)
    } else if name == "wait" {
        alone(Command::Wait, words)
    } else {
        Err(LineFault::Syntax)
    }
}

/// The command of a line with a word.
#[tactic(auto, unfolding(crate::specs::Commands::command_in))]
pub fn command_in(alloc: Global, words: &mut Words) -> Result<Command, LineFault>
    ensures given { Gives (λ command. command) result (command_in words.old) }
    ensures well_formed { IfOk result (λ command. IsTrue (is_command command)) }
{
    match words.next() {
        Some(word) => named_command(alloc, word.text, words),
        None => Err(LineFault::Syntax),
    }
}
