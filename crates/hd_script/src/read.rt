//! The reader of lines.

ghost use Rattle.std.specs.Prelude.{◌≡◌, Ok, IfOk, IfErr, IfSome, IsTrue};
ghost use Rattle.hd_script.specs.Commands.{valid_text, reads_text, reads_line};
ghost use Rattle.hd_script.specs.Faults.{Fails, Gives};
ghost use Rattle.hd_script.specs.Lines.{without_return, is_comment, is_nothing};
ghost use Rattle.hd_script.specs.WellFormed.{is_command};

use crate::command::Command;
use crate::commands::command_in;
use crate::fault::LineFault;
use crate::words::{Words, without_gaps};
use std::alloc::Global;

/// The line without one carriage return at its end.
#[tactic(auto, unfolding(crate::specs::Lines::without_return))]
fn without_return(line: &[u8]) -> &[u8]
    ensures { result.now ≡ without_return line.now }
{
    if !line.is_empty() && line[line.len() - 1] == b'\r' {
        &line[..line.len() - 1]
    } else {
        line
    }
}

fn is_comment(text: &[u8]) -> bool
    ensures { result ≡ is_comment text.now }
{
    match text {
        [] => true,
        [b, ..] => *b == b'#',
    }
}

/// Has the line no word, or only words of a comment?
fn is_nothing(text: &[u8]) -> bool
    ensures { result ≡ is_nothing text.now }
{
    is_comment(without_gaps(text))
}

/// Is the text UTF-8?
#[tactic(auto, unfolding(crate::specs::Commands::valid_text))]
fn valid_text(text: &[u8]) -> Result<&str, LineFault>
    ensures { Gives (λ valid. valid.now) result (valid_text text.now) }
{
    match str::from_utf8(text) {
        Ok(valid) => Ok(valid),
        Err(_) => Err(LineFault::Syntax),
    }
}

/// The command of a line without its carriage return.
#[tactic(auto, unfolding(crate::specs::Commands::reads_text))]
fn read_text(alloc: Global, text: &[u8]) -> Result<Option<Command>, LineFault>
    ensures given { Gives (λ found. found) result (reads_text text.now) }
    ensures well_formed { IfOk result (λ found. IfSome found (λ command. IsTrue (is_command command))) }
{
    if is_nothing(text) {
        return Ok(None);
    }
    match valid_text(text) {
        Ok(valid) => Ok(Some(command_in(alloc, &mut Words::new(valid))?)),
        Err(fault) => Err(fault),
    }
}

/// The command that a line spells, without its line feed, and `None` for a blank line or a comment. One carriage
/// return at the end of the line is dropped here.
///
/// # Errors
///
/// The first fault of the line, or `NoMemory` where memory ran out.
#[tactic(auto, unfolding(crate::specs::Commands::reads_line))]
pub fn read_line(alloc: Global, line: &[u8]) -> Result<Option<Command>, LineFault>
    ensures command { IfOk result (λ command. reads_line line.now ≡ Ok command) }
    ensures well_formed { IfOk result (λ found. IfSome found (λ command. IsTrue (is_command command))) }
    ensures fault { IfErr result (λ fault. Fails fault (reads_line line.now)) }
{
    read_text(alloc, without_return(line))
}
