//! A script, line by line.

ghost use Rattle.std.specs.Prelude.{◌≡◌, ◌<◌, ◌≤◌, ◌⊎◌, [], ◌∷◌, false, length, All, OnOk, IfErr, IfSome, IsTrue, nat_eq, option_copied, vec_len};
ghost use Rattle.std.specs.List.{position};
ghost use Rattle.hd_script.specs.Commands.{reads_line};
ghost use Rattle.hd_script.specs.WellFormed.{is_command};
ghost use Rattle.hd_session.specs.Answers.{Does};
ghost use Rattle.hd_session.specs.Steps.{step, finish};
ghost use Rattle.hd_session.specs.States.{opening_state};
ghost use Rattle.hd_layer.specs.Limits.{limit_of};
ghost use Rattle.hd_layer.specs.WellFormed.{is_layer};
ghost use Rattle.hd_app.specs.declared.status.Place.TheVariants.{Line};
ghost use Rattle.hd_app.specs.inner.Stages.{Ends};
ghost use Rattle.hd_app.specs.inner.Lines.{RefusesLine, lines_left};
ghost use Rattle.hd_app.specs.Outcomes.{byte_limit};
ghost use Rattle.hd_app.specs.Scripts.{lines_of, line_refusal, command_refusal, line_step, step_of_line, end_of_script, outcome_of_lines};

use crate::layer::name_of;
use crate::status::{Place, Status};
use crate::writing::refuse;
use hd_io::{Rack, Sink};
use hd_layer::{LayerSpec, Which};
use hd_script::{Command, LineFault};
use hd_session::{Refusal, ScriptWhy, Session};
use hd_sync::Plain;
use std::alloc::Global;

/// The refusal of a line that passes a limit.
fn passed(alloc: Global, name: &str, number: u32, which: Which) -> Status
    ensures { (result ≡ Status.Limit (Line name.now number) which (limit_of which)) ⊎ (result ≡ Status.NoMemory) }
{
    match name_of(alloc, name) {
        Ok(file) => Status::Limit {
            place: Place::Line(file, number),
            which,
            count: which.number(),
        },
        Err(_) => Status::NoMemory,
    }
}

/// The refusal of a line that is no command.
fn line_refusal(alloc: Global, name: &str, number: u32, fault: LineFault) -> Status
    ensures { (result ≡ line_refusal name.now number fault) ⊎ (result ≡ Status.NoMemory) }
{
    let why = match fault {
        LineFault::Syntax => ScriptWhy::Syntax,
        LineFault::LeftOut => ScriptWhy::LeftOut,
        LineFault::Fraction => ScriptWhy::Fraction,
        LineFault::Limit(which) => return passed(alloc, name, number, which),
        LineFault::NoMemory => return Status::NoMemory,
    };
    Status::Script { line: number, why }
}

/// The refusal of a command.
fn command_refusal(alloc: Global, name: &str, number: u32, refusal: Refusal) -> Status
    ensures given { (result ≡ command_refusal name.now number refusal) ⊎ (result ≡ Status.NoMemory) }
    ensures write_fault { refusal ≡ Refusal.WriteFault → result ≡ Status.WriteFault }
{
    match refusal {
        Refusal::Script(why) => Status::Script { line: number, why },
        Refusal::Limit(which) => passed(alloc, name, number, which),
        Refusal::WriteFault => Status::WriteFault,
        Refusal::NoMemory => Status::NoMemory,
    }
}

/// Does the command of the line of this number.
fn run_command<K: Rack, O: Sink>(
    alloc: Global,
    session: &mut Session<Plain>,
    name: &str,
    number: u32,
    command: &Command,
    rack: &mut K,
    out: &mut O,
) -> Result<(), Status>
    requires unspent { session.old.is_spent ≡ false }
    requires formed { IsTrue (is_command command.now) }
    ensures done { OnOk result (Does (step_of_line name.now number (step session.old.state command.now [])) session.new.state
        (record { rack = K.state rack.old; sink = O.state out.old })
        (record { rack = K.state rack.new; sink = O.state out.new })) }
    ensures unspent { OnOk result (session.new.is_spent ≡ false) }
    ensures refusal { IfErr result (RefusesLine (step_of_line name.now number (step session.old.state command.now []))
        (record { rack = K.state rack.old; sink = O.state out.old })
        (record { rack = K.state rack.new; sink = O.state out.new })) }
{
    match session.command(alloc, command, rack, out) {
        Ok(()) => Ok(()),
        Err(refusal) => Err(command_refusal(alloc, name, number, refusal)),
    }
}

/// Does the line of this number.
fn run_line<K: Rack, O: Sink>(
    alloc: Global,
    session: &mut Session<Plain>,
    name: &str,
    number: u32,
    line: &[u8],
    rack: &mut K,
    out: &mut O,
) -> Result<(), Status>
    requires unspent { session.old.is_spent ≡ false }
    ensures done { OnOk result (Does (line_step name.now number session.old.state [] (reads_line line.now)) session.new.state
        (record { rack = K.state rack.old; sink = O.state out.old })
        (record { rack = K.state rack.new; sink = O.state out.new })) }
    ensures unspent { OnOk result (session.new.is_spent ≡ false) }
    ensures refusal { IfErr result (RefusesLine (line_step name.now number session.old.state [] (reads_line line.now))
        (record { rack = K.state rack.old; sink = O.state out.old })
        (record { rack = K.state rack.new; sink = O.state out.new })) }
{
    match hd_script::read_line(alloc, line) {
        Ok(None) => Ok(()),
        Ok(Some(command)) => run_command(alloc, session, name, number, &command, rack, out),
        Err(fault) => Err(line_refusal(alloc, name, number, fault)),
    }
}

/// The place of the first line feed of a text.
fn first_feed(text: &[u8]) -> Option<usize>
    ensures { result ≡ position (λ byte. nat_eq byte 10) text.now }
{
    text.iter().position(|byte| *byte == b'\n')
}

/// The first line of a text, and the text after its line feed, if it has one.
fn split_line(text: &[u8]) -> (&[u8], Option<&[u8]>)
    ensures lines { lines_of text.now ≡ result.0.now ∷ lines_left (option_copied result.1) }
    ensures shorter { IfSome (option_copied result.1) (λ after. length after < length text.now) }
{
    match first_feed(text) {
        Some(end) => (&text[..end], Some(&text[end + 1..])),
        None => (text, None),
    }
}

/// How a run ends in which the end of the script was not done. No line is left to be refused, so a write failed or memory
/// ran out.
fn unfinished(refusal: Refusal) -> Status
    ensures write_fault { refusal ≡ Refusal.WriteFault → result ≡ Status.WriteFault }
    ensures memory { refusal ≡ Refusal.NoMemory → result ≡ Status.NoMemory }
{
    match refusal {
        Refusal::WriteFault => Status::WriteFault,
        _ => Status::NoMemory,
    }
}

/// Ends a script that was read to its end.
fn end_script<K: Rack, O: Sink>(session: &mut Session<Plain>, rack: &mut K, out: &mut O) -> Status
    requires unspent { session.old.is_spent ≡ false }
    ensures ends { Ends (end_of_script (finish session.old.state []))
        (record { rack = K.state rack.old; sink = O.state out.old })
        (record { rack = K.state rack.new; sink = O.state out.new }) result }
{
    match session.finish(rack, out) {
        Ok(()) => Status::Done,
        Err(refusal) => unfinished(refusal),
    }
}

/// Does the lines of the script of this name, one after the other, and answers how that ended.
fn run_script<K: Rack, O: Sink>(
    alloc: Global,
    session: &mut Session<Plain>,
    name: &str,
    bytes: &[u8],
    rack: &mut K,
    out: &mut O,
) -> Status
    requires unspent { session.old.is_spent ≡ false }
    requires short { length bytes.now ≤ byte_limit }
    ensures ends { Ends (outcome_of_lines name.now 1 session.old.state [] (lines_of bytes.now))
        (record { rack = K.state rack.old; sink = O.state out.old })
        (record { rack = K.state rack.new; sink = O.state out.new }) result }
{
    let mut number = 1;
    let mut left = Some(bytes);
    'lines: while let Some(text) = left {
        let (line, after) = split_line(text);
        if let Err(refusal) = run_line(alloc, session, name, number, line, rack, out) {
            return refuse(alloc, refusal, out);
        }
        number += 1;
        left = after;
    }
    end_script(session, rack, out)
}

/// Runs the script of this name over layers, from one to eight, of which the first is the strongest.
pub fn run_over<K: Rack, O: Sink>(
    alloc: Global,
    layers: Vec<LayerSpec>,
    name: &str,
    bytes: &[u8],
    rack: &mut K,
    out: &mut O,
) -> Status
    requires some { 1 ≤ vec_len layers }
    requires few { vec_len layers ≤ 8 }
    requires formed { All (λ layer. IsTrue (is_layer layer)) layers.items }
    requires short { length bytes.now ≤ byte_limit }
    ensures ends { Ends (outcome_of_lines name.now 1 (opening_state layers.items) [] (lines_of bytes.now))
        (record { rack = K.state rack.old; sink = O.state out.old })
        (record { rack = K.state rack.new; sink = O.state out.new }) result }
{
    match Session::open(alloc, layers, Plain::new()) {
        Ok(mut session) => run_script(alloc, &mut session, name, bytes, rack, out),
        Err(_) => Status::NoMemory,
    }
}
