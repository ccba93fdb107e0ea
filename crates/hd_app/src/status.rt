//! How a run of the program ends.

ghost use Rattle.std.specs.Prelude.{◌≡◌, ◌++◌, IfOk, OnOk, codes, decimal};
ghost use Rattle.hd_layer.specs.Limits.{word_of};
ghost use Rattle.hd_app.specs.declared.status.Status.TheVariants.{NoMemory};
ghost use Rattle.hd_app.specs.FaultLines.{number_of, why_word, script_word, place_text, fault_line};

use hd_layer::{LayerWhy, Which};
use hd_num::List;
use hd_session::ScriptWhy;
use std::alloc::{AllocError, AllocFailed, Global};

/// Where a limit was passed.
#[derive(Drop)]
pub enum Place {
    /// The words of the command line.
    Words,
    /// The file of this name.
    File(List<u8>),
    /// The line of this number, counted from 1, in the file of this name.
    Line(List<u8>, u32),
}

/// How a run ends.
#[derive(Drop)]
pub enum Status {
    /// All was read, drawn and written.
    Done,
    /// The words are no command.
    Usage,
    /// The text of this file has this fault in this line, counted from 1.
    Layer {
        file: List<u8>,
        line: u32,
        why: LayerWhy,
    },
    /// This line of the script, counted from 1, is refused.
    Script {
        line: u32,
        why: ScriptWhy,
    },
    /// A quantity passes its limit, which is this number.
    Limit {
        place: Place,
        which: Which,
        count: u64,
    },
    /// The file of this name could not be read.
    ReadFault {
        name: List<u8>,
    },
    /// A file or a line could not be written. Nothing more was written.
    WriteFault,
    /// Memory ran out. Nothing more was written.
    NoMemory,
}

impl Place {
    /// A place that shares the name of this one.
    pub fn copy(&self) -> Result<Place, AllocError>
        ensures { IfOk result (λ copied. copied ≡ self.now) }
    {
        Ok(match self {
            Place::Words => Place::Words,
            Place::File(name) => Place::File(name.copy()?),
            Place::Line(name, line) => Place::Line(name.copy()?, *line),
        })
    }
}

impl<T: Drop> From<AllocFailed<T>> for Status {
    ghost from_gives = { λ _ status. status ≡ NoMemory };

    fn from(_refused: AllocFailed<T>) -> Status {
        Status::NoMemory
    }
}

impl Status {
    /// What the program ends with.
    pub fn number(&self) -> u8
        ensures { result ≡ number_of self.now }
    {
        match self {
            Status::Done => 0,
            Status::Usage => 1,
            Status::Layer { .. } => 2,
            Status::Script { .. } => 3,
            Status::Limit { .. } => 4,
            Status::ReadFault { .. } => 5,
            Status::WriteFault => 6,
            Status::NoMemory => 7,
        }
    }

    /// An ending that shares the names of this one.
    pub fn copy(&self) -> Result<Status, AllocError>
        ensures { IfOk result (λ copied. copied ≡ self.now) }
    {
        Ok(match self {
            Status::Done => Status::Done,
            Status::Usage => Status::Usage,
            Status::Layer { file, line, why } => Status::Layer {
                file: file.copy()?,
                line: *line,
                why: *why,
            },
            Status::Script { line, why } => Status::Script {
                line: *line,
                why: *why,
            },
            Status::Limit {
                place,
                which,
                count,
            } => Status::Limit {
                place: place.copy()?,
                which: *which,
                count: *count,
            },
            Status::ReadFault { name } => Status::ReadFault { name: name.copy()? },
            Status::WriteFault => Status::WriteFault,
            Status::NoMemory => Status::NoMemory,
        })
    }

    /// The line that tells a refusal, with its line feed. The other endings have none.
    pub(crate) fn fault_line(&self, alloc: Global) -> Result<Vec<u8>, AllocError>
        ensures { IfOk result (λ line. line.items ≡ fault_line self.now) }
    {
        let mut text = Vec::new(alloc);
        match self {
            Status::Usage => text.extend_from_slice(b"fault usage\n")?,
            Status::Layer { file, line, why } => {
                push_layer(alloc, &mut text, file.items(), *line, *why)?;
            }
            Status::Script { line, why } => push_script(alloc, &mut text, *line, *why)?,
            Status::Limit {
                place,
                which,
                count,
            } => push_limit(alloc, &mut text, place, *which, *count)?,
            Status::ReadFault { name } => push_read(&mut text, name.items())?,
            Status::Done | Status::WriteFault | Status::NoMemory => {}
        }
        Ok(text)
    }
}

/// The word for what is wrong with a layer. A limit has a line of its own.
fn why_word(why: LayerWhy) -> &'static str
    ensures { result.now ≡ why_word why }
{
    match why {
        LayerWhy::Header => "header",
        LayerWhy::Syntax => "syntax",
        LayerWhy::NotUtf8 => "not-utf8",
        LayerWhy::Twice => "twice",
        LayerWhy::LeftOut => "left-out",
        LayerWhy::Fraction => "fraction",
        LayerWhy::Limit(which) => which.word(),
    }
}

/// Adds the line of a layer's fault.
fn push_layer(
    alloc: Global,
    text: &mut Vec<u8>,
    file: &[u8],
    line: u32,
    why: LayerWhy,
) -> Result<(), AllocError>
    ensures { OnOk result (text.new.items ≡ text.old.items
        ++ (codes "fault layer " ++ file.now ++ codes " line " ++ decimal line ++ codes " " ++ why_word why ++ codes "\n")) }
{
    text.extend_from_slice(b"fault layer ")?;
    text.extend_from_slice(file)?;
    text.extend_from_slice(b" line ")?;
    text.extend_from_slice(line.to_string(alloc)?.as_bytes())?;
    text.extend_from_slice(b" ")?;
    text.extend_from_slice(why_word(why).as_bytes())?;
    text.extend_from_slice(b"\n")?;
    Ok(())
}

/// The word for what is wrong with a line of a script.
fn script_word(why: ScriptWhy) -> &'static str
    ensures { result.now ≡ script_word why }
{
    match why {
        ScriptWhy::Syntax => "syntax",
        ScriptWhy::NoPrim => "no-prim",
        ScriptWhy::PrimThere => "prim-there",
        ScriptWhy::UnderItself => "under-itself",
        ScriptWhy::NoLayer => "no-layer",
        ScriptWhy::NoCamera => "no-camera",
        ScriptWhy::LeftOut => "left-out",
        ScriptWhy::Fraction => "fraction",
        ScriptWhy::Later => "later",
    }
}

/// Adds the line of a script's fault.
fn push_script(
    alloc: Global,
    text: &mut Vec<u8>,
    line: u32,
    why: ScriptWhy,
) -> Result<(), AllocError>
    ensures { OnOk result (text.new.items ≡ text.old.items
        ++ (codes "fault script line " ++ decimal line ++ codes " " ++ script_word why ++ codes "\n")) }
{
    text.extend_from_slice(b"fault script line ")?;
    text.extend_from_slice(line.to_string(alloc)?.as_bytes())?;
    text.extend_from_slice(b" ")?;
    text.extend_from_slice(script_word(why).as_bytes())?;
    text.extend_from_slice(b"\n")?;
    Ok(())
}

/// Adds the text of a place where a limit was passed.
fn push_place(alloc: Global, text: &mut Vec<u8>, place: &Place) -> Result<(), AllocError>
    ensures { OnOk result (text.new.items ≡ text.old.items ++ place_text place.now) }
{
    match place {
        Place::Words => text.extend_from_slice(b"words")?,
        Place::File(name) => text.extend_from_slice(name.items())?,
        Place::Line(name, line) => {
            text.extend_from_slice(name.items())?;
            text.extend_from_slice(b" line ")?;
            text.extend_from_slice(line.to_string(alloc)?.as_bytes())?;
        }
    }
    Ok(())
}

/// Adds the line of a limit that was passed.
fn push_limit(
    alloc: Global,
    text: &mut Vec<u8>,
    place: &Place,
    which: Which,
    count: u64,
) -> Result<(), AllocError>
    ensures { OnOk result (text.new.items ≡ text.old.items
        ++ (codes "fault limit " ++ word_of which ++ codes " " ++ decimal count ++ codes " at " ++ place_text place.now ++ codes "\n")) }
{
    text.extend_from_slice(b"fault limit ")?;
    text.extend_from_slice(which.word().as_bytes())?;
    text.extend_from_slice(b" ")?;
    text.extend_from_slice(count.to_string(alloc)?.as_bytes())?;
    text.extend_from_slice(b" at ")?;
    push_place(alloc, text, place)?;
    text.extend_from_slice(b"\n")?;
    Ok(())
}

/// Adds the line of a file that could not be read.
fn push_read(text: &mut Vec<u8>, name: &[u8]) -> Result<(), AllocError>
    ensures { OnOk result (text.new.items ≡ text.old.items ++ (codes "fault read " ++ name.now ++ codes "\n")) }
{
    text.extend_from_slice(b"fault read ")?;
    text.extend_from_slice(name)?;
    text.extend_from_slice(b"\n")?;
    Ok(())
}
