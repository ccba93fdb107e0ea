//! What the text of a case spells, in lines.

mod layer;
mod types;

use hd_usda::{LayerFault, LayerWhy, read_layer, read_property};
use std::alloc::{AllocError, Global};

/// How a text is read.
#[derive(Clone, Copy)]
pub enum Form {
    /// As a layer.
    Layer,
    /// As what a prim `P` holds. Its first line is that of the header.
    Items,
    /// As one property.
    Property,
    /// As a layer, once for each length to which it can be cut.
    Cuts,
    /// As the name of an attribute, with one type after the other.
    Types,
}

/// The words of a fault.
fn cause(alloc: Global, why: LayerWhy) -> Result<String, AllocError> {
    let word = match why {
        LayerWhy::Header => "header",
        LayerWhy::Syntax => "syntax",
        LayerWhy::NotUtf8 => "not-utf8",
        LayerWhy::Twice => "twice",
        LayerWhy::LeftOut => "left-out",
        LayerWhy::Fraction => "fraction",
        LayerWhy::Limit(which) => return format!(in alloc; "limit {}", which.word()),
    };
    String::from_str(alloc, word)
}

fn fault_line(alloc: Global, fault: LayerFault) -> Result<String, AllocError> {
    match fault {
        LayerFault::At { line, why } => {
            format!(in alloc; "line {line} {}\n", cause(alloc, why)?)
        }
        LayerFault::NoMemory => String::from_str(alloc, "out of memory\n"),
    }
}

fn layer_answer(alloc: Global, text: &[u8]) -> Result<String, AllocError> {
    match read_layer(alloc, text) {
        Ok(spec) => layer::lines(alloc, &spec),
        Err(fault) => fault_line(alloc, fault),
    }
}

/// A layer of one prim that holds these items.
fn prim_with(alloc: Global, items: &[u8]) -> Result<Vec<u8>, AllocError> {
    let mut text = Vec::from_slice(alloc, b"#usda 1.0 def \"P\" { ".as_slice())?;
    text.extend_from_slice(items)?;
    text.extend_from_slice(b" \n}".as_slice())?;
    Ok(text)
}

fn property_answer(alloc: Global, text: &[u8]) -> Result<String, AllocError> {
    match read_property(alloc, str::from_utf8(text).unwrap_or("")) {
        Ok(Some(property)) => layer::property_line(alloc, &property),
        Ok(None) => String::from_str(alloc, "not used\n"),
        Err(fault) => fault_line(alloc, fault),
    }
}

/// A layer or the fault of a text that is cut.
fn cut_answer(alloc: Global, cut: &[u8]) -> Result<String, AllocError> {
    match read_layer(alloc, cut) {
        Ok(_) => String::from_str(alloc, "a layer\n"),
        Err(fault) => fault_line(alloc, fault),
    }
}

/// The answers for each length of the text but the whole, with the lengths from and to which they are the same.
fn cut_answers(alloc: Global, text: &[u8]) -> Result<String, AllocError> {
    let mut all = String::new(alloc);
    let mut from = 0usize;
    let mut last = cut_answer(alloc, b"".as_slice())?;
    for n in 1..text.len() {
        let answer = cut_answer(alloc, &text[..n])?;
        if answer != last {
            write!(all, "{from} to {} {last}", n - 1)?;
            from = n;
            last = answer;
        }
    }
    write!(all, "{from} to {} {last}", text.len().saturating_sub(1))?;
    Ok(all)
}

impl Form {
    /// The form of a topic with this first line.
    pub fn named(word: &str) -> Form {
        match word {
            "items" => Form::Items,
            "property" => Form::Property,
            "cuts" => Form::Cuts,
            "types" => Form::Types,
            _ => Form::Layer,
        }
    }

    pub fn answer(self, alloc: Global, text: &[u8]) -> Result<String, AllocError> {
        match self {
            Form::Layer => layer_answer(alloc, text),
            Form::Items => layer_answer(alloc, prim_with(alloc, text)?.as_slice()),
            Form::Property => property_answer(alloc, text),
            Form::Cuts => cut_answers(alloc, text),
            Form::Types => types::line(alloc, str::from_utf8(text).unwrap_or("")),
        }
    }
}
