//! The call that the program makes, over the files of the system.

use hd_app::{Status, top_plain};
use hd_io::{FileRack, FileShelf, OutSink, OutsideFault, Shelf, write_file};
use std::alloc::{AllocError, Global};
use std::test::Fail;
use std::{fs, io};

/// Files, and their bytes.
const FILES: &[(&str, &[u8])] = &[
    ("layer.usda", b"#usda 1.0\ndef Mesh \"T\" {}\n"),
    ("cut.usda", b"#usda 1.0\ndef"),
    ("script", b"commit\nremove /X\n"),
];

/// Words, and the number of the status with which the program ends.
const ENDINGS: &[(&[&str], u8)] = &[
    (&[], 1),
    (&["draw", "layer.usda", "picture.ppm"], 0),
    (&["draw", "cut.usda", "picture.ppm"], 2),
    (&["step", "layer.usda", "script"], 3),
    (
        &["step", "a", "a", "a", "a", "a", "a", "a", "a", "a", "s"],
        4,
    ),
    (&["draw", "missing", "picture.ppm"], 5),
    (&["step", "layer.usda", "missing"], 5),
    (&["draw", "layer.usda", "no/such/folder"], 6),
];

fn words_of(alloc: Global, words: &[&str]) -> Result<Vec<String>, AllocError> {
    let mut all = Vec::new(alloc);
    for word in words {
        all.push(String::from_str(alloc, word)?)?;
    }
    Ok(all)
}

/// Does what the words say over the system's files and its standard output.
fn run(rt: HostRuntime, words: &[String]) -> Status {
    let mut shelf = FileShelf::new(rt, rt.alloc());
    let mut rack = FileRack::new(rt);
    let mut out = OutSink::new(io::writer(&rt));
    top_plain(rt.alloc(), words, &mut shelf, &mut rack, &mut out)
}

fn write_files(rt: HostRuntime) -> Result<(), OutsideFault> {
    let mut rack = FileRack::new(rt);
    for (name, bytes) in FILES {
        write_file(&mut rack, name, bytes)?;
    }
    Ok(())
}

/// The number of the first command line that ends with another status, or how many there are.
fn first_wrong_ending(rt: HostRuntime) -> Result<usize, AllocError> {
    for (place, (words, number)) in ENDINGS.iter().enumerate() {
        if run(rt, &words_of(rt.alloc(), words)?).number() != *number {
            return Ok(place);
        }
    }
    Ok(ENDINGS.len())
}

/// Whether the picture that was drawn begins as a picture of 64 by 64 pixels.
fn is_picture(rt: HostRuntime) -> Result<bool, OutsideFault> {
    let mut shelf = FileShelf::new(rt, rt.alloc());
    let mut head = [0; 13];
    shelf.open("picture.ppm")?;
    Ok(shelf.read(&mut head)? == 13 && head.as_slice() == b"P6\n64 64\n255\n".as_slice())
}

/// The first wrong ending, one more than all where the picture is wrong, and else how many endings there are.
fn first_wrong(rt: HostRuntime) -> Result<usize, Fail> {
    write_files(rt)?;
    let wrong = first_wrong_ending(rt)?;
    let is_picture = is_picture(rt)?;
    for name in ["layer.usda", "cut.usda", "script", "picture.ppm"] {
        fs::remove_file(&rt, name)?;
    }
    Ok(if is_picture { wrong } else { ENDINGS.len() + 1 })
}

#[test]
fn the_program_ends_with_the_number_of_its_status(rt: HostRuntime) -> Result<(), Fail> {
    assert!(rt; first_wrong(rt)? == ENDINGS.len());
    Ok(())
}
