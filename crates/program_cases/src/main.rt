//! Runs the cases of standard input through the call that the program `hydra` makes, and prints what each answers.
//!
//! A case is one line. It begins with the words of a command, which name files of the folder `data`:
//!
//!     draw layers/triangle.usda out.ppm
//!
//! A short layer or script may be given in the line itself: after the first `|` is the text of the file `-`, and each
//! further `|` begins a line of it. In this text `\xHH` is the byte of that number.
//!
//!     step layers/triangle.usda - | remove /T | commit
//!
//! Before the text may be a plan: how many bytes one call of the `shelf` (it reads files), the `rack` (it writes files)
//! or the `sink` (it writes lines) moves at most, and which of its calls fails, counted from 0.
//!
//!     draw layers/triangle.usda out.ppm ! rack 100 2
//!
//! A blank line, and one that begins with `#`, is a heading and is printed as it is. `stdout` has each case, and below
//! it, indented, the lines that it writes, the files that it writes, and its status. A line that was not written to its
//! end is followed by `\`. Of each file there is its name, its length and a checksum of its bytes; `picture` tells how
//! a picture is drawn with letters.
#![tactic(auto)]

mod case;
mod picture;
mod report;
mod run;

use case::case_of;
use run::answer;
use std::io;

fn is_heading(line: &str) -> bool {
    line.is_empty() || line.starts_with('#')
}

fn main(rt: HostRuntime) -> io::Result<()> {
    for line in rt.lines(rt.alloc()) {
        let line = line?;
        println!(rt; "{line}")?;
        if !is_heading(&line) {
            let text = answer(rt, &case_of(&line))?;
            print!(rt; "{text}")?;
        }
    }
    Ok(())
}
