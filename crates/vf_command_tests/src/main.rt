//! Runs whole commands over files and outputs in memory. The input says which, and the gate compares what they answer with
//! `stdout`, whose reports, journals and fault lines are found by hand from docs/LANGUAGE.md, docs/FORMATS.md and docs/FARM.md.
//!
//! | Line of the input | Does |
//! |---|---|
//! | `file name text` | adds a file; the text is the rest of the line |
//! | `outside fetch write room most` | what the outside does in the next command: which fetch and which write fail, 0 for none, and how many bytes the output takes in all and in one call |
//! | `run words` | runs the command, and writes the words after `>`, the output, the error output after `!`, and the status after `=` |
//! | any other | is written as it stands |
//!
//! An output that does not end with a newline is followed by `~`.
#![tactic(auto)]

mod commands;

use commands::{add_file, calm, outside_of, shown, told};
use std::alloc::AllocError;
use std::io;

fn main(rt: HostRuntime) -> io::Result<()> {
    let mut files = Vec::new(rt.alloc());
    let mut outside = calm();
    for line in rt.lines(rt.alloc()) {
        let line = line?;
        match line.as_str().split_once(' ') {
            Some(("file", rest)) => {
                let Ok(()) = add_file(rt.alloc(), rest, &mut files) else {
                    return Err(AllocError.into());
                };
            }
            Some(("outside", rest)) => outside = outside_of(rest),
            Some(("run", words)) => {
                let Ok(answered) = told(rt.alloc(), words, &files, outside) else {
                    return Err(AllocError.into());
                };
                let text = shown(rt.alloc(), words, &answered)?;
                println!(rt; "{text}")?;
                outside = calm();
            }
            _ => println!(rt; "{line}")?,
        }
    }
    Ok(())
}
