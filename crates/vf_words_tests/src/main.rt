//! Reads command lines: each line of the input is a row, and each line of the output is the row with its answer. The gate compares the
//! output with `stdout`, whose answers are found by hand from docs/FORMATS.md, "Command words".
//!
//! | Row | Answer |
//! |---|---|
//! | `> words` | what the words ask for, or their fault; `_` is the empty word, and no words are a row too |
//! | `page` | whether no line of the help page is longer than 80 bytes, and whether the page ends with a newline |
//! | `has 'text'` | whether the help page has the text, in which `~` is a newline |
//! | `version` | the line of the version, without its newline |
//!
//! A command is its mode, workers, pages, turns, output, slots, order and whether it has a journal, then its top and test in quotes,
//! or `-` where there is none, its number and its files.
#![tactic(auto)]

mod commands;
mod pages;

use commands::told;
use pages::{has, page, version};
use std::alloc::{AllocError, Global};
use std::io;
use vf_base::Memory;

fn answer(alloc: Global, line: &str) -> Result<String, Memory> {
    match line.split_once(' ') {
        Some((">", words)) => told(alloc, words),
        Some(("has", quoted)) => has(alloc, quoted),
        _ if line == "page" => page(alloc),
        _ if line == "version" => version(alloc),
        _ => told(alloc, ""),
    }
}

fn main(rt: HostRuntime) -> io::Result<()> {
    for line in rt.lines(rt.alloc()) {
        let line = line?;
        let Ok(told) = answer(rt.alloc(), line.as_str()) else {
            return Err(AllocError.into());
        };
        println!(rt; "{line} = {told}")?;
    }
    Ok(())
}
