//! Makes runs of early designs: each line of the input is a row, whose answer goes to the output after the row. The gate compares
//! the output with `stdout`, whose answers are found by hand from docs/LANGUAGE.md, "Turns of a design" and "The words of a
//! state", and docs/FARM.md, "A run".
//!
//! A row is a word, the stimulus in hex or `-`, a limit on turns, one on bytes written, a number, and the statement of a process
//! over the integer `c`:
//!
//! | Word | The number | Answer |
//! |---|---|---|
//! | `solo` | the budget of pages | the outcome of the solo run |
//! | `walk` | the event slots | how many words a state has, and those at time zero that are not 0; each turn until one ends the run, `reads` before it where it reads; and the words in the end |
//!
//! A turn has its mark, its turns, reads and bytes written, the words that it writes as `address=word` in hex, and its text.
#![tactic(auto)]

mod rows;
mod runs;
mod shown;
mod walk;

use rows::row_of;
use runs::answer;
use std::alloc::AllocError;
use std::io;

fn main(rt: HostRuntime) -> io::Result<()> {
    for line in rt.lines(rt.alloc()) {
        let line = line?;
        let Ok(told) = answer(rt.alloc(), row_of(line.as_str())) else {
            return Err(AllocError.into());
        };
        println!(rt; "> {line}\n{told}")?;
    }
    Ok(())
}
