//! Reads early designs: each line of the input is a row, and each line of the output is the row with its answer. The gate compares the
//! output with `stdout`, whose answers are found by hand from docs/LANGUAGE.md, "Early designs".
//!
//! | Row | The text |
//! |---|---|
//! | `code slots text` | the text, with so many event slots |
//! | `module text` | the text, as in each row from here on with one event slot |
//! | `statement text` | a module whose process is the statement |
//! | `begins n` | a module whose process is `begin` so many times, and as often `end` |
//! | `ifs n` | a module whose process is `if (c == 0)` so many times, and `$finish(0);` |
//! | `finishes n` | a module whose process is a block of so many `$finish(0);` |
//!
//! In a text `\n`, `\r`, `\t` and `\f` are a newline, a carriage return, a tab and a form feed, and `\` before any other character is that
//! character. The answer of a `code` is the names of the module and of the integer, the event slots and the code, and that of any other
//! text `built`; where the text is refused it is the fault.
#![tactic(auto)]

mod answers;
mod texts;

use answers::answer;
use std::alloc::AllocError;
use std::io;

fn main(rt: HostRuntime) -> io::Result<()> {
    for line in rt.lines(rt.alloc()) {
        let line = line?;
        let Ok(told) = answer(rt.alloc(), line.as_str()) else {
            return Err(AllocError.into());
        };
        println!(rt; "{line} = {told}")?;
    }
    Ok(())
}
