//! Reads cases, one a line, and prints for each the tree of its tokens or its fault. The gate compares what it prints with `stdout`, whose
//! lines are found by hand from docs/LANGUAGE.md, "Grammar".
//!
//! A case is a letter that says which rule its text is read by (`e` an expression, `s` a statement, `d` a design), one that says what
//! is printed, and the text:
//!
//! | Second letter | Printed |
//! |---|---|
//! | blank | the tree |
//! | `@` | the tree with its places |
//! | `?` | only that there is a tree |
//! | `<` | of a design that stands in the named file: its modules, each with its number of items |
//!
//! A line that begins with `--` is a heading, and is printed as it is. In a text, two backquotes with a number, a blank and a piece between them stand for the piece so many times.
#![tactic(auto)]

mod answers;
mod texts;

use answers::answer;
use std::alloc::AllocError;
use std::io;
use texts::case_of;

fn main(rt: HostRuntime) -> io::Result<()> {
    for line in rt.lines(rt.alloc()) {
        let line = line?;
        if line.starts_with("--") {
            println!(rt; "{line}")?;
            continue;
        }
        let case = case_of(&rt, line.as_str())?;
        let Ok(told) = answer(rt.alloc(), &case) else {
            return Err(AllocError.into());
        };
        println!(rt; "{told}")?;
    }
    Ok(())
}
