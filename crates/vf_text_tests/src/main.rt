//! Reads texts as numbers, lexemes, macros and tokens: each line of the input is a row, and each line of the output is the row with
//! its answer. The gate compares the output with `stdout`, whose answers are found by hand from docs/LANGUAGE.md, "Text and tokens".
//!
//! A row is a word and a text. The text is a JSON string, or an array of strings in which a number after a string repeats it so
//! often.
//!
//! | Word | Answer |
//! |---|---|
//! | `number` | the number at the front: how long it is, its width, `s` where it is signed, and its planes in hex |
//! | `lexeme` | the lexeme at the front, after its length |
//! | `passed` | what is passed over in a text that is not taken, after its length |
//! | `name` | how long the plain name at the front is |
//! | `line` | what stands from the end of the line on |
//! | `macro` | the text of a macro and, after `/`, the rest |
//! | `tokens` | the tokens with their places, or the first fault |
//! | `count` | how many tokens there are |
//! | `length` | how many bytes the text has |
//!
//! Of the tokens, `N:a@1:3` is a name, `S` a sign, `W` a word, `Y` a system name and `Q` a string; `#7@1:1` is a plain number, and
//! `#4s'12/5@1:1` one of 4 bits with a sign, by its planes in decimal. A first fault is its number and its place, as `!6@2:1`. A
//! byte that is no plain character is written `<0a>`.
#![tactic(auto)]

mod answers;
mod lexemes;
mod spelled;
mod texts;

use answers::answer;
use std::alloc::AllocError;
use std::io;
use texts::{shown, text_of};

fn main(rt: HostRuntime) -> io::Result<()> {
    for line in rt.lines(rt.alloc()) {
        let line = line?;
        let (word, rest) = line.as_str().split_once(' ').unwrap_or(("", ""));
        let Ok(text) = text_of(rt.alloc(), rest) else {
            return Err(AllocError.into());
        };
        let Ok(told) = answer(rt.alloc(), word, text.as_slice()) else {
            return Err(AllocError.into());
        };
        let told = shown(rt.alloc(), told.as_slice())?;
        println!(rt; "{line} = {told}")?;
    }
    Ok(())
}
