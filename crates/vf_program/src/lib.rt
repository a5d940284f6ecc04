//! What the program does: it takes the words of the command line and hands the real files, the outputs and a
//! step counter to the top call.
//!
//! It stands on vf_base, vf_adapters, vf_words and vf_top. `main` of vfarm calls `program` on `words` and on
//! standard output and error; all that it does is `command_here`, and what is told where there are no words.
//! Both are generic over the runtime and the writers, so tests run them over memory.
#![tactic(auto)]

ghost use Rattle.std.specs.Prelude.{◌≡◌};

use std::env;
use std::io::{self, ErrorKind};
use std::marker::Brand;
use std::rt::{Env, Files};
use std::sync::ledger::{Blank, Ledger};
use vf_adapters::{FileShelf, OutSink, Telling};
use vf_base::Steps;
use vf_top::{Refusal, command_here, tell};
use vf_words::WordFault;

/// Runs the program over a new counter of steps.
fn counted<R: Files + AllocGlobal, O: Telling, E: Telling, L: Ledger>(
    rt: &R,
    words: &[String],
    out: &mut O,
    err: &mut E,
    blank: Blank,
) -> u8
    requires name { blank.name ≡ L.name }
    requires parts { blank.parts ≡ L.parts }
{
    let (_, share) = blank.open::<L>();
    let mut steps = Steps::new(share);
    command_here(
        rt.alloc(),
        words,
        &mut FileShelf::new(rt),
        &mut OutSink::new(out),
        &mut OutSink::new(err),
        &mut steps,
    )
}

/// The words of the command line, without the program's name. One that is not UTF-8 is an error, and so is out
/// of memory.
pub fn words<R: Env + AllocGlobal>(rt: &R) -> io::Result<Vec<String>> {
    let mut words = Vec::new(rt.alloc());
    for word in env::args(rt)?.skip(1) {
        words.push(word)?;
    }
    Ok(words)
}

/// Why there are no words: out of memory, or a word that is not UTF-8.
fn refusal_of(error: &io::Error) -> Refusal {
    match error.kind() {
        ErrorKind::OutOfMemory => Refusal::Memory,
        _ => Refusal::WrongWords(WordFault::Refused),
    }
}

/// Runs the program on the words of its command line, and gives the status that it ends with.
pub fn program<R: Files + AllocGlobal, O: Telling, E: Telling>(
    rt: &R,
    words: io::Result<Vec<String>>,
    out: &mut O,
    err: &mut E,
) -> u8 {
    match words {
        Ok(words) => counted::<R, O, E, Brand>(rt, &words, out, err, Blank::new(1)),
        Err(error) => tell(rt.alloc(), &mut OutSink::new(err), &refusal_of(&error)),
    }
}
