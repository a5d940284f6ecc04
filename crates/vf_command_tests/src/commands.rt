//! Commands over files and outputs in memory.

ghost use Rattle.std.specs.Prelude.{◌≡◌};

use std::alloc::{AllocError, Global};
use std::marker::Brand;
use std::sync::ledger::{Blank, Ledger};
use vf_base::{Memory, Steps, Text};
use vf_ports::{MemShelf, MemSink, Shelf, Sink};
use vf_top::command_here;

/// What the outside does in a command: the numbers, from 1, of the fetch and of the write that fail, 0 for none,
/// and how many bytes the output takes in all and in one call.
#[derive(Clone, Copy)]
pub struct Outside {
    fetch_fails: u64,
    write_fails: u64,
    room: usize,
    most: usize,
}

/// An outside in which nothing fails.
pub fn calm() -> Outside {
    Outside {
        fetch_fails: 0,
        write_fails: 0,
        room: 262_144,
        most: 4096,
    }
}

/// The outside that four numbers tell.
pub fn outside_of(text: &str) -> Outside {
    let mut outside = calm();
    let mut numbers = text.split(' ');
    if let Some(number) = numbers.next() {
        outside.fetch_fails = number.parse::<u64>().unwrap_or(0);
    }
    if let Some(number) = numbers.next() {
        outside.write_fails = number.parse::<u64>().unwrap_or(0);
    }
    if let Some(number) = numbers.next() {
        outside.room = number.parse::<usize>().unwrap_or(0);
    }
    if let Some(number) = numbers.next() {
        outside.most = number.parse::<usize>().unwrap_or(0);
    }
    outside
}

/// What a command answered: its status, and what went to the output and to the error output.
#[derive(Drop)]
pub struct Answered {
    status: u8,
    out: MemSink,
    err: MemSink,
}

fn text(alloc: Global, bytes: &str) -> Result<Text, Memory> {
    Ok(Text::new(Vec::from_slice(alloc, bytes.as_bytes())?))
}

/// Adds the file whose name stands before the first blank.
pub fn add_file(alloc: Global, rest: &str, files: &mut Vec<(Text, Text)>) -> Result<(), Memory> {
    if let Some((name, bytes)) = rest.split_once(' ') {
        files.push((text(alloc, name)?, text(alloc, bytes)?))?;
    }
    Ok(())
}

fn copied(alloc: Global, files: &[(Text, Text)]) -> Result<Vec<(Text, Text)>, Memory> {
    let mut copies = Vec::new(alloc);
    for (name, bytes) in files {
        copies.push((name.copy()?, bytes.copy()?))?;
    }
    Ok(copies)
}

fn words_of(alloc: Global, line: &str) -> Result<Vec<String>, Memory> {
    let mut words = Vec::new(alloc);
    for word in line.split(' ') {
        words.push(String::from_str(alloc, word)?)?;
    }
    Ok(words)
}

/// A list of calls that fail: none where `call` is 0.
fn failing(alloc: Global, call: u64) -> Result<Vec<u64>, Memory> {
    let mut calls = Vec::new(alloc);
    if call != 0 {
        calls.push(call)?;
    }
    Ok(calls)
}

/// Runs the command over a new counter of steps.
fn counted<S: Shelf, K: Sink, E: Sink, L: Ledger>(
    alloc: Global,
    words: &[String],
    shelf: &mut S,
    out: &mut K,
    err: &mut E,
    blank: Blank,
) -> u8
    requires name { blank.name ≡ L.name }
    requires parts { blank.parts ≡ L.parts }
{
    let (_, share) = blank.open::<L>();
    let mut steps = Steps::new(share);
    command_here(alloc, words, shelf, out, err, &mut steps)
}

/// Runs the command of the words on the files. The error output never fails.
pub fn told(
    alloc: Global,
    line: &str,
    files: &[(Text, Text)],
    outside: Outside,
) -> Result<Answered, Memory> {
    let most = if outside.most == 0 { 1 } else { outside.most };
    let words = words_of(alloc, line)?;
    let files = copied(alloc, files)?;
    let mut shelf = MemShelf::new(alloc, files, failing(alloc, outside.fetch_fails)?);
    let calls = failing(alloc, outside.write_fails)?;
    let mut out = MemSink::new(alloc, outside.room, most, calls)?;
    let mut err = MemSink::new(alloc, 4096, most, Vec::new(alloc))?;
    let blank = Blank::new(1);
    let status = counted::<MemShelf, MemSink, MemSink, Brand>(
        alloc, &words, &mut shelf, &mut out, &mut err, blank,
    );
    Ok(Answered { status, out, err })
}

/// What stands after an output, so that the next line begins anew.
fn newline(text: &str) -> &str {
    if text.is_empty() || text.ends_with('\n') {
        ""
    } else {
        "~\n"
    }
}

/// The words of a command and what it answered.
pub fn shown(alloc: Global, words: &str, answered: &Answered) -> Result<String, AllocError> {
    let out = String::from_utf8_lossy(alloc, answered.out.bytes())?;
    let err = String::from_utf8_lossy(alloc, answered.err.bytes())?;
    let mark = if err.as_str().is_empty() { "" } else { "! " };
    let end = newline(out.as_str());
    format!(in alloc; "> {words}\n{out}{end}{mark}{err}= {}", answered.status)
}
