//! Whole commands over files and outputs in memory.

ghost use Rattle.std.specs.Prelude.{◌≡◌, ◌≤◌};

use std::alloc::Global;
use std::marker::Brand;
use std::sync::ledger::{Blank, Ledger};
use vf_base::{Memory, Steps, Text};
use vf_ports::{MemShelf, MemSink, Shelf, Sink};
use vf_top::command_here;

/// The words that name the files of `files`.
pub fn names() -> &'static [&'static str] {
    &["d.v", "p.json"]
}

/// Writes each byte of the stimulus, and asks for a checkpoint after each newline.
pub fn echo() -> &'static str {
    "module echo; integer c; initial begin c = $fgetc(32'h8000_0000); while (c != -1) begin $write(\"%c\", c); \
     if (c == 10) $save(\"echo\"); c = $fgetc(32'h8000_0000); end $finish(0); end endmodule"
}

/// What the outside does in a command: the numbers, from 1, of the fetch and of the write that fail, 0 for none,
/// and how many bytes an output takes in all and in one call.
#[derive(Clone, Copy, Debug)]
pub struct Outside {
    pub fetch_fails: u64,
    pub write_fails: u64,
    pub room: usize,
    pub most: usize,
}

/// An outside in which nothing fails.
pub fn calm() -> Outside
    ensures { 1 ≤ result.most }
{
    Outside {
        fetch_fails: 0,
        write_fails: 0,
        room: 262_144,
        most: 4096,
    }
}

/// What a command answered: its status, and what went to the output and to the error output.
#[derive(Drop)]
pub struct Answered {
    pub status: u8,
    pub out: MemSink,
    pub err: MemSink,
}

/// Runs the command over a new counter of steps.
pub fn counted<S: Shelf, K: Sink, E: Sink, L: Ledger>(
    alloc: Global,
    words: &[String],
    shelf: &mut S,
    out: &mut K,
    err: &mut E,
    blank: Blank,
) -> u8
    requires name { blank.name ≡ L.name }
    requires parts { blank.parts ≡ L.parts }
{
    let (_, share) = blank.open::<L>();
    let mut steps = Steps::new(share);
    command_here(alloc, words, shelf, out, err, &mut steps)
}

/// Words of a command line.
pub fn owned(alloc: Global, words: &[&str]) -> Result<Vec<String>, Memory> {
    let mut all = Vec::new(alloc);
    for word in words {
        all.push(String::from_str(alloc, word)?)?;
    }
    Ok(all)
}

/// The bytes of a text.
pub fn text(alloc: Global, bytes: &str) -> Result<Text, Memory> {
    Ok(Text::new(Vec::from_slice(alloc, bytes.as_bytes())?))
}

/// The files "d.v" and "p.json".
pub fn files(alloc: Global, design: &str, plan: &str) -> Result<Vec<(Text, Text)>, Memory> {
    let mut files = Vec::new(alloc);
    files.push((text(alloc, "d.v")?, text(alloc, design)?))?;
    files.push((text(alloc, "p.json")?, text(alloc, plan)?))?;
    Ok(files)
}

/// A plan of a version whose only node, the test `t`, has these members too.
pub fn one_node(alloc: Global, version: u32, members: &str) -> Result<String, Memory> {
    Ok(format!(in alloc;
        "{{\"version\":{version},\"nodes\":[{{\"name\":\"t\",\"test\":true,{members}}}]}}"
    )?)
}

/// A list of calls that fail: none where `call` is 0.
fn failing(alloc: Global, call: u64) -> Result<Vec<u64>, Memory> {
    let mut calls = Vec::new(alloc);
    if call != 0 {
        calls.push(call)?;
    }
    Ok(calls)
}

/// Runs the command on the words and files. The error output never fails.
pub fn told(
    alloc: Global,
    words: &[&str],
    files: Vec<(Text, Text)>,
    outside: Outside,
) -> Result<Answered, Memory>
    requires { 1 ≤ outside.most }
{
    let words = owned(alloc, words)?;
    let mut shelf = MemShelf::new(alloc, files, failing(alloc, outside.fetch_fails)?);
    let calls = failing(alloc, outside.write_fails)?;
    let mut out = MemSink::new(alloc, outside.room, outside.most, calls)?;
    let mut err = MemSink::new(alloc, 4096, outside.most, Vec::new(alloc))?;
    let blank = Blank::new(1);
    let status = counted::<MemShelf, MemSink, MemSink, Brand>(
        alloc, &words, &mut shelf, &mut out, &mut err, blank,
    );
    Ok(Answered { status, out, err })
}

/// Runs the command on a design and a plan, where nothing fails.
pub fn ran(alloc: Global, design: &str, plan: &str) -> Result<Answered, Memory> {
    told(alloc, names(), files(alloc, design, plan)?, calm())
}
