ghost use Rattle.std.specs.Prelude.{◌≡◌, ◌^◌, ◌<◌, ◌≤◌, length, map};
ghost use Rattle.std.specs.String.{string_bytes};
ghost use Rattle.vf_ports.specs.Sink.{SinkState};
ghost use Rattle.vf_top.specs.Answer.{World, Answers};
ghost use Rattle.vf_top.specs.Promise.{Promised};
ghost use Rattle.vf_top.specs.Steps.{Ran, Tells, Writes, Ends};

use crate::accept::asked;
use crate::modes::work;
use crate::refusal::{Refusal, made_line, memory_line};
use std::alloc::Global;
use std::sync::ledger::Ledger;
use vf_base::Steps;
use vf_early::laws::one_program;
use vf_ports::{Shelf, Sink, put_all};
use vf_words::{Asked, help_page, version_line};

/// How long the first line of a text is, with its newline.
fn line_length(text: &[u8]) -> usize
    requires { 0 < length text.now }
    ensures some { 0 < result }
    ensures within { result ≤ length text.now }
{
    match text.iter().position(|byte| *byte == b'\n') {
        Some(at) => at + 1,
        None => text.len(),
    }
}

/// Writes a text, a line at a time.
fn write<K: Sink>(out: &mut K, text: &[u8]) -> Result<(), Refusal>
    ensures { Writes (K.seen out.old) (K.seen out.new) text.now result }
{
    let mut rest = text;
    while !rest.is_empty() {
        let (line, more) = rest.split_at(line_length(rest));
        let Ok(()) = put_all(out, line) else {
            return Err(Refusal::Write);
        };
        rest = more;
    }
    Ok(())
}

/// Writes a text, and ends with the status after it.
fn end<K: Sink>(out: &mut K, text: &[u8], status: u8) -> Result<u8, Refusal>
    ensures { Ends (K.seen out.old) (K.seen out.new) text.now status result }
{
    write(out, text)?;
    Ok(status)
}

/// Does what the words ask for, and writes what it gives.
fn run<S: Shelf, K: Sink, L: Ledger>(
    alloc: Global,
    words: &[String],
    shelf: &mut S,
    out: &mut K,
    steps: &mut Steps<L>,
) -> Result<u8, Refusal>
    requires { steps.old.count < 2 ^ 62 }
    ensures ran { (err told : SinkState) →
        let before : World =
        record { shelf = S.seen shelf.old; out = K.seen out.old; err = err; steps = steps.old } in
        let after : World =
        record { shelf = S.seen shelf.new; out = K.seen out.new; err = told; steps = steps.new } in
        Ran (map string_bytes words.now) before after result }
    ensures parts { steps.new.parts ≡ steps.old.parts }
{
    match asked(alloc, words)? {
        Asked::Help => end(out, help_page(), 0),
        Asked::Version => end(out, version_line(), 0),
        Asked::Work(command) => {
            let lines = work(alloc, &command, shelf, steps)?;
            end(out, &lines.text, lines.status)
        }
    }
}

/// Writes the fault line of a refusal, and gives its status. Where there is no memory for the line, that is
/// what is told.
pub fn tell<E: Sink>(alloc: Global, err: &mut E, refusal: &Refusal) -> u8
    ensures { Tells (E.seen err.old) (E.seen err.new) refusal.now result }
{
    if let Some(line) = refusal.line() {
        let _ = put_all(err, line);
        return refusal.status();
    }
    match made_line(alloc, refusal) {
        Ok(line) => {
            let _ = put_all(err, &line);
            refusal.status()
        }
        Err(_) => {
            let _ = put_all(err, memory_line());
            Refusal::Memory.status()
        }
    }
}

/// Does the command and tells a refusal.
fn answer<S: Shelf, K: Sink, E: Sink, L: Ledger>(
    alloc: Global,
    words: &[String],
    shelf: &mut S,
    out: &mut K,
    err: &mut E,
    steps: &mut Steps<L>,
) -> u8
    requires { steps.old.count < 2 ^ 62 }
    ensures answer { let before : World =
        record { shelf = S.seen shelf.old; out = K.seen out.old; err = E.seen err.old; steps = steps.old } in
        let after : World =
        record { shelf = S.seen shelf.new; out = K.seen out.new; err = E.seen err.new; steps = steps.new } in
        Answers (map string_bytes words.now) before after result }
    ensures parts { steps.new.parts ≡ steps.old.parts }
{
    match run(alloc, words, shelf, out, steps) {
        Ok(status) => status,
        Err(refusal) => tell(alloc, err, &refusal),
    }
}

/// Runs the program: `words` are those of the command line without the program's name
/// (docs/FORMATS.md, "Command words"). It answers the status that the program ends with:
///
/// | Status | Comes |
/// |---|---|
/// | 0 | the whole output was written to `out`, and nothing to `err`; none of 1, 5 and 8 stands in it |
/// | 1 | the whole output: the bytes of a completed test differ from those that the plan expects |
/// | 2 | exactly where the words are refused |
/// | 3 | exactly where the bytes of the design are not an early design, or the words name another top module |
/// | 4 | exactly where the bytes of the plan are not a plan, or mode solo names no test of it |
/// | 5 | the whole output: a test's run alone touches more pages than the budget |
/// | 6 | the shelf failed in this call, or exactly where a file is above its limit |
/// | 7 | the output failed in this call, and took a part of what was to be written |
/// | 8 | out of memory: the whole report was written and a test's line says so, or nothing was written to `out` |
///
/// They are tried in the order words, design read, design, plan read, plan, run, write; of several that a
/// report has, 8 goes before 5 and 5 before 1. In mode run each outcome reported is that of the test run
/// alone from time zero, and the journal is that of a farm which shared what the tests have in common; the
/// counter moves by the turns that it tells. A refusal writes its fault line to `err`; a failing `err`
/// changes nothing else.
pub fn command_here<S: Shelf, K: Sink, E: Sink, L: Ledger>(
    alloc: Global,
    words: &[String],
    shelf: &mut S,
    out: &mut K,
    err: &mut E,
    steps: &mut Steps<L>,
) -> u8
    requires { steps.old.count < 2 ^ 62 }
    ensures { let before : World =
        record { shelf = S.seen shelf.old; out = K.seen out.old; err = E.seen err.old; steps = steps.old } in
        let after : World =
        record { shelf = S.seen shelf.new; out = K.seen out.new; err = E.seen err.new; steps = steps.new } in
        Promised (map string_bytes words.now) before after result }
{
    one_program();
    answer(alloc, words, shelf, out, err, steps)
}
