ghost use Rattle.std.specs.Prelude.{◌≡◌, ◌++◌, length, IfOk, OnOk, option_copied};
ghost use Rattle.vf_report.specs.Texts.{ending_text, hex_text, first_difference, expect_text, outcome_text, test_text};

use crate::write::{write, write_number};
use std::alloc::Global;
use vf_base::{Ending, Memory, Outcome};

/// The line of a test: its name, what became of it, and how its bytes compare with what is expected
/// of them, where something is. `outcome` is `None` where the test was out of memory. The only refusal is
/// out of memory.
pub fn test_line(
    alloc: Global,
    name: &[u8],
    expectation: Option<&[u8]>,
    outcome: Option<&Outcome>,
) -> Result<Vec<u8>, Memory>
    ensures { IfOk result (λ line.
        line.items ≡ test_text name.now (option_copied expectation.entry) (option_copied outcome.entry)) }
{
    let mut line = Vec::from_slice(alloc, b"test ")?;
    write(name, &mut line)?;
    write(b" ", &mut line)?;
    write_outcome(alloc, expectation, outcome, &mut line)?;
    write(b"\n", &mut line)?;
    Ok(line)
}

fn write_outcome(
    alloc: Global,
    expectation: Option<&[u8]>,
    outcome: Option<&Outcome>,
    into: &mut Vec<u8>,
) -> Result<(), Memory>
    ensures { OnOk result (into.new.items
        ≡ into.old.items ++ outcome_text (option_copied expectation.entry) (option_copied outcome.entry)) }
{
    match outcome {
        None => write(b"memory", into),
        Some(Outcome::Pages(needed)) => write_number(b"pages ", u64::from(*needed), into),
        Some(
            Outcome::Done {
                ending,
                text,
                turns,
            },
        ) => {
            let bytes = text.bytes();
            write_ending(*ending, into)?;
            write_number(b" turns ", *turns, into)?;
            write_number(b" bytes ", bytes.len() as u64, into)?;
            write(b" out ", into)?;
            write_hex(alloc, bytes, into)?;
            write(b" expect ", into)?;
            write_expectation(expectation, bytes, into)
        }
    }
}

fn write_ending(ending: Ending, into: &mut Vec<u8>) -> Result<(), Memory>
    ensures { OnOk result (into.new.items ≡ into.old.items ++ ending_text ending) }
{
    match ending {
        Ending::Finish(number) => write_number(b"finish:", u64::from(number), into),
        Ending::Stop(number) => write_number(b"stop:", u64::from(number), into),
        Ending::Drained => write(b"drained", into),
        Ending::Turns => write(b"turns", into),
        Ending::Output => write(b"output", into),
        Ending::Events => write(b"events", into),
        Ending::Time => write(b"time", into),
    }
}

fn write_hex(alloc: Global, bytes: &[u8], into: &mut Vec<u8>) -> Result<(), Memory>
    ensures { OnOk result (into.new.items ≡ into.old.items ++ hex_text bytes.now) }
{
    if bytes.is_empty() {
        return write(b"-", into);
    }
    let digits = hex::encode(alloc, bytes)?;
    write(digits.as_bytes(), into)
}

fn write_expectation(
    expectation: Option<&[u8]>,
    bytes: &[u8],
    into: &mut Vec<u8>,
) -> Result<(), Memory>
    ensures { OnOk result (into.new.items
        ≡ into.old.items ++ expect_text (option_copied expectation.entry) bytes.now) }
{
    let Some(expected) = expectation else {
        return write(b"none", into);
    };
    if expected == bytes {
        return write(b"met", into);
    }
    write_number(b"differs:", expected.len() as u64, into)?;
    write_number(b":", first_difference(expected, bytes) as u64, into)
}

/// The first place at which the bytes differ; where none does, the length of the shorter text.
fn first_difference(expected: &[u8], bytes: &[u8]) -> usize
    ensures { result ≡ first_difference expected.now bytes.now }
{
    let shorter = expected.len().min(bytes.len());
    expected
        .iter()
        .zip(bytes)
        .position(|(wanted, byte)| wanted != byte)
        .unwrap_or(shorter)
}
