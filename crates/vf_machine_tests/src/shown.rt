//! Words, turns and outcomes as text.

use std::alloc::{AllocError, Global};
use vf_base::{Ending, Header, Outcome, SaveKind, Write};
use vf_design::{Mark, Turn};

/// Bytes in hex, `-` where there are none.
pub fn hexed(alloc: Global, bytes: &[u8]) -> Result<String, AllocError> {
    if bytes.is_empty() {
        return format!(in alloc; "-");
    }
    hex::encode(alloc, bytes)
}

fn ending_text(alloc: Global, ending: Ending) -> Result<String, AllocError> {
    match ending {
        Ending::Finish(number) => format!(in alloc; "finish:{number}"),
        Ending::Stop(number) => format!(in alloc; "stop:{number}"),
        Ending::Drained => format!(in alloc; "drained"),
        Ending::Turns => format!(in alloc; "turns"),
        Ending::Output => format!(in alloc; "output"),
        Ending::Events => format!(in alloc; "events"),
        Ending::Time => format!(in alloc; "time"),
    }
}

/// The outcome of a solo run.
pub fn outcome_text(alloc: Global, outcome: &Outcome) -> Result<String, AllocError> {
    match outcome {
        Outcome::Done {
            ending,
            text,
            turns,
        } => {
            let ending = ending_text(alloc, *ending)?;
            let bytes = hexed(alloc, text.bytes())?;
            format!(in alloc; "{ending} turns {turns} out {bytes}")
        }
        Outcome::Pages(pages) => format!(in alloc; "pages {pages}"),
    }
}

fn mark_text(alloc: Global, mark: Mark) -> Result<String, AllocError> {
    match mark {
        Mark::Plain => format!(in alloc; "plain"),
        Mark::Saved(SaveKind::Full) => format!(in alloc; "saved"),
        Mark::Saved(SaveKind::Incr) => format!(in alloc; "saved-incrementally"),
        Mark::Ended(ending) => ending_text(alloc, ending),
    }
}

fn header_text(alloc: Global, header: &Header) -> Result<String, AllocError> {
    format!(in alloc;
        "turns {} reads {} written {}",
        header.turns, header.reads, header.written
    )
}

fn writes_text(alloc: Global, writes: &[Write]) -> Result<String, AllocError> {
    let mut text = String::new(alloc);
    for write in writes {
        write!(text, " {}={:x}", write.at, write.word)?;
    }
    Ok(text)
}

/// A turn, after `reads` where it reads the stimulus.
pub fn turn_text(alloc: Global, reads: bool, turn: &Turn) -> Result<String, AllocError> {
    let before = if reads { "reads " } else { "" };
    let mark = mark_text(alloc, turn.mark)?;
    let header = header_text(alloc, &turn.header)?;
    let writes = writes_text(alloc, &turn.writes)?;
    let text = hexed(alloc, turn.text.bytes())?;
    format!(in alloc; "{before}{mark} {header} writes{writes} text {text}")
}

/// The words that are not 0, each after its address.
pub fn words_text(alloc: Global, words: &[u64]) -> Result<String, AllocError> {
    let mut text = String::new(alloc);
    let mut at: u32 = 0;
    for word in words {
        if *word != 0 {
            write!(text, " {at}={:x}", *word)?;
        }
        at = at.saturating_add(1);
    }
    Ok(text)
}
