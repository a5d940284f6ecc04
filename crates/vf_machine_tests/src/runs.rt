//! The runs of rows.

ghost use Rattle.std.specs.Prelude.{◌≡◌, ◌-◌, ◌<◌, ◌≤◌, ◌^◌};

use crate::rows::Row;
use crate::shown::{outcome_text, turn_text, words_text};
use crate::walk::Walk;
use std::alloc::{AllocError, Global};
use std::marker::Brand;
use std::sync::ledger::{Blank, Ledger};
use vf_base::{Limits, Memory, Steps};
use vf_design::{Design, Mark};
use vf_early::early_design;
use vf_solo::solo;

/// The most turns of a walk that are shown.
const MOST_TURNS: u32 = 100;

/// The text of a design whose process is the statement.
fn text_of(alloc: Global, statement: &str) -> Result<String, AllocError> {
    format!(in alloc; "module m; integer c; initial {statement} endmodule")
}

fn stimulus_of(alloc: Global, text: &str) -> Result<Vec<u8>, Memory> {
    if text == "-" {
        return Ok(Vec::new(alloc));
    }
    match hex::decode(alloc, text) {
        Ok(bytes) => Ok(bytes),
        Err(_) => Err(Memory),
    }
}

/// The solo run of a design.
fn alone<L: Ledger>(
    alloc: Global,
    design: &Design,
    stim: &[u8],
    limits: &Limits,
    budget: u32,
    blank: Blank,
) -> Result<String, Memory>
    requires name { blank.name ≡ L.name }
    requires parts { blank.parts ≡ L.parts }
    requires turns { limits.now.turns < 2 ^ 64 - 1 }
{
    let (_, share) = blank.open::<L>();
    let mut steps = Steps::new(share);
    let outcome = solo(alloc, design, stim, limits, budget, &mut steps)?;
    Ok(outcome_text(alloc, &outcome)?)
}

/// The turns of a run until one ends it, and its words before and after.
fn walked(alloc: Global, design: Design, stim: &[u8], limits: &Limits) -> Result<String, Memory> {
    let mut walk = Walk::new(alloc, design, stim)?;
    let zero = words_text(alloc, walk.words())?;
    let mut text = format!(in alloc; "{} words:{zero}\n", walk.words().len())?;
    for _ in 0..MOST_TURNS {
        let reads = walk.reads_next();
        walk.step(limits)?;
        let turn = turn_text(alloc, reads, walk.turn())?;
        write!(text, "{turn}\n")?;
        if let Mark::Ended(_) = walk.turn().mark {
            break;
        }
    }
    let left = words_text(alloc, walk.words())?;
    write!(text, "left:{left}")?;
    Ok(text)
}

/// The answer of a row.
pub fn answer(alloc: Global, row: Row<'_>) -> Result<String, Memory>
    requires { row.limits.turns ≤ 1000000 }
{
    let is_walk = row.word == "walk";
    let slots = if is_walk { row.number } else { 1 };
    let text = text_of(alloc, row.statement)?;
    if !(1 <= slots && slots <= 16_384) || text.as_bytes().len() > 4096 {
        return Ok(format!(in alloc; "not a row")?);
    }
    let stim = stimulus_of(alloc, row.stimulus)?;
    let Ok(design) = early_design(alloc, text.as_bytes(), slots) else {
        return Ok(format!(in alloc; "not a design")?);
    };
    if is_walk {
        walked(alloc, design, &stim, &row.limits)
    } else {
        alone::<Brand>(
            alloc,
            &design,
            &stim,
            &row.limits,
            row.number,
            Blank::new(1),
        )
    }
}
