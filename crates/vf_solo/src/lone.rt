ghost use Rattle.std.specs.Prelude.{◌≡◌, ◌+◌, ◌-◌, ◌<◌, ◌≤◌, ◌^◌, ◌++◌, IfOk, OnOk};
ghost use Rattle.vf_machine.specs.Solo.{solo, solo_turns};
ghost use Rattle.vf_design.specs.Words.{machine_of};

use crate::flat::{Flat, write_all};
use crate::touched::Touched;
use std::alloc::Global;
use std::sync::ledger::Ledger;
use vf_base::{Header, Limits, Memory, Outcome, PAGE_WORDS, Steps, Text};
use vf_design::{Design, Mark, Turn, words_at_zero};
use vf_kernel::turn;

/// Runs a design alone, from time zero, on a stimulus. `budget` is the most pages of 64 words that the
/// run may touch; the turn that would pass it is not performed. The step counter moves by the turns
/// performed, also where it is out of memory, which is the only refusal.
pub fn solo<L: Ledger>(
    alloc: Global,
    design: &Design,
    stim: &[u8],
    limits: &Limits,
    budget: u32,
    steps: &mut Steps<L>,
) -> Result<Outcome, Memory>
    requires { steps.old.count + limits.now.turns < 2 ^ 64 - 1 }
    ensures outcome { IfOk result (λ outcome. outcome ≡ solo (machine_of design.now) stim.now limits.now budget) }
    ensures steps { OnOk result (steps.new.count ≡ steps.old.count + solo_turns (machine_of design.now) stim.now limits.now budget) }
    ensures moved { (steps.old.count ≤ steps.new.count) × (steps.new.count ≤ steps.old.count + limits.now.turns) }
    ensures parts { steps.new.parts ≡ steps.old.parts }
{
    let mut flat = Flat {
        words: words_at_zero(alloc, design)?,
        past_end: false,
    };
    let mut touched = Touched::new(alloc, design.word_count() / PAGE_WORDS)?;
    let mut text = Text::new(Vec::new(alloc));
    let mut header = Header {
        turns: 0,
        reads: 0,
        written: 0,
    };
    let mut next = Turn::new(alloc);
    'turns: loop {
        turn(design, &flat, &header, stim, limits, &mut next)?;
        if let Mark::Ended(ending) = next.mark {
            if next.header.turns > header.turns {
                steps.tick();
            }
            return Ok(Outcome::Done {
                ending,
                text,
                turns: next.header.turns,
            });
        }
        write_all(&next.writes, &mut flat.words, &mut touched);
        if touched.count() > budget {
            return Ok(Outcome::Pages(touched.count()));
        }
        steps.tick();
        append(next.text.bytes(), &mut text)?;
        header = next.header;
        flat.past_end = header.reads > stim.len() as u64;
    }
}

/// Appends the bytes of a turn; most turns have none.
fn append(bytes: &[u8], text: &mut Text) -> Result<(), Memory>
    ensures { IfOk result (λ _. text.new ≡ text.old ++ bytes.now) }
{
    if bytes.is_empty() {
        return Ok(());
    }
    text.push_all(bytes)
}
