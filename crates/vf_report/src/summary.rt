ghost use Rattle.std.specs.Prelude.{◌≡◌, ◌+◌, ◌^◌, ◌<◌, List, [], ◌∷◌, ◌++◌, IfOk, option_copied};
ghost use Rattle.vf_report.specs.Tested.{Tested, turns_of};
ghost use Rattle.vf_report.specs.Totals.{summary_of};
ghost use Rattle.vf_report.specs.Texts.{summary_text};

use crate::write::{write, write_number};
use std::alloc::Global;
use std::marker::Model;
use vf_base::{Memory, Outcome};

/// The counts of a report's last line. They are kept consistent: what became of a test is one of
/// three things, and only a completed one can have met its expectation or failed it.
#[derive(Debug, Drop)]
pub struct Summary {
    /// All tests.
    pub tests: u32,
    /// Those whose run ended.
    pub completed: u32,
    /// The completed ones whose bytes equal their expectation.
    pub met: u32,
    /// The completed ones whose bytes differ from their expectation.
    pub failed: u32,
    /// Those that passed their budget of pages.
    pub pages: u32,
    /// Those that were out of memory.
    pub memory: u32,
    /// The turns of all completed ones.
    pub turns: u64,
}

impl Model for Summary {
    ghost use Rattle.vf_report.specs.Totals.{Totals};
    ghost use Rattle.std.specs.Prelude.{◌≡◌, ◌+◌, ◌≤◌};

    ghost Value = { Totals };

    ghost view = { λ s. record { tests = s.tests; completed = s.completed; met = s.met; failed = s.failed; pages = s.pages; memory = s.memory; turns = s.turns } };

    ghost invariant = { λ s. (s.completed + s.pages + s.memory ≡ s.tests) × (s.met + s.failed ≤ s.completed) };
}

impl Summary {
    /// The summary of no tests.
    pub fn new() -> Summary
        ensures { result ≡ summary_of [] }
    {
        Summary {
            tests: 0,
            completed: 0,
            met: 0,
            failed: 0,
            pages: 0,
            memory: 0,
            turns: 0,
        }
    }

    /// Counts one more test. `outcome` is `None` where it was out of memory. There are fewer than 2^32
    /// tests, and the turns of the completed ones sum to less than 2^64.
    pub fn add(&mut self, expectation: Option<&[u8]>, outcome: Option<&Outcome>)
        requires tests { self.old.tests + 1 < 2 ^ 32 }
        requires turns { self.old.turns + turns_of (option_copied outcome) < 2 ^ 64 }
        ensures tests { self.new.tests ≡ self.old.tests + 1 }
        ensures turns { self.new.turns ≡ self.old.turns + turns_of (option_copied outcome.entry) }
        ensures summary { (tests : List Tested) → self.old ≡ summary_of tests
            → self.new ≡ summary_of (tests ++ record { expectation = option_copied expectation.entry; outcome = option_copied outcome.entry } ∷ []) }
    {
        self.tests += 1;
        match outcome {
            None => self.memory += 1,
            Some(Outcome::Pages(_)) => self.pages += 1,
            Some(Outcome::Done { text, turns, .. }) => {
                self.completed += 1;
                self.turns += *turns;
                if let Some(expected) = expectation {
                    if expected == text.bytes() {
                        self.met += 1;
                    } else {
                        self.failed += 1;
                    }
                }
            }
        }
    }
}

/// The last line of a report. The only refusal is out of memory.
pub fn summary_line(alloc: Global, summary: &Summary) -> Result<Vec<u8>, Memory>
    ensures { IfOk result (λ line. line.items ≡ summary_text summary.now) }
{
    let mut line = Vec::new(alloc);
    write_number(b"tests ", u64::from(summary.tests), &mut line)?;
    write_number(b" completed ", u64::from(summary.completed), &mut line)?;
    write_number(b" met ", u64::from(summary.met), &mut line)?;
    write_number(b" failed ", u64::from(summary.failed), &mut line)?;
    write_number(b" pages ", u64::from(summary.pages), &mut line)?;
    write_number(b" memory ", u64::from(summary.memory), &mut line)?;
    write_number(b" turns ", summary.turns, &mut line)?;
    write(b"\n", &mut line)?;
    Ok(line)
}
