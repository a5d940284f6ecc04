//! A whole farm, told as text.

ghost use Rattle.std.specs.Prelude.{◌≡◌};

use std::alloc::Global;
use std::marker::Brand;
use std::sync::Arc;
use std::sync::ledger::{Blank, Ledger};
use vf_base::{Limits, Memory, Steps};
use vf_early::early_design;
use vf_here::farm_here;
use vf_jobs::{MOST_BUDGET, Order, Setup};
use vf_journal::Entry;
use vf_plan::read_plan;
use vf_records::Records;
use vf_report::{farm_report, journal_text};

/// How a farm's images are given back, its budget of pages, and its limits on turns and on bytes written.
#[derive(Clone, Copy)]
pub struct Given {
    pub order: Order,
    pub budget: u64,
    pub turns: u64,
    pub output: u64,
}

/// What the runs of a farm are given, or what is wrong with it.
fn setup(
    alloc: Global,
    design: &str,
    plan: &str,
    given: Given,
) -> Result<Result<Arc<Setup>, &'static str>, Memory> {
    if given.budget < 1 || given.budget > u64::from(MOST_BUDGET) {
        return Ok(Err("no budget\n"));
    }
    if given.turns < 1 || given.turns > 4_294_967_296 || given.output > 262_144 {
        return Ok(Err("no limits\n"));
    }
    let limits = Limits {
        turns: given.turns,
        output: given.output,
    };
    let Ok(design) = early_design(alloc, design.as_bytes(), 1) else {
        return Ok(Err("no design\n"));
    };
    let Ok(plan) = read_plan(alloc, plan.as_bytes()) else {
        return Ok(Err("no plan\n"));
    };
    let budget = given.budget as u32;
    let setup = Setup::new(alloc, design, plan, limits, budget, given.order)?;
    Ok(Ok(Arc::new(alloc, setup)?))
}

/// Runs a farm over a new counter of steps.
fn run<L: Ledger>(alloc: Global, setup: &Arc<Setup>, blank: Blank) -> Result<Records, Memory>
    requires name { blank.name ≡ L.name }
    requires parts { blank.parts ≡ L.parts }
{
    let (_, share) = blank.open::<L>();
    let mut steps = Steps::new(share);
    farm_here(alloc, setup, &mut steps)
}

/// How many entries there are of some sorts.
fn counts(alloc: Global, journal: &[Entry]) -> Result<String, Memory> {
    let mut starts: u64 = 0;
    let mut saves: u64 = 0;
    let mut ends: u64 = 0;
    let mut evictions: u64 = 0;
    let mut retired: u64 = 0;
    for entry in journal {
        match entry {
            Entry::Start(_, _) => starts = starts.saturating_add(1),
            Entry::Saved { .. } => saves = saves.saturating_add(1),
            Entry::End { .. } => ends = ends.saturating_add(1),
            Entry::Evict(_) => evictions = evictions.saturating_add(1),
            Entry::Retire(_) => retired = retired.saturating_add(1),
            _ => {}
        }
    }
    let all = journal.len();
    Ok(format!(in alloc;
        "entries {all} starts {starts} saves {saves} ends {ends} evictions {evictions} retired {retired}\n"
    )?)
}

/// The bytes of the last line of a text, without its newline.
fn last_line(text: &str) -> &[u8] {
    let mut last = b"".as_slice();
    for line in text.lines() {
        last = line.as_bytes();
    }
    last
}

/// The report and the journal of a farm, or the last line of the one and the counts of the other.
pub fn farm(
    alloc: Global,
    design: &str,
    plan: &str,
    given: Given,
    whole: bool,
) -> Result<Vec<u8>, Memory> {
    let setup = match setup(alloc, design, plan, given)? {
        Ok(setup) => setup,
        Err(why) => return Ok(Vec::from_slice(alloc, why.as_bytes())?),
    };
    let records = run::<Brand>(alloc, &setup, Blank::new(1))?;
    let report = farm_report(alloc, &records)?.text;
    if whole {
        let mut text = report;
        let journal = journal_text(alloc, &records.setup().plan, records.journal())?;
        text.extend_from_slice(&journal)?;
        return Ok(text);
    }
    let report = String::from_utf8_lossy(alloc, &report)?;
    let counts = counts(alloc, records.journal())?;
    let mut text = Vec::from_slice(alloc, last_line(report.as_str()))?;
    text.push(b'\n')?;
    text.extend_from_slice(counts.as_bytes())?;
    Ok(text)
}
