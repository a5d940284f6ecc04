//! The text of a journal.

use std::alloc::Global;
use std::process::Abort;
use std::test::Fail;
use vf_base::{Job, NodeNo};
use vf_journal::Entry;
use vf_plan::read_plan;
use vf_report::journal_text;

const PLAN: &str =
    r#"{"version":1,"nodes":[{"name":"r","text":"b\n"},{"name":"a","after":"r","text":"x","test":true},
{"name":"b.2","after":"r","text":"y","test":true},{"name":"c-c","after":"r","text":"z","test":true}]}"#;

const R: NodeNo = NodeNo(0);

const A: NodeNo = NodeNo(1);

const B: NodeNo = NodeNo(2);

const C: NodeNo = NodeNo(3);

fn says(rt: &impl Abort, alloc: Global, journal: &[Entry], text: &str) -> Result<(), Fail> {
    let plan = read_plan(alloc, PLAN.as_bytes())?;
    let written = journal_text(alloc, &plan, journal)?;
    assert_eq!(rt; written.as_slice(), text.as_bytes());
    Ok(())
}

#[test]
fn a_farm_that_has_done_nothing_has_a_line(rt: HostRuntime) -> Result<(), Fail> {
    says(&rt, rt.alloc(), &[], "journal 0\n")
}

// The worked farm of docs/FARM.md, "The journal".
#[test]
fn a_worked_farm_is_told(rt: HostRuntime) -> Result<(), Fail> {
    let journal = [
        Entry::Start(Job::Reach(R), None),
        Entry::Saved {
            node: R,
            turn: 26,
            pages: 1,
            base: None,
        },
        Entry::Start(Job::Finish(A), Some(R)),
        Entry::End {
            job: Job::Finish(A),
            turn: 41,
        },
        Entry::Evict(R),
    ];
    says(
        &rt,
        rt.alloc(),
        &journal,
        "journal 5\nstart reach r from -\nsave r at 26 pages 1\nstart finish a from r\nend finish a at 41\nevict r\n",
    )
}

// Each entry that the worked farm has not, with numbers at their most.
#[test]
fn each_entry_has_its_words(rt: HostRuntime) -> Result<(), Fail> {
    let journal = [
        Entry::Saved {
            node: B,
            turn: 4_294_967_296,
            pages: 4_294_967_295,
            base: Some(R),
        },
        Entry::Pass { node: R, turn: 0 },
        Entry::Pages {
            job: Job::Finish(C),
            turn: 7,
            pages: 10,
        },
        Entry::Copy(Job::Reach(B), A),
        Entry::Lost {
            job: Job::Reach(R),
            turn: 18_446_744_073_709_551_615,
        },
        Entry::Short {
            job: Job::Finish(B),
            turn: 9,
        },
        Entry::Retire(C),
        Entry::Rest,
    ];
    says(
        &rt,
        rt.alloc(),
        &journal,
        "journal 8\nsave b.2 at 4294967296 pages 4294967295 base r\npass r at 0\npages finish c-c at 7 needs 10\n\
copy reach b.2 from a\nlost reach r at 18446744073709551615\nshort finish b.2 at 9\nretire c-c\nrest\n",
    )
}
