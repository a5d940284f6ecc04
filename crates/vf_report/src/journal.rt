//! The lines of a journal.

ghost use Rattle.std.specs.Prelude.{◌≡◌, ◌++◌, IfOk, OnOk};
ghost use Rattle.vf_report.specs.Journal.{name_of, job_text, origin_text, base_text, entry_text, journal_text};

use crate::write::{write, write_number};
use std::alloc::Global;
use vf_base::{Job, Memory, NodeNo};
use vf_journal::Entry;
use vf_plan::Plan;

/// The text of a journal of a farm that runs the plan: a line with the number of its entries, and one
/// line for each of them. The time that it takes is linear in its length. The only refusal is out of
/// memory.
pub fn journal_text(alloc: Global, plan: &Plan, journal: &[Entry]) -> Result<Vec<u8>, Memory>
    ensures { IfOk result (λ text. text.items ≡ journal_text plan.now journal.now) }
{
    let mut text = Vec::new(alloc);
    write_number(b"journal ", journal.len() as u64, &mut text)?;
    write(b"\n", &mut text)?;
    for entry in journal {
        write_entry(plan, entry, &mut text)?;
        write(b"\n", &mut text)?;
    }
    Ok(text)
}

fn write_name(plan: &Plan, node: NodeNo, into: &mut Vec<u8>) -> Result<(), Memory>
    ensures { OnOk result (into.new.items ≡ into.old.items ++ name_of plan.now node) }
{
    match plan.nodes.get(node.0 as usize) {
        None => Ok(()),
        Some(node) => write(node.name.bytes(), into),
    }
}

fn write_job(plan: &Plan, job: Job, into: &mut Vec<u8>) -> Result<(), Memory>
    ensures { OnOk result (into.new.items ≡ into.old.items ++ job_text plan.now job) }
{
    match job {
        Job::Reach(node) => {
            write(b"reach ", into)?;
            write_name(plan, node, into)
        }
        Job::Finish(node) => {
            write(b"finish ", into)?;
            write_name(plan, node, into)
        }
    }
}

fn write_origin(plan: &Plan, origin: Option<NodeNo>, into: &mut Vec<u8>) -> Result<(), Memory>
    ensures { OnOk result (into.new.items ≡ into.old.items ++ origin_text plan.now origin) }
{
    match origin {
        None => write(b"-", into),
        Some(node) => write_name(plan, node, into),
    }
}

fn write_base(plan: &Plan, base: Option<NodeNo>, into: &mut Vec<u8>) -> Result<(), Memory>
    ensures { OnOk result (into.new.items ≡ into.old.items ++ base_text plan.now base) }
{
    let Some(node) = base else {
        return Ok(());
    };
    write(b" base ", into)?;
    write_name(plan, node, into)
}

/// A word that says what became of a job, and the job.
fn write_of(plan: &Plan, word: &[u8], job: Job, into: &mut Vec<u8>) -> Result<(), Memory>
    ensures { OnOk result (into.new.items ≡ into.old.items ++ (word.now ++ job_text plan.now job)) }
{
    write(word, into)?;
    write_job(plan, job, into)
}

/// A word that says what became of a node or its image, and the node.
fn write_at(plan: &Plan, word: &[u8], node: NodeNo, into: &mut Vec<u8>) -> Result<(), Memory>
    ensures { OnOk result (into.new.items ≡ into.old.items ++ (word.now ++ name_of plan.now node)) }
{
    write(word, into)?;
    write_name(plan, node, into)
}

fn write_entry(plan: &Plan, entry: &Entry, into: &mut Vec<u8>) -> Result<(), Memory>
    ensures { OnOk result (into.new.items ≡ into.old.items ++ entry_text plan.now entry.now) }
{
    match *entry {
        Entry::Start(job, origin) => {
            write_of(plan, b"start ", job, into)?;
            write(b" from ", into)?;
            write_origin(plan, origin, into)
        }
        Entry::Saved {
            node,
            turn,
            pages,
            base,
        } => {
            write_at(plan, b"save ", node, into)?;
            write_number(b" at ", turn, into)?;
            write_number(b" pages ", u64::from(pages), into)?;
            write_base(plan, base, into)
        }
        Entry::Pass { node, turn } => {
            write_at(plan, b"pass ", node, into)?;
            write_number(b" at ", turn, into)
        }
        Entry::End { job, turn } => {
            write_of(plan, b"end ", job, into)?;
            write_number(b" at ", turn, into)
        }
        Entry::Pages { job, turn, pages } => {
            write_of(plan, b"pages ", job, into)?;
            write_number(b" at ", turn, into)?;
            write_number(b" needs ", u64::from(pages), into)
        }
        Entry::Copy(job, node) => {
            write_of(plan, b"copy ", job, into)?;
            write_at(plan, b" from ", node, into)
        }
        Entry::Lost { job, turn } => {
            write_of(plan, b"lost ", job, into)?;
            write_number(b" at ", turn, into)
        }
        Entry::Short { job, turn } => {
            write_of(plan, b"short ", job, into)?;
            write_number(b" at ", turn, into)
        }
        Entry::Evict(node) => write_at(plan, b"evict ", node, into),
        Entry::Retire(node) => write_at(plan, b"retire ", node, into),
        Entry::Rest => write(b"rest", into),
    }
}
