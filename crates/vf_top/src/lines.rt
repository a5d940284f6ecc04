//! What the modes write.

ghost use Rattle.std.specs.Prelude.{◌≡◌, ◌+◌, ◌++◌, ◌^◌, ◌<◌, ◌≤◌, length, count_by, IfOk, OnOk};
ghost use Rattle.std.specs.List.{position};
ghost use Rattle.vf_design.specs.Words.{machine_of};
ghost use Rattle.vf_machine.specs.Solo.{solo_turns};
ghost use Rattle.vf_plan.specs.Paths.{joined};
ghost use Rattle.vf_jobs.specs.Kinds.{outcome_of};
ghost use Rattle.vf_jobs.specs.Limits.{limits_of};
ghost use Rattle.vf_report.specs.Report.{outcomes_in, report_text, totals_of, check_text};
ghost use Rattle.vf_words.specs.Ranges.{IsCommand};
ghost use Rattle.vf_top.specs.Report.{conditions_of, job_of, is_test_named, test_of, sizes_of, status_of_totals};
ghost use Rattle.vf_top.specs.Steps.{FarmGives, AloneGives, NamesNone};
ghost use Rattle.vf_top.specs.Work.{journal_asked};

use crate::refusal::Refusal;
use std::alloc::Global;
use std::sync::Arc;
use std::sync::ledger::Ledger;
use vf_base::{Job, Memory, NodeNo, Outcome, PAGE_WORDS, Steps, Text};
use vf_design::Design;
use vf_here::farm_here;
use vf_jobs::{Setup, limits_of};
use vf_plan::{Node, Plan, joined};
use vf_records::Records;
use vf_report::{Sizes, Summary, check_line, farm_report, journal_text, solo_report};
use vf_solo::solo;
use vf_words::Command;

/// What is written to the output, and the status after it.
#[derive(Drop)]
pub struct Lines {
    pub text: Vec<u8>,
    pub status: u8,
}

/// The status that a report's counts stand for.
fn status_of(summary: &Summary) -> u8
    ensures { result ≡ status_of_totals summary.now }
{
    if summary.memory > 0 {
        8
    } else if summary.pages > 0 {
        5
    } else if summary.failed > 0 {
        1
    } else {
        0
    }
}

/// Appends the journal, where it is asked for.
fn write_journal(
    alloc: Global,
    asked: bool,
    records: &Records,
    into: &mut Vec<u8>,
) -> Result<(), Memory>
    ensures { OnOk result (into.new.items ≡ into.old.items ++ journal_asked asked records.now.setup.plan records.now.journal) }
{
    if !asked {
        return Ok(());
    }
    let text = journal_text(alloc, &records.setup().plan, records.journal())?;
    into.extend_from_slice(&text)?;
    Ok(())
}

/// The report of a farm that has run, and its journal where it is asked for.
fn records_lines(alloc: Global, journal: bool, records: &Records) -> Result<Lines, Memory>
    ensures text { IfOk result (λ lines. lines.text.items
        ≡ report_text (outcomes_in records.now) records.now.setup.plan ++ journal_asked journal records.now.setup.plan records.now.journal) }
    ensures status { IfOk result (λ lines. lines.status ≡ status_of_totals (totals_of (outcomes_in records.now) records.now.setup.plan)) }
{
    let report = farm_report(alloc, records)?;
    let status = status_of(&report.summary);
    let mut text = report.text;
    write_journal(alloc, journal, records, &mut text)?;
    Ok(Lines { text, status })
}

/// All that the runs of a command are given.
fn setup_of(alloc: Global, command: &Command, design: Design, plan: Plan) -> Result<Setup, Memory>
    requires { IsCommand command.now }
    ensures { IfOk result (λ setup. setup ≡ conditions_of command.now design plan) }
{
    Setup::new(
        alloc,
        design,
        plan,
        command.limits,
        command.pages,
        command.order,
    )
}

/// Mode run: runs the farm, and makes its report.
#[tactic(auto, using(crate::proofs::FarmLemmas::farm_gives))]
pub fn farm_lines<L: Ledger>(
    alloc: Global,
    command: &Command,
    design: Design,
    plan: Plan,
    steps: &mut Steps<L>,
) -> Result<Lines, Memory>
    requires command { IsCommand command.now }
    requires steps { steps.old.count < 2 ^ 62 }
    ensures farm { FarmGives command.now design plan steps.old steps.new result }
    ensures parts { steps.new.parts ≡ steps.old.parts }
{
    let setup = setup_of(alloc, command, design, plan)?;
    let setup = Arc::new(alloc, setup)?;
    let records = farm_here(alloc, &setup, steps)?;
    records_lines(alloc, command.journal, &records)
}

/// How many nodes are tests.
fn test_count(nodes: &[Node]) -> u32
    requires { length nodes.now < 2 ^ 32 }
    ensures { result ≡ count_by (λ node. node.test) nodes.now }
{
    let mut tests = 0;
    for at in 0..nodes.len() {
        tests += u32::from(nodes[at].test);
    }
    tests
}

/// Mode check: the sizes of the design and the plan.
pub fn check_lines(alloc: Global, design: &Design, plan: &Plan) -> Result<Lines, Memory>
    ensures text { IfOk result (λ lines. lines.text.items ≡ check_text (sizes_of design.now plan.now)) }
    ensures status { IfOk result (λ lines. lines.status ≡ 0) }
{
    let words = design.word_count();
    let sizes = Sizes {
        processes: 1,
        signals: 1,
        words,
        pages: words / PAGE_WORDS,
        nodes: plan.nodes.len() as u32,
        tests: test_count(&plan.nodes),
    };
    let text = check_line(alloc, &sizes)?;
    Ok(Lines { text, status: 0 })
}

/// The number of the test of this name.
fn test_named(nodes: &[Node], name: &[u8]) -> Option<usize>
    ensures { result ≡ position (is_test_named name.now) nodes.now }
{
    nodes
        .iter()
        .position(|node| node.test && name == node.name.bytes())
}

/// The number of the test that the words name.
pub fn test_at(command: &Command, plan: &Plan) -> Option<usize>
    ensures { result ≡ test_of command.now plan.now }
{
    match &command.test {
        Some(name) => test_named(&plan.nodes, name.bytes()),
        None => None,
    }
}

/// The refusal of words that name no test of the plan.
pub fn no_test(alloc: Global, command: &Command) -> Refusal
    ensures { NamesNone command.now result }
{
    let name = match &command.test {
        Some(name) => name.copy(),
        None => Ok(Text::new(Vec::new(alloc))),
    };
    match name {
        Ok(name) => Refusal::NoTest(name),
        Err(Memory) => Refusal::Memory,
    }
}

/// Runs a test of the plan alone. Where it is out of memory, at most the test's limit of turns was counted.
fn run_alone<L: Ledger>(
    alloc: Global,
    setup: &Setup,
    node: NodeNo,
    steps: &mut Steps<L>,
) -> Result<Outcome, Memory>
    requires plan { node.0 < length setup.now.plan }
    requires steps { steps.old.count < 2 ^ 62 }
    ensures outcome { IfOk result (λ outcome. outcome ≡ outcome_of (machine_of setup.now.design) setup.now.limits setup.now.budget setup.now.plan (job_of node.0)) }
    ensures steps { OnOk result (steps.new.count ≡ steps.old.count
        + solo_turns (machine_of setup.now.design) (joined setup.now.plan node.0) (limits_of setup.now.limits setup.now.plan (job_of node.0)) setup.now.budget) }
    ensures moved { (steps.old.count ≤ steps.new.count)
        × (steps.new.count ≤ steps.old.count + (limits_of setup.now.limits setup.now.plan (job_of node.0)).turns) }
    ensures parts { steps.new.parts ≡ steps.old.parts }
{
    let stimulus = joined(alloc, &setup.plan, node)?;
    let limits = limits_of(setup, Job::Finish(node));
    Ok(solo(
        alloc,
        &setup.design,
        &stimulus,
        &limits,
        setup.budget,
        steps,
    )?)
}

/// Mode solo: runs the test at this place of the plan alone, and makes its line.
pub fn alone_lines<L: Ledger>(
    alloc: Global,
    command: &Command,
    design: Design,
    plan: Plan,
    at: usize,
    steps: &mut Steps<L>,
) -> Result<Lines, Memory>
    requires command { IsCommand command.now }
    requires at { at < length plan }
    requires steps { steps.old.count < 2 ^ 62 }
    ensures alone { AloneGives command.now design plan at steps.old steps.new result }
    ensures parts { steps.new.parts ≡ steps.old.parts }
{
    let setup = &setup_of(alloc, command, design, plan)?;
    let outcome = run_alone(alloc, setup, NodeNo(at as u32), steps)?;
    let report = solo_report(alloc, &setup.plan.nodes[at], &outcome)?;
    let status = status_of(&report.summary);
    Ok(Lines {
        text: report.text,
        status,
    })
}
