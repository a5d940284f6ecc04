//! The report of a plan, from the records of its farm, and the line of one test that ran alone.

ghost use Rattle.std.specs.Prelude.{◌≡◌, ◌+◌, ◌≤◌, ◌<◌, ◌^◌, [], ◌∷◌, ◌++◌, List, Some, option_copied, option_map, if◌then◌else◌, IfOk, OnOk};
ghost use Rattle.vf_records.specs.Account.{IsAccount};
ghost use Rattle.vf_report.specs.Tested.{Tested, turns_of};
ghost use Rattle.vf_report.specs.Totals.{summary_of};
ghost use Rattle.vf_report.specs.Texts.{test_text};
ghost use Rattle.vf_report.specs.Report.{lines_from, totals_of, report_text, outcomes_in, solo_text, solo_totals};

use crate::line::test_line;
use crate::summary::{Summary, summary_line};
use crate::write::write;
use std::alloc::Global;
use vf_base::{Job, Memory, NodeNo, Outcome};
use vf_plan::Node;
use vf_records::Records;

/// The lines of a report, and the counts of its last one.
#[derive(Drop)]
pub struct Report {
    pub text: Vec<u8>,
    pub summary: Summary,
}

/// What is expected of a test.
fn expected(test: &Node) -> Option<&[u8]>
    ensures { option_map (λ bytes. bytes.now) result ≡ test.now.expect }
{
    match &test.expect {
        Some(text) => Some(text.bytes()),
        None => None,
    }
}

/// Appends the line of a node, if it is a test.
fn write_test(
    alloc: Global,
    node: &Node,
    outcome: Option<&Outcome>,
    into: &mut Vec<u8>,
) -> Result<(), Memory>
    ensures { OnOk result (into.new.items ≡ into.old.items
        ++ (if node.now.test then test_text node.now.name node.now.expect (option_copied outcome.entry) else [])) }
{
    if !node.test {
        return Ok(());
    }
    let line = test_line(alloc, node.name.bytes(), expected(node), outcome)?;
    write(&line, into)
}

/// The nodes of the plan.
fn nodes(records: &Records) -> &[Node]
    ensures nodes { result.now ≡ records.now.setup.plan }
    ensures kept { IsAccount records.now }
{
    let _journal = records.journal();
    &records.setup().plan.nodes
}

/// The lines of the tests, in the order of the plan.
fn test_lines(alloc: Global, records: &Records) -> Result<Vec<u8>, Memory>
    ensures { IfOk result (λ lines. lines.items ≡ lines_from (outcomes_in records.now) 0 records.now.setup.plan) }
{
    let nodes = nodes(records);
    let mut lines = Vec::new(alloc);
    for at in 0..nodes.len() {
        let outcome = records.outcome(Job::Finish(NodeNo(at as u32)));
        write_test(alloc, &nodes[at], outcome, &mut lines)?;
    }
    Ok(lines)
}

/// Counts a node, if it is a test.
fn count(node: &Node, outcome: Option<&Outcome>, summary: &mut Summary)
    requires tests { summary.old.tests + 1 < 2 ^ 32 }
    requires turns { summary.old.turns + turns_of (option_copied outcome) < 2 ^ 64 }
    ensures tests { summary.new.tests ≤ summary.old.tests + 1 }
    ensures turns { summary.new.turns ≤ summary.old.turns + turns_of (option_copied outcome.entry) }
    ensures summary { (tests : List Tested) → summary.old ≡ summary_of tests
        → summary.new ≡ summary_of (tests ++ (if node.now.test then record { expectation = node.now.expect; outcome = option_copied outcome.entry } ∷ [] else [])) }
{
    if node.test {
        summary.add(expected(node), outcome);
    }
}

/// The counts of all tests of the plan.
fn totals(records: &Records) -> Summary
    ensures { result ≡ totals_of (outcomes_in records.now) records.now.setup.plan }
{
    let nodes = nodes(records);
    let mut summary = Summary::new();
    for at in 0..nodes.len() {
        let outcome = records.outcome(Job::Finish(NodeNo(at as u32)));
        count(&nodes[at], outcome, &mut summary);
    }
    summary
}

/// The report of a farm: a line for each test in the order of the plan, with the outcome that the records
/// tell, or `memory` where they tell none, and the line of counts. The only refusal is out of memory.
pub fn farm_report(alloc: Global, records: &Records) -> Result<Report, Memory>
    ensures text { IfOk result (λ report. report.text.items ≡ report_text (outcomes_in records.now) records.now.setup.plan) }
    ensures summary { IfOk result (λ report. report.summary ≡ totals_of (outcomes_in records.now) records.now.setup.plan) }
{
    let summary = totals(records);
    let mut text = test_lines(alloc, records)?;
    let last = summary_line(alloc, &summary)?;
    write(&last, &mut text)?;
    Ok(Report { text, summary })
}

/// The line of one test that ran alone, with its counts. The only refusal is out of memory.
pub fn solo_report(alloc: Global, test: &Node, outcome: &Outcome) -> Result<Report, Memory>
    requires { turns_of (Some outcome.now) < 2 ^ 64 }
    ensures text { IfOk result (λ report. report.text.items ≡ solo_text test.now outcome.now) }
    ensures summary { IfOk result (λ report. report.summary ≡ solo_totals test.now outcome.now) }
{
    let mut summary = Summary::new();
    summary.add(expected(test), Some(outcome));
    let text = test_line(alloc, test.name.bytes(), expected(test), Some(outcome))?;
    Ok(Report { text, summary })
}
