//! The limits of a plan's jobs.

ghost use Rattle.std.specs.Prelude.{◌≡◌, ℕ, ◌+◌, ◌<◌, ◌≤◌, if◌then◌else◌, length, get_or, IfOk, OnOk, None, Some};
ghost use Rattle.vf_jobs.specs.Limits.{larger, limits_at, limits_of_test};
ghost use Rattle.vf_plan.specs.Rules.{IsPlan};
ghost use Rattle.vf_jobs.specs.Subtree.{is_below};
ghost use Rattle.vf_jobs.specs.Tables.{greater_of, IsGreatest, AreGreatest, AreLimits};

use std::alloc::Global;
use vf_base::{Limits, Memory, NodeNo};
use vf_plan::Node;

fn larger(a: u64, b: u64) -> u64
    ensures { result ≡ larger a b }
{
    if a < b { b } else { a }
}

/// The greater of two limits, each for itself.
fn greater(limits: Limits, than: Option<Limits>) -> Limits
    ensures { result ≡ greater_of limits than }
{
    let Some(other) = than else {
        return limits;
    };
    Limits {
        turns: larger(limits.turns, other.turns),
        output: larger(limits.output, other.output),
    }
}

/// The limits of a test, where those are given that it has without its own.
pub(crate) fn limits_of_test(test: &Node, given: Limits) -> Limits
    ensures { result ≡ limits_of_test given test.now }
{
    Limits {
        turns: test.turns.unwrap_or(given.turns),
        output: test.output.unwrap_or(given.output),
    }
}

/// Raises what a node and all nodes on its path may use to the limits of a test there.
fn raise(nodes: &[Node], at: NodeNo, limits: Limits, tops: &mut Vec<Option<Limits>>)
    requires plan { IsPlan nodes.now }
    requires at { at.0 < length nodes.now }
    requires length { length tops.old.items ≡ length nodes.now }
    ensures raised { (n : ℕ) → get_or tops.new.items n None
        ≡ (if is_below nodes.now n at.0 then Some (greater_of limits (get_or tops.old.items n None)) else get_or tops.old.items n None) }
    ensures length { length tops.new.items ≡ length nodes.now }
{
    let top = at.0 as usize;
    let node = &nodes[top];
    tops[top] = Some(greater(limits, tops[top]));
    if let Some(parent) = node.parent {
        raise(nodes, parent, limits, tops);
    }
}

/// Takes in one node more, from the last to the first.
fn take_in(nodes: &[Node], at: usize, given: Limits, tops: &mut Vec<Option<Limits>>)
    requires plan { IsPlan nodes.now }
    requires at { at < length nodes.now }
    requires tops { AreGreatest given nodes.now (at + 1) tops.old.items }
    ensures { AreGreatest given nodes.now at tops.new.items }
{
    let node = &nodes[at];
    if node.test {
        raise(nodes, NodeNo(at as u32), limits_of_test(node, given), tops);
    }
}

/// The greatest limits of the tests in the subtree of each node, where it has one.
fn greatest_limits(
    alloc: Global,
    nodes: &[Node],
    given: Limits,
) -> Result<Vec<Option<Limits>>, Memory>
    requires { IsPlan nodes.now }
    ensures { IfOk result (λ tops. AreGreatest given nodes.now 0 tops.items) }
{
    let mut tops = vec![in alloc; None; nodes.len()]?;
    let mut at = nodes.len();
    while at > 0 {
        at -= 1;
        take_in(nodes, at, given, &mut tops);
    }
    Ok(tops)
}

/// The limits of the job that reaches a node, where those of the jobs before it are known.
fn limits_at(
    nodes: &[Node],
    at: usize,
    top: Option<Limits>,
    reach: &[Limits],
    given: Limits,
) -> Limits
    requires plan { IsPlan nodes.now }
    requires at { at < length nodes.now }
    requires top { IsGreatest given nodes.now 0 at top }
    requires reach { AreLimits given nodes.now at reach.now }
    ensures { result ≡ limits_at given nodes.now at }
{
    if let Some(limits) = top {
        return limits;
    }
    let node = &nodes[at];
    match node.parent {
        Some(parent) => reach[parent.0 as usize],
        None => given,
    }
}

/// The limits of the jobs that reach the nodes of a plan.
pub(crate) fn reach_limits(
    alloc: Global,
    nodes: &[Node],
    given: Limits,
) -> Result<Vec<Limits>, Memory>
    requires { IsPlan nodes.now }
    ensures { IfOk result (λ reach. AreLimits given nodes.now (length nodes.now) reach.items) }
{
    let tops = greatest_limits(alloc, nodes, given)?;
    let mut reach = Vec::new(alloc);
    for at in 0..nodes.len() {
        let limits = limits_at(nodes, at, tops[at], &reach, given);
        reach.push(limits)?;
    }
    Ok(reach)
}
