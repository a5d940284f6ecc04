//! How many jobs there are in the subtree of each node, and how many of them are over.

ghost use Rattle.std.specs.Prelude.{◌≡◌, ℕ, ◌+◌, ◌<◌, ◌^◌, length, get_or, slice_get, Some, IfOk};
ghost use Rattle.vf_base.specs.declared.names.Job.{Job};
ghost use Rattle.vf_plan.specs.Rules.{IsPlan};
ghost use Rattle.vf_jobs.specs.Jobs.{node_of};
ghost use Rattle.vf_jobs.specs.Setup.{IsSetup};
ghost use Rattle.vf_jobs.specs.Subtree.{is_below};
ghost use Rattle.vf_records.specs.Counts.{one, jobs_below};

use crate::layout::filled;
use std::alloc::Global;
use vf_base::{Job, Memory, NodeNo};
use vf_jobs::{Setup, node_of};
use vf_plan::Node;

/// The nodes of a setup's plan.
pub(crate) fn nodes(setup: &Setup) -> &[Node]
    ensures nodes { result.now ≡ setup.now.plan }
    ensures kept { IsSetup setup.now }
{
    &setup.plan.nodes
}

/// One more, where there is room.
pub(crate) fn more(count: usize) -> usize
    ensures { count + 1 < 2 ^ 64 → result ≡ count + 1 }
{
    if count < usize::MAX { count + 1 } else { count }
}

/// Counts one more for a node and all nodes on its path.
pub(crate) fn count_up(nodes: &[Node], at: NodeNo, counts: &mut Vec<usize>)
    requires plan { IsPlan nodes.now }
    requires at { at.0 < length nodes.now }
    requires length { length counts.old.items ≡ length nodes.now }
    ensures counted { (n : ℕ) → get_or counts.old.items n 0 + one (is_below nodes.now n at.0) < 2 ^ 64
        → get_or counts.new.items n 0 ≡ get_or counts.old.items n 0 + one (is_below nodes.now n at.0) }
    ensures length { length counts.new.items ≡ length nodes.now }
{
    let top = at.0 as usize;
    let node = &nodes[top];
    counts[top] = more(counts[top]);
    if let Some(parent) = node.parent {
        count_up(nodes, parent, counts);
    }
}

/// Of each node, how many jobs there are in its subtree.
pub(crate) fn counted(alloc: Global, nodes: &[Node], jobs: &Vec<Job>) -> Result<Vec<usize>, Memory>
    requires plan { IsPlan nodes.now }
    requires within { (i : ℕ) (job : Job) → slice_get jobs.now.items i ≡ Some job → node_of job < length nodes.now }
    ensures length { IfOk result (λ counts. length counts.items ≡ length nodes.now) }
    ensures counted { IfOk result (λ counts. (n : ℕ) → get_or counts.items n 0 ≡ jobs_below nodes.now n jobs.now.items) }
{
    let mut counts = filled(alloc, 0, nodes.len())?;
    for at in 0..jobs.len() {
        count_up(nodes, node_of(jobs[at]), &mut counts);
    }
    Ok(counts)
}
