//! Where the jobs of each node's subtree end in the order of jobs.

ghost use Rattle.std.specs.Prelude.{◌≡◌, ℕ, ◌<◌, ◌≤◌, true, length, get_or, slice_get, Some, IfOk, IfSome};
ghost use Rattle.vf_base.specs.declared.names.Job.{Job};
ghost use Rattle.vf_plan.specs.Rules.{IsPlan};
ghost use Rattle.vf_jobs.specs.Jobs.{node_of};
ghost use Rattle.vf_jobs.specs.Subtree.{is_below};
ghost use Rattle.vf_records.specs.Counts.{AreEnded};

use crate::layout::filled;
use std::alloc::Global;
use vf_base::{Job, Memory, NodeNo};
use vf_jobs::node_of;
use vf_plan::Node;

/// Raises the number of a parent to that of its child.
fn raise(parent: Option<NodeNo>, to: usize, most: &mut Vec<usize>)
    requires { IfSome parent (λ p. p.0 < length most.old.items) }
    ensures grown { (n : ℕ) → get_or most.old.items n 0 ≤ get_or most.new.items n 0 }
    ensures raised { IfSome parent (λ p. to ≤ get_or most.new.items p.0 0) }
    ensures others { (n : ℕ) → IfSome parent (λ p. p.0 < n) → get_or most.new.items n 0 ≡ get_or most.old.items n 0 }
    ensures length { length most.new.items ≡ length most.old.items }
{
    if let Some(node) = parent {
        let at = node.0 as usize;
        if most[at] < to {
            most[at] = to;
        }
    }
}

/// Raises the number of each node to the greatest of its subtree.
fn raise_all(nodes: &[Node], most: &mut Vec<usize>)
    requires plan { IsPlan nodes.now }
    requires length { length most.old.items ≡ length nodes.now }
    ensures raised { (top n : ℕ) → is_below nodes.now top n ≡ true → get_or most.old.items n 0 ≤ get_or most.new.items top 0 }
    ensures length { length most.new.items ≡ length nodes.now }
{
    let mut at = nodes.len();
    while at > 0 {
        at -= 1;
        let node = &nodes[at];
        let own = most[at];
        raise(node.parent, own, most);
    }
}

/// Of each node a place after all jobs of its subtree: the one after the last of them.
pub(crate) fn ends_of(alloc: Global, nodes: &[Node], jobs: &Vec<Job>) -> Result<Vec<usize>, Memory>
    requires plan { IsPlan nodes.now }
    requires within { (i : ℕ) (job : Job) → slice_get jobs.now.items i ≡ Some job → node_of job < length nodes.now }
    ensures length { IfOk result (λ ends. length ends.items ≡ length nodes.now) }
    ensures ended { IfOk result (λ ends. AreEnded nodes.now jobs.now.items ends.items) }
{
    let mut ends = filled(alloc, 0, nodes.len())?;
    for at in 0..jobs.len() {
        ends[node_of(jobs[at]).0 as usize] = at + 1;
    }
    raise_all(nodes, &mut ends);
    Ok(ends)
}
