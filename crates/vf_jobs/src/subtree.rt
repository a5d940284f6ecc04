//! The subtree of a node.

ghost use Rattle.std.specs.Prelude.{◌≡◌, ◌<◌, length};
ghost use Rattle.vf_jobs.specs.Subtree.{is_below};

use vf_base::NodeNo;
use vf_plan::Plan;

/// Whether a node of the plan is another or stands below it: it stands on the path from the root.
pub fn is_below(plan: &Plan, top: NodeNo, node: NodeNo) -> bool
    requires { node.0 < length plan.now }
    ensures { result ≡ is_below plan.now top.0 node.0 }
{
    let mut at = node.0;
    'nodes: loop {
        if at == top.0 {
            return true;
        }
        match plan.nodes[at as usize].parent {
            Some(parent) => at = parent.0,
            None => return false,
        }
    }
}
