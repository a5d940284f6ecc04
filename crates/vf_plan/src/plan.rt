ghost use Rattle.std.specs.Prelude.{◌≡◌, ◌<◌, ◌++◌, IfOk, OnOk, length};
ghost use Rattle.vf_plan.specs.Paths.{joined};
ghost use Rattle.vf_plan.specs.Rules.{IsPlan};

use std::alloc::Global;
use std::marker::Model;
use vf_base::{Memory, NodeNo, Text};

/// A node of a plan: what is read after its parent, and, where it is a test, what is expected and
/// what ends it.
#[derive(Debug, Drop)]
pub struct Node {
    /// 1 to 64 bytes of ASCII letters, digits, `_`, `.` and `-`, of which a letter is the first.
    pub name: Text,
    /// An earlier node; a root has none.
    pub parent: Option<NodeNo>,
    /// The bytes that the node adds to its parent's stimulus, at most 65,536.
    pub segment: Text,
    /// Whether the node is a test.
    pub test: bool,
    /// The bytes that the test shall write, at most 262,144.
    pub expect: Option<Text>,
    /// The test's own limit on turns, 1 to 2^32.
    pub turns: Option<u64>,
    /// The test's own limit on bytes written, 0 to 262,144.
    pub output: Option<u64>,
}

/// The size of a path from a root to a node.
#[derive(Clone, Copy, Debug, PartialEq, Eq)]
pub(crate) struct PathSize {
    /// How many nodes are on it.
    pub(crate) nodes: usize,
    /// How many bytes their segments have.
    pub(crate) bytes: usize,
}

/// A plan: a list of nodes that meets the rules of docs/FORMATS.md, "The plan".
#[derive(Debug, Drop)]
pub struct Plan {
    pub nodes: Vec<Node>,
}

impl Model for Plan {
    ghost use Rattle.std.specs.Prelude.{List};
    ghost use Rattle.vf_plan.specs.declared.plan.Node.{Node};

    ghost Value = { List Node };

    ghost use Rattle.vf_plan.specs.Inner.{nodes_of, IsKept};

    ghost view = { nodes_of };

    ghost invariant = { IsKept };
}

/// Appends the segments from the root to a node.
fn push_path(plan: &Plan, node: NodeNo, into: &mut Vec<u8>) -> Result<(), Memory>
    requires { node.0 < length plan.now }
    ensures { OnOk result (into.new.items ≡ into.old.items ++ joined plan.now node.0) }
{
    let node = &plan.nodes[node.0 as usize];
    if let Some(parent) = node.parent {
        push_path(plan, parent, into)?;
    }
    into.extend_from_slice(node.segment.bytes())?;
    Ok(())
}

/// The stimulus of a node: the segments from the root to it, one after the other.
pub fn joined(alloc: Global, plan: &Plan, node: NodeNo) -> Result<Vec<u8>, Memory>
    requires { node.0 < length plan.now }
    ensures { IfOk result (λ bytes. bytes.items ≡ joined plan.now node.0) }
{
    let mut bytes = Vec::new(alloc);
    push_path(plan, node, &mut bytes)?;
    Ok(bytes)
}
