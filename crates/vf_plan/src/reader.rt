//! The nodes that have been read so far.

ghost use Rattle.std.specs.List.{list_any};
ghost use Rattle.std.specs.Prelude.{◌≡◌, ◌≢◌, ◌+◌, ◌<◌, ◌≤◌, ◌++◌, ◌∷◌, [], length, option_map, IfOk, IfErr, IfSome};
ghost use Rattle.vf_plan.specs.declared.fault.PlanKind.TheVariants as kinds;
ghost use Rattle.vf_plan.specs.Answers.{Gives, Reads};
ghost use Rattle.vf_plan.specs.Paths.{no_path, at_parent, path_sizes, path_to};
ghost use Rattle.vf_plan.specs.Reading.{node_named, placed, is_long, bounded, if_tested};
ghost use Rattle.vf_plan.specs.Rules.{IsNodeAfter};

use crate::limits::{LONGEST_EXPECTATION, LONGEST_PATH, LONGEST_SEGMENT, MOST_DEPTH, MOST_NODES};
use crate::plan::{Node, PathSize, Plan};
use crate::{PlanFault, PlanKind};
use indexmap::IndexSet;
use std::alloc::Global;
use std::marker::Model;
use vf_base::{NodeNo, Text};

/// The nodes so far, their names in the same order, and the sizes of the paths to them.
#[derive(Drop)]
pub(crate) struct Reader {
    nodes: Vec<Node>,
    names: IndexSet<Vec<u8>>,
    paths: Vec<PathSize>,
}

impl Model for Reader {
    ghost use Rattle.std.specs.Prelude.{List};
    ghost use Rattle.vf_plan.specs.declared.plan.Node.{Node};

    ghost Value = { List Node };

    ghost use Rattle.vf_plan.specs.Inner.{read_so_far, IsReader};

    ghost view = { read_so_far };

    ghost invariant = { IsReader };
}

fn is_long(expect: &Option<Text>) -> bool
    ensures { result ≡ is_long expect.now }
{
    match expect {
        Some(bytes) => bytes.bytes().len() > LONGEST_EXPECTATION,
        None => false,
    }
}

fn has_test(nodes: &[Node]) -> bool
    ensures { result ≡ list_any (λ node. node.test) nodes.now }
{
    nodes.iter().any(|node| node.test)
}

impl Reader {
    pub(crate) fn new(alloc: Global) -> Reader
        ensures { result ≡ [] }
    {
        Reader {
            nodes: Vec::new(alloc),
            names: IndexSet::new(alloc),
            paths: Vec::new(alloc),
        }
    }

    /// The number of the node of that name.
    fn find(&self, name: &str) -> Option<usize>
        ensures number { result ≡ node_named name.now self.now }
        ensures within { IfSome result (λ n. n < length self.now) }
        ensures few { length self.now ≤ MOST_NODES }
    {
        self.names.get_index_of(name.as_bytes())
    }

    /// The parent of a node of a new name.
    #[tactic(auto, unfolding(crate::specs::Reading::placed))]
    pub(crate) fn placed(&self, name: &str, after: Option<&str>) -> Result<Option<NodeNo>, PlanKind>
        ensures parent { Gives (λ parent. parent) result
            (placed self.now name.now (option_map (λ text. text.now) after.entry)) }
        ensures within { IfOk result (λ parent. IfSome parent (λ p. p.0 < length self.now)) }
    {
        if self.find(name).is_some() {
            return Err(PlanKind::DuplicateName);
        }
        let Some(after) = after else {
            return Ok(None);
        };
        match self.find(after) {
            Some(n) => Ok(Some(NodeNo(n as u32))),
            None => Err(PlanKind::UnknownParent),
        }
    }

    /// The size of the path to a parent.
    fn path_at(&self, parent: Option<NodeNo>) -> PathSize
        requires { IfSome parent (λ p. p.0 < length self.now) }
        ensures path { result ≡ at_parent no_path (path_sizes self.now) parent }
        ensures small { (result.nodes ≤ MOST_DEPTH) × (result.bytes ≤ LONGEST_PATH) }
    {
        let Some(parent) = parent else {
            return PathSize { nodes: 0, bytes: 0 };
        };
        self.paths[parent.0 as usize]
    }

    /// The size of the path to a node after those read so far.
    fn path_to(&self, node: &Node) -> PathSize
        requires { IfSome node.now.parent (λ p. p.0 < length self.now) }
        ensures { result ≡ path_to self.now node.now }
    {
        let path = self.path_at(node.parent);
        PathSize {
            nodes: path.nodes + 1,
            bytes: path.bytes + node.segment.bytes().len(),
        }
    }

    /// The node, unless it is too long or too deep.
    #[tactic(auto, unfolding(crate::specs::Reading::bounded))]
    pub(crate) fn bounded(&self, node: Node) -> Result<Node, PlanKind>
        requires { IfSome node.parent (λ p. p.0 < length self.now) }
        ensures { Gives (λ node. node) result (bounded self.now node) }
    {
        let path = self.path_to(&node);
        if node.segment.bytes().len() > LONGEST_SEGMENT
            || path.bytes > LONGEST_PATH
            || is_long(&node.expect)
        {
            return Err(PlanKind::TooLong);
        }
        if path.nodes > MOST_DEPTH {
            return Err(PlanKind::TooDeep);
        }
        Ok(node)
    }

    /// Adds a node after those read so far.
    pub(crate) fn with(self, alloc: Global, node: Node) -> Result<Reader, PlanKind>
        requires fits { IsNodeAfter self node }
        requires few { length self < MOST_NODES }
        ensures ok { IfOk result (λ reader. reader ≡ self ++ node ∷ []) }
        ensures length { IfOk result (λ reader. length reader ≡ length self + 1) }
        ensures err { IfErr result (λ kind. kind ≡ kinds.Memory) }
    {
        let path = self.path_to(&node);
        let Reader {
            mut nodes,
            mut names,
            mut paths,
        } = self;
        names.insert(Vec::from_slice(alloc, node.name.bytes())?)?;
        paths.push(path)?;
        nodes.push(node)?;
        Ok(Reader {
            nodes,
            names,
            paths,
        })
    }

    /// How many nodes were read.
    pub(crate) fn len(&self) -> usize
        ensures { result ≡ length self.now }
    {
        self.nodes.len()
    }

    /// The plan of the nodes, if one of them is a test.
    pub(crate) fn plan(self) -> Result<Plan, PlanFault>
        requires { 0 < length self }
        ensures plan { Reads (λ plan. plan) result (if_tested self) }
        ensures memory { IfErr result (λ fault. fault.kind ≢ kinds.Memory) }
    {
        if has_test(&self.nodes) {
            Ok(Plan { nodes: self.nodes })
        } else {
            Err(PlanFault {
                kind: PlanKind::NoTest,
                node: None,
            })
        }
    }
}
