//! Where the jobs of a plan stand in the tables.

ghost use Rattle.std.specs.Prelude.{◌≡◌, ℕ, ◌+◌, ◌<◌, ◌||◌, if◌then◌else◌, List, [], ◌∷◌, ◌++◌, length, get_or, replicate, false, IfOk, OnOk, IfSome};
ghost use Rattle.vf_base.specs.declared.names.NodeNo.{NodeNo};
ghost use Rattle.vf_base.specs.declared.names.Job.{Job};
ghost use Rattle.vf_jobs.specs.Jobs.{has_child, is_child_of, jobs_at, jobs_from};
ghost use Rattle.vf_records.specs.Layout.{IsLaidOut, place_of_node};

use std::alloc::Global;
use vf_base::{Job, Memory, NodeNo};
use vf_plan::{Node, Plan};

/// The places of a node's jobs among the jobs of the plan, where it has them.
#[derive(Clone, Copy)]
pub(crate) struct Place {
    pub(crate) reach: usize,
    pub(crate) finish: usize,
    /// Whether the node has a child.
    pub(crate) inner: bool,
}

/// The jobs of a plan in their order, and the places of each node's jobs.
#[derive(Drop)]
pub(crate) struct Layout {
    pub(crate) jobs: Vec<Job>,
    pub(crate) places: Vec<Place>,
}

/// As many of a thing as asked for.
pub(crate) fn filled<T: Copy + Drop>(
    alloc: Global,
    thing: T,
    count: usize,
) -> Result<Vec<T>, Memory>
    ensures { IfOk result (λ things. things.items ≡ replicate count thing) }
{
    let mut things = Vec::new(alloc);
    for _ in 0..count {
        things.push(thing)?;
    }
    Ok(things)
}

/// Marks a parent.
fn mark(parent: Option<NodeNo>, inner: &mut Vec<bool>)
    requires { IfSome parent (λ p. p.0 < length inner.old.items) }
    ensures marked { (n : ℕ) → get_or inner.new.items n false ≡ (get_or inner.old.items n false || is_child_of n parent) }
    ensures length { length inner.new.items ≡ length inner.old.items }
{
    if let Some(parent) = parent {
        inner[parent.0 as usize] = true;
    }
}

/// Of each node whether it has a child.
fn inner_nodes(alloc: Global, plan: &Plan) -> Result<Vec<bool>, Memory>
    ensures length { IfOk result (λ inner. length inner.items ≡ length plan.now) }
    ensures inner { IfOk result (λ inner. (n : ℕ) → get_or inner.items n false ≡ has_child plan.now n) }
{
    let mut inner = filled(alloc, false, plan.nodes.len())?;
    for at in 0..plan.nodes.len() {
        mark(plan.nodes[at].parent, &mut inner);
    }
    Ok(inner)
}

fn push_if(jobs: &mut Vec<Job>, exists: bool, job: Job) -> Result<(), Memory>
    ensures { OnOk result (jobs.new.items ≡ jobs.old.items ++ (if exists then job ∷ [] else [])) }
{
    if exists {
        jobs.push(job)?;
    }
    Ok(())
}

impl Layout {
    /// Takes in one node more.
    fn take_in(&mut self, node: &Node, inner: bool, at: NodeNo) -> Result<(), Memory>
        ensures jobs { OnOk result (self.new.jobs.items ≡ self.old.jobs.items
            ++ ((if inner then Job.Reach at ∷ [] else []) ++ (if node.now.test then Job.Finish at ∷ [] else []))) }
        ensures places { OnOk result (self.new.places.items ≡ self.old.places.items ++ place_of_node (length self.old.jobs.items) inner ∷ []) }
    {
        let reach = self.jobs.len();
        push_if(&mut self.jobs, inner, Job::Reach(at))?;
        let finish = self.jobs.len();
        push_if(&mut self.jobs, node.test, Job::Finish(at))?;
        self.places.push(Place {
            reach,
            finish,
            inner,
        })?;
        Ok(())
    }

    /// The jobs of a plan.
    pub(crate) fn new(alloc: Global, plan: &Plan) -> Result<Layout, Memory>
        ensures { IfOk result (λ layout. IsLaidOut plan.now (length plan.now) layout.jobs.items layout.places.items) }
    {
        let inner = inner_nodes(alloc, plan)?;
        let mut layout = Layout {
            jobs: Vec::new(alloc),
            places: Vec::new(alloc),
        };
        for at in 0..plan.nodes.len() {
            layout.take_in(&plan.nodes[at], inner[at], NodeNo(at as u32))?;
        }
        Ok(layout)
    }
}
