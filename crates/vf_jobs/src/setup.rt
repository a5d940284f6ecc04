ghost use Rattle.std.specs.Prelude.{◌≡◌, ◌<◌, ◌≤◌, length, IfOk};
ghost use Rattle.vf_design.specs.Words.{machine_of};
ghost use Rattle.vf_jobs.specs.Jobs.{node_of};
ghost use Rattle.vf_jobs.specs.Limits.{limits_of};
ghost use Rattle.vf_jobs.specs.Setup.{IsInRange, IsSetup, words_at_start};

use crate::limits::{limits_of_test, reach_limits};
use std::alloc::Global;
use std::marker::Model;
use std::sync::Arc;
use vf_base::{Job, Limits, Memory};
use vf_design::{Design, words_at_zero};
use vf_plan::Plan;

/// The highest page budget of a setup.
pub const MOST_BUDGET: u32 = 1_048_576;

/// Which image is given back first where frames are wanted.
#[derive(Clone, Copy, Debug, PartialEq, Eq)]
pub enum Order {
    /// The one that was saved first.
    Oldest,
    /// The one of the deepest node.
    Deepest,
    /// The one with the most pages of its own.
    Widest,
}

/// All that a farm's runs are given. It keeps in its type that `zero` is the design's words at time
/// zero, and that limits and budget are in their ranges.
#[derive(Drop)]
pub struct Setup {
    pub design: Design,
    pub plan: Plan,
    /// The limits of a test that has none of its own: 1 to 2^32 turns, 0 to 262,144 bytes.
    pub limits: Limits,
    /// How many pages a run may touch, 1 to 2^20.
    pub budget: u32,
    pub order: Order,
    /// The words at time zero.
    pub zero: Arc<Vec<u64>>,
    /// The limits of the jobs that reach the nodes, by node number.
    reach: Vec<Limits>,
}

impl Model for Setup {
    ghost use Rattle.vf_jobs.specs.Setup.{Conditions};

    ghost Value = { Conditions };

    ghost use Rattle.vf_jobs.specs.SetupInner.{conditions_of, IsKept};

    ghost view = { conditions_of };

    ghost invariant = { IsKept };
}

impl Setup {
    /// All that runs of a design by a plan are given.
    pub fn new(
        alloc: Global,
        design: Design,
        plan: Plan,
        limits: Limits,
        budget: u32,
        order: Order,
    ) -> Result<Setup, Memory>
        requires limits { IsInRange limits }
        requires budget { (1 ≤ budget) × (budget ≤ MOST_BUDGET) }
        ensures { IfOk result (λ setup. setup ≡ record {
          design = design;
          plan = plan;
          limits = limits;
          budget = budget;
          order = order;
          zero = words_at_start (machine_of design);
        }) }
    {
        let zero = words_at_zero(alloc, &design)?;
        let reach = reach_limits(alloc, &plan.nodes, limits)?;
        let zero = Arc::new(alloc, zero)?;
        Ok(Setup {
            design,
            plan,
            limits,
            budget,
            order,
            zero,
            reach,
        })
    }
}

/// The limits of a job, from the test itself or the table.
fn found_limits(setup: &Setup, job: Job) -> Limits
    requires { node_of job < length setup.now.plan }
    ensures limits { result ≡ limits_of setup.now.limits setup.now.plan job }
    ensures kept { IsSetup setup.now }
{
    match job {
        Job::Reach(node) => setup.reach[node.0 as usize],
        Job::Finish(node) => limits_of_test(&setup.plan.nodes[node.0 as usize], setup.limits),
    }
}

/// The limits of a job of the plan: a test's own, where it has them, and those of the setup; and the
/// greatest of the tests below for a job that reaches a node, of a leaf too. It takes no memory.
pub fn limits_of(setup: &Setup, job: Job) -> Limits
    requires { node_of job < length setup.now.plan }
    ensures limits { result ≡ limits_of setup.now.limits setup.now.plan job }
    ensures range { IsInRange result }
{
    found_limits(setup, job)
}
