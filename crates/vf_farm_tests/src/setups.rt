//! What the runs of a farm are given, its jobs, and their limits.

ghost use Rattle.std.specs.Prelude.{◌<◌, length, IfSome};
ghost use Rattle.std.specs.Arc.{arc_value};
ghost use Rattle.vf_jobs.specs.Jobs.{node_of};

use std::alloc::Global;
use std::sync::Arc;
use vf_base::{Job, Limits, Memory, NodeNo};
use vf_early::early_design;
use vf_jobs::{Order, Setup, limits_of};
use vf_plan::read_plan;

/// Pages that a run may touch, and slots of a design.
const BUDGET: u32 = 8;

const SLOTS: u32 = 2;

/// What the runs of a farm are given, or what is wrong with it.
pub fn setup(
    alloc: Global,
    design: &str,
    plan: &str,
    limits: Limits,
) -> Result<Result<Arc<Setup>, &'static str>, Memory> {
    if limits.turns < 1 || limits.turns > 4_294_967_296 || limits.output > 262_144 {
        return Ok(Err("no limits"));
    }
    let Ok(design) = early_design(alloc, design.as_bytes(), SLOTS) else {
        return Ok(Err("no design"));
    };
    let Ok(plan) = read_plan(alloc, plan.as_bytes()) else {
        return Ok(Err("no plan"));
    };
    let setup = Setup::new(alloc, design, plan, limits, BUDGET, Order::Oldest)?;
    Ok(Ok(Arc::new(alloc, setup)?))
}

/// The job, if its node is one of the plan.
pub fn planned(setup: &Arc<Setup>, job: Job) -> Option<Job>
    ensures { IfSome result (λ job. node_of job < length (arc_value setup.now).plan) }
{
    let node = match job {
        Job::Reach(node) => node,
        Job::Finish(node) => node,
    };
    if (node.0 as usize) < setup.plan.nodes.len() {
        Some(job)
    } else {
        None
    }
}

/// The job that a row names.
pub fn named(told: &str) -> Job {
    let (word, node) = told.split_once(' ').unwrap_or((told, ""));
    let node = NodeNo(node.parse::<u32>().unwrap_or(u32::MAX));
    if word == "reach" {
        Job::Reach(node)
    } else {
        Job::Finish(node)
    }
}

/// A job as a row names it.
pub fn job_text(alloc: Global, job: Job) -> Result<String, Memory> {
    match job {
        Job::Reach(node) => Ok(format!(in alloc; "reach {}", node.0)?),
        Job::Finish(node) => Ok(format!(in alloc; "finish {}", node.0)?),
    }
}

/// The limits of a job.
pub fn limits_text(alloc: Global, setup: &Arc<Setup>, told: &str) -> Result<String, Memory> {
    let Some(job) = planned(setup, named(told)) else {
        return Ok(String::from_str(alloc, "no job")?);
    };
    let limits = limits_of(setup, job);
    Ok(format!(in alloc; "{} {}", limits.turns, limits.output)?)
}
