//! The node of a job.

ghost use Rattle.std.specs.Prelude.{◌≡◌};
ghost use Rattle.vf_jobs.specs.Jobs.{node_of};

use vf_base::{Job, NodeNo};

/// The node that a job reaches, or whose test it finishes.
pub fn node_of(job: Job) -> NodeNo
    ensures { result.0 ≡ node_of job }
{
    match job {
        Job::Reach(node) => node,
        Job::Finish(node) => node,
    }
}
