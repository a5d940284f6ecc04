//! What the end of a run that reaches a node means for the jobs below it.

ghost use Rattle.std.specs.Prelude.{◌≡◌};
ghost use Rattle.vf_jobs.specs.Jobs.{fits};
ghost use Rattle.vf_records.specs.Spreads.{fits_with, spread_from};

use vf_base::{Header, Job, Limits, NodeNo};
use vf_journal::Kind;

/// How a run that reaches a node ended.
#[derive(Clone, Copy)]
pub(crate) enum Reached {
    /// With these counts.
    Ending(Header),
    /// The turn after so many passed the budget, under these limits.
    Passing { turns: u64, limits: Limits },
}

/// The end of a run that reaches a node: the node, the kind that the nodes below it have too, and how it
/// ended.
#[derive(Clone, Copy)]
pub(crate) struct Spread {
    pub(crate) node: NodeNo,
    pub(crate) kind: Kind,
    pub(crate) reached: Reached,
}

/// Whether counts are within limits.
pub(crate) fn fits(limits: Limits, counts: Header) -> bool
    ensures { result ≡ fits limits counts }
{
    counts.turns <= limits.turns && counts.written <= limits.output
}

impl Reached {
    /// Whether a run with these limits ends in the same way.
    pub(crate) fn fits(self, limits: Limits) -> bool
        ensures { result ≡ fits_with self limits }
    {
        match self {
            Reached::Ending(counts) => fits(limits, counts),
            Reached::Passing {
                turns,
                limits: of_run,
            } => turns < limits.turns && limits.output == of_run.output,
        }
    }
}

/// What the end of a job's run spreads, where the run is one that reaches a node.
pub(crate) fn spread_of(job: Job, kind: Kind, reached: Reached) -> Option<Spread>
    ensures { result ≡ spread_from job kind reached }
{
    match job {
        Job::Reach(node) => Some(Spread {
            node,
            kind,
            reached,
        }),
        Job::Finish(_) => None,
    }
}
