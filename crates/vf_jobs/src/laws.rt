//! The laws of plans and their runs, each the contract of a function that does nothing. A type
//! parameter stands for the states of a machine, so each law is of every machine.

ghost use Rattle.vf_machine.specs.Machine.{Machine};
ghost use Rattle.vf_jobs.specs.Copies.{EndingIsCopied, PassingIsCopied};
ghost use Rattle.vf_jobs.specs.Jobs.{FitsAbove};
ghost use Rattle.vf_jobs.specs.Kinds.{HasOneKind, SharesItsSavePoint};
ghost use Rattle.vf_jobs.specs.Limits.{ReachLimitsFall, TestsAreWithin};
ghost use Rattle.vf_jobs.specs.Subtree.{SharesItsRun};

use vf_machine::laws::{prefix_law, run_ends};

/// Up to the read past a node's stimulus its solo run is that of each node below it, so of each test.
pub fn runs_are_shared<S>()
    ensures { (m : Machine S) → SharesItsRun m }
{
    prefix_law::<S>();
}

/// Up to a node's save point its solo run is that of each job below it whose limits the checkpoint
/// fits.
pub fn save_points_are_shared<S>()
    ensures { (m : Machine S) → SharesItsSavePoint m }
{
    prefix_law::<S>();
    run_ends::<S>();
}

/// A limit of the job that reaches a node is never below that of the job that reaches a child of it.
pub fn reach_limits_fall()
    ensures { ReachLimitsFall }
{}

/// A test's limit is never above that of a job that reaches a node on its path.
pub fn tests_are_within()
    ensures { TestsAreWithin }
{}

/// What does not fit the job that reaches a node fits no job below it.
pub fn fits_above()
    ensures { FitsAbove }
{}

/// There is exactly one kind of a node.
pub fn there_is_one_kind<S>()
    ensures { (m : Machine S) → HasOneKind m }
{}

/// Where the run that reaches a node ended before any read past the node's stimulus, every job of the
/// node's subtree that the ending fits has the same outcome, and the nodes that such jobs reach have the
/// same kind.
pub fn endings_are_copied<S>()
    ensures { (m : Machine S) → EndingIsCopied m }
{}

/// Where the run that reaches a node would pass the budget before any read past the node's stimulus, every
/// job of the node's subtree that the passing fits has the same outcome, and the nodes that such jobs reach
/// have the same kind.
pub fn passings_are_copied<S>()
    ensures { (m : Machine S) → PassingIsCopied m }
{}
