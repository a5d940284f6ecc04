use vf_base::Job;

/// Which job comes next.
#[derive(Clone, Copy, Debug, PartialEq, Eq)]
pub enum Next {
    /// The first ready job.
    Job(Job),
    /// No job is ready now, and some job is not over.
    Later,
    /// Every job is over.
    Done,
}
