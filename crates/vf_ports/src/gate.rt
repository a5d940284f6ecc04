use vf_base::Job;

/// Is told when a worker begins and ends a job. It has no effect on any answer.
pub trait Gate {
    /// The job has started and its first turn is to come.
    fn enter(&self, job: Job);

    /// The attempt is over and the book is put back.
    fn leave(&self, job: Job);
}

/// A gate that does nothing.
#[derive(Clone, Copy, Debug, PartialEq, Eq)]
pub struct OpenGate;

impl Gate for OpenGate {
    fn enter(&self, _job: Job) {}

    fn leave(&self, _job: Job) {}
}
