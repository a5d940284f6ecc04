use vf_base::{Job, NodeNo, Outcome};

/// What is known of the kind of a node (docs/FARM.md, "Save points and kinds").
#[derive(Clone, Copy, Debug, PartialEq, Eq)]
pub enum Kind {
    /// The job that reaches the node is not over yet.
    Unknown,
    /// Its save point is after so many turns.
    Saved(u64),
    /// A read past the node's stimulus came before any save point.
    Passed,
    /// The run ended first.
    Ended,
    /// The run passed the budget first.
    Over,
    /// The job that reaches the node was lost when memory ran out.
    Lost,
}

/// How far a job has come.
#[derive(Clone, Copy, Debug, PartialEq, Eq)]
pub enum JobState {
    /// It waits for a kind to be known.
    Waiting,
    /// It may start.
    Ready,
    Running,
    /// Its attempt was given up when no frame was free and no image was held. It is ready again after
    /// the rest.
    Deferred,
    Over,
}

/// What a job that is over tells.
#[derive(Debug, Drop)]
pub enum Told {
    /// The outcome of its own run.
    Own(Outcome),
    /// The outcome of the job that reaches the node.
    Copied(NodeNo),
    /// Nothing: memory ran out.
    Lost,
}

/// An entry of the journal. Turns are counted from time zero.
#[derive(Clone, Copy, Debug, PartialEq, Eq)]
pub enum Entry {
    /// A job starts from the image of a node, or from time zero.
    Start(Job, Option<NodeNo>),
    /// The job that reaches the node is over at its save point, and an image is held. `pages` counts
    /// the image's own pages, and an incremental image has a `base`.
    Saved {
        node: NodeNo,
        turn: u64,
        pages: u32,
        base: Option<NodeNo>,
    },
    /// The job that reaches the node is over: the next turn would read past the node's stimulus.
    Pass {
        node: NodeNo,
        turn: u64,
    },
    /// A job is over with the ending of its run. `turn` counts the turns of its outcome.
    End {
        job: Job,
        turn: u64,
    },
    /// A job is over: the turn after `turn` would bring its touched pages to `pages`, above the budget.
    Pages {
        job: Job,
        turn: u64,
        pages: u32,
    },
    /// A job is over with the outcome of the job that reaches the node.
    Copy(Job, NodeNo),
    /// A job is over without an outcome: memory ran out. A job that had not started is at turn 0.
    Lost {
        job: Job,
        turn: u64,
    },
    /// A job's attempt is given up: no frame is free and no image is held.
    Short {
        job: Job,
        turn: u64,
    },
    /// An image is given back for its frames.
    Evict(NodeNo),
    /// An image is given back, since no job below its node is left.
    Retire(NodeNo),
    /// All workers have ended: the images are given back, and deferred jobs are ready again.
    Rest,
}
