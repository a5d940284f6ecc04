use vf_base::{Header, NodeNo};

/// An attempt at a job: the image that it started from, if any; the full image that this one is or is
/// based on; and the turn at which it started, 0 at time zero.
#[derive(Clone, Copy, Debug, PartialEq, Eq)]
pub struct Attempt {
    pub origin: Option<NodeNo>,
    pub full: Option<NodeNo>,
    pub since: u64,
}

/// An image that is held: the save point of its node, with the counts of the run there and so many pages
/// of its own. An incremental one has a full image as its base.
#[derive(Clone, Copy, Debug, PartialEq, Eq)]
pub struct HeldImage {
    pub node: NodeNo,
    pub counts: Header,
    pub pages: u32,
    pub base: Option<NodeNo>,
}

/// How far a job has come. An idle one waits or is ready.
#[derive(Clone, Copy)]
pub(crate) enum Progress {
    Idle,
    Running(Attempt),
    Over,
}
