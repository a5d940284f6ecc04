/// A place in a design file. Both numbers count from 1, and a column counts bytes.
#[derive(Clone, Copy, Debug, PartialEq, Eq)]
pub struct Place {
    pub line: u32,
    pub column: u32,
}

/// The number of a plan's node, from 0 in the order of the plan.
#[derive(Clone, Copy, Debug, PartialEq, Eq)]
pub struct NodeNo(pub u32);

/// The number of a design's signal, from 0 in the order of declaration.
#[derive(Clone, Copy, Debug, PartialEq, Eq)]
pub struct SigNo(pub u32);

/// A job of the farm: a run towards the checkpoint of a node, or the run of a test to its end.
#[derive(Clone, Copy, Debug, PartialEq, Eq)]
pub enum Job {
    Reach(NodeNo),
    Finish(NodeNo),
}
