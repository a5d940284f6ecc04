use vf_base::{Ending, SaveKind};

/// Why a run stops.
#[derive(Clone, Copy, Debug, PartialEq, Eq)]
pub enum Stop {
    /// The run that reaches a node is at the node's save point, with this kind of checkpoint.
    AtSave(SaveKind),
    /// The run that reaches a node would read past the node's stimulus next.
    ReadPast,
    /// The next turn ends the run, with so many turns counted: the ending turn with them where it counts.
    Ended { ending: Ending, turns: u64 },
    /// No frame was free for the next turn, with which the run would have touched so many pages.
    Short(u32),
    /// Memory ran out.
    Memory,
}
