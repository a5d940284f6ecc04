use crate::Text;

/// What ends a run from outside.
#[derive(Clone, Copy, Debug, PartialEq, Eq)]
pub struct Limits {
    /// The most turns that a run performs, from 1 to 2^32.
    pub turns: u64,
    /// The most bytes that a run writes, up to 262,144.
    pub output: u64,
}

/// What a run has counted so far. It stands outside the words of the state.
#[derive(Clone, Copy, Debug, PartialEq, Eq)]
pub struct Header {
    /// Turns performed.
    pub turns: u64,
    /// Reads of the stimulus, those past its end too.
    pub reads: u64,
    /// Bytes written.
    pub written: u64,
}

/// Which checkpoint a design asked for: `$save` a full one, `$incsave` an incremental one (IEEE Std
/// 1364-2005, Annex C).
#[derive(Clone, Copy, Debug, PartialEq, Eq)]
pub enum SaveKind {
    Full,
    Incr,
}

/// How a run ended.
#[derive(Clone, Copy, Debug, PartialEq, Eq)]
pub enum Ending {
    /// `$finish` with its number.
    Finish(u32),
    /// `$stop` with its number.
    Stop(u32),
    /// No event is left.
    Drained,
    /// The limit on turns was reached.
    Turns,
    /// A turn would have passed the limit on bytes written.
    Output,
    /// A turn wanted more event slots than are free.
    Events,
    /// A delay would have passed the end of simulation time, 2^64 - 1.
    Time,
}

/// What became of a run that had a budget of pages.
#[derive(Debug, Drop)]
pub enum Outcome {
    /// The run ended: its ending, all bytes that it wrote, and how many turns it performed.
    Done {
        ending: Ending,
        text: Text,
        turns: u64,
    },
    /// The run passed its budget: so many pages it had touched with the turn that passed it.
    Pages(u32),
}
