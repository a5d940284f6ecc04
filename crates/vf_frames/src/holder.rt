use std::collections::LinkedList;

/// What names a pool: its number of frames, and further numbers that tell its memory from that of
/// other pools, where there are some. Contracts alone speak of it, and no value is ever made.
#[derive(Debug, Drop)]
pub struct Name {
    pub frames: u64,
    pub table: LinkedList<u64>,
}

/// What one step of a token saw of a frame: the frame, its count at that step, and whether the step
/// claimed the frame. Contracts alone speak of it, and no value is ever made.
#[derive(Debug, Drop)]
pub struct Note {
    pub frame: u64,
    pub seen: u64,
    pub won: bool,
}

/// What a token shows of its holder. Contracts alone speak of it, and no value is ever made.
#[derive(Debug, Drop)]
pub struct Holder {
    /// Its frames: different numbers that rise, each below the number of frames of the pool.
    pub frames: LinkedList<u64>,
    /// How many of its claims found no frame; it stands still at 2^64 - 1.
    pub misses: u64,
    /// Its parts of the pool, at least one. All tokens of a pool have 2^62 parts together.
    pub parts: u64,
    /// What its steps saw of frames, in their order, where the token tells it.
    pub notes: Option<LinkedList<Note>>,
    /// The name of its pool.
    pub name: Name,
}
