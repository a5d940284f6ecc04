//! The addresses at the front of a state (docs/LANGUAGE.md, "The words of a state"): the head of each list, with its tail in the
//! next word.

pub const TIME: u32 = 0;

pub const RUNNING: u32 = 1;

pub const ACTIVE: u32 = 2;

pub const INACTIVE: u32 = 4;

pub const NONBLOCKING: u32 = 6;
/// The future has no tail.
pub const FUTURE: u32 = 8;

pub const STROBES: u32 = 9;

pub const MONITOR: u32 = 11;

pub const DUE: u32 = 12;
