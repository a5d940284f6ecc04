//! Where the words of a state stand (docs/LANGUAGE.md, "The words of a state"). Addresses count words from 0.

/// How many words the front of a state has: the time, the running process, the ends of the lists, the monitor.
pub const FRONT_WORDS: u32 = 16;

/// How many words a process has.
pub const PROCESS_WORDS: u32 = 4;
