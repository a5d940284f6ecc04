//! Where the words of a state stand (docs/LANGUAGE.md, "The words of a state"). Addresses count words
//! from 0.

/// The simulation time.
pub const TIME: u32 = 0;

/// The running process + 1, or 0.
pub const RUNNING: u32 = 1;

/// The first item of the active list + 1, or 0.
pub const ACTIVE_HEAD: u32 = 2;

/// The last item of the active list + 1, or 0.
pub const ACTIVE_TAIL: u32 = 3;

/// The first item of the inactive list + 1, or 0.
pub const INACTIVE_HEAD: u32 = 4;

/// The last item of the inactive list + 1, or 0.
pub const INACTIVE_TAIL: u32 = 5;

/// The first item of the update list + 1, or 0.
pub const UPDATE_HEAD: u32 = 6;

/// The last item of the update list + 1, or 0.
pub const UPDATE_TAIL: u32 = 7;

/// The first item of the future list + 1, or 0.
pub const FUTURE_HEAD: u32 = 8;

/// The first item of the strobe list + 1, or 0.
pub const STROBE_HEAD: u32 = 9;

/// The last item of the strobe list + 1, or 0.
pub const STROBE_TAIL: u32 = 10;

/// The monitor's show + 1, or 0.
pub const MONITOR: u32 = 11;

/// 1 where the monitor is due, else 0.
pub const MONITOR_DUE: u32 = 12;

/// The first word of the processes.
pub const PROCESSES: u32 = 16;

/// How many words a process has.
pub const PROCESS_WORDS: u32 = 4;

/// The word of a process that holds its place in the code.
pub const PLACE: u32 = 0;

/// The word of a process that holds its status.
pub const STATUS: u32 = 1;

/// The word of a process that holds its link in a list.
pub const LINK: u32 = 2;

/// The word of a process that holds the time that it waits for.
pub const WAKE: u32 = 3;

/// The first word of the values, after the one process of an early design.
pub const VALUES: u32 = 20;

/// The word of a value that holds its bits that are 1 or x.
pub const ONES: u32 = 0;

/// The word of a value that holds its bits that are x or z.
pub const UNKNOWN: u32 = 1;

/// The first word of the event slots, after the one value of an early design.
pub const SLOTS: u32 = 22;

/// How many words an event slot has.
pub const SLOT_WORDS: u32 = 8;
