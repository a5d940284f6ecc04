//! The limits of a plan (docs/FORMATS.md, "The plan").

/// How many nodes a plan may have.
pub const MOST_NODES: usize = 4096;

/// How many nodes may be on a path, from the root to a node.
pub const MOST_DEPTH: usize = 64;

/// How long a name may be, in bytes.
pub const LONGEST_NAME: usize = 64;

/// How long a segment may be, in bytes.
pub const LONGEST_SEGMENT: usize = 65_536;

/// How many bytes the segments of a path may have together.
pub const LONGEST_PATH: usize = 1_048_576;

/// How long an expectation may be, in bytes.
pub const LONGEST_EXPECTATION: usize = 262_144;

/// The highest limit on turns that a test may have.
pub const MOST_TURNS: u64 = 4_294_967_296;

/// The highest limit on bytes written that a test may have.
pub const MOST_OUTPUT: u64 = 262_144;
