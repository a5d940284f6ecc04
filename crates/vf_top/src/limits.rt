//! The limits of files (docs/FORMATS.md, "Statuses and fault lines").

/// The most bytes of a design's file, 1 MiB.
pub const LONGEST_DESIGN: u64 = 1_048_576;

/// The most bytes of a plan's file, 64 MiB.
pub const LONGEST_PLAN: u64 = 67_108_864;
