//! The ranges of the options that take a number, and what stands where one is left out
//! (docs/FORMATS.md, "Command words").

use vf_jobs::MOST_BUDGET;
use vf_plan::limits::{MOST_OUTPUT, MOST_TURNS};

/// The numbers that an option takes, both ends among them, and the number that stands where the
/// option is left out.
#[derive(Clone, Copy, Debug, PartialEq, Eq)]
pub struct Numbers {
    pub least: u64,
    pub most: u64,
    pub default: u64,
}

/// `--workers`: how many workers run tests side by side.
pub const WORKERS: Numbers = Numbers {
    least: 1,
    most: 16,
    default: 1,
};

/// `--pages`: how many pages of 64 words may be held at a time.
pub const PAGES: Numbers = Numbers {
    least: 1,
    most: MOST_BUDGET as u64,
    default: 65_536,
};

/// `--turns`: the limit on turns of a test that has none of its own.
pub const TURNS: Numbers = Numbers {
    least: 1,
    most: MOST_TURNS,
    default: 1_000_000,
};

/// `--output`: the limit on bytes written of a test that has none of its own.
pub const OUTPUT: Numbers = Numbers {
    least: 0,
    most: MOST_OUTPUT,
    default: 65_536,
};

/// `--slots`: how many event slots the design has.
pub const SLOTS: Numbers = Numbers {
    least: 1,
    most: 16_384,
    default: 1024,
};

/// `--number`: the number of the made design.
pub const NUMBER: Numbers = Numbers {
    least: 0,
    most: 4_294_967_295,
    default: 0,
};
