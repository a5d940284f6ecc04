use vf_base::{Limits, Text};
use vf_jobs::Order;

/// What the program does with the design and the plan.
#[derive(Clone, Copy, Debug, PartialEq, Eq)]
pub enum Mode {
    /// Runs every test and reports.
    Run,
    /// Reads the design and the plan, and tells their sizes.
    Check,
    /// Runs one test alone, from time zero.
    Solo,
    /// Runs a design and a plan of the program's own. No word asks for it yet.
    Make,
}

/// The work that a command line asks for (docs/FORMATS.md, "Command words"). Each number is in its
/// range.
#[derive(Debug, Drop)]
pub struct Command {
    pub mode: Mode,
    /// How many workers run tests side by side, 1 to 16.
    pub workers: u32,
    /// How many pages of 64 words may be held at a time, and how many a test may touch, 1 to 2^20.
    pub pages: u32,
    /// The limits of a test that has none of its own: 1 to 2^32 turns, 0 to 262,144 bytes written.
    pub limits: Limits,
    /// How many event slots the design has, 1 to 16,384.
    pub slots: u32,
    /// Which checkpoint is given back first where pages are wanted.
    pub order: Order,
    /// Whether the journal follows the report.
    pub journal: bool,
    /// The name of the top module, where the command line gives one. Any text, the empty one too.
    pub top: Option<Text>,
    /// The name of the test that mode solo runs; it is there exactly in that mode. Any text.
    pub test: Option<Text>,
    /// The number of the made design, 0 to 2^32 - 1.
    pub number: u32,
    /// The names of the design's file and the plan's; none exactly in mode make.
    pub files: Option<(Text, Text)>,
}

/// What a command line asks for.
#[derive(Debug, Drop)]
pub enum Asked {
    /// The help page: the first word is `--help` or `-h`.
    Help,
    /// The version: the first word is `--version` or `-V`.
    Version,
    /// Work.
    Work(Command),
}
