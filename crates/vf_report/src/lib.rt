//! The lines of a report.
//!
//! It stands on vf_base, vf_machine, vf_design, vf_plan, vf_jobs, vf_journal, vf_records and hex. The layers above rest on this:
//! `test_line` and `summary_line` write exactly the lines that docs/FORMATS.md, "Report" gives, `journal_text`
//! those of "The journal", a `Summary` to which tests are added one by one is the summary of their list, and
//! `farm_report` makes the whole report of a farm's records.
#![tactic(auto)]

mod check;
mod farm;
mod journal;
pub mod laws;
mod line;
mod summary;
mod write;

pub use check::{Sizes, check_line};
pub use farm::{Report, farm_report, solo_report};
pub use journal::journal_text;
pub use line::test_line;
pub use summary::{Summary, summary_line};
