//! The whole farm with one worker: one simulator at a time over a plain pool of as many frames as the budget
//! has pages.
//!
//! It stands on vf_base, vf_design, vf_plan, vf_jobs, vf_journal, vf_records, vf_frames, vf_image, vf_run and
//! vf_book. The layer above uses `farm_here`: every job is over, the journal is lawful, every outcome that is
//! told is that of the solo run, and the step counter moved by the turns of the journal (docs/FARM.md, "One
//! worker").
#![tactic(auto)]

mod attempt;
mod farm;

pub use farm::farm_here;
