//! The farm as a machine, and its lawful journal: what the book of jobs and images is proved against.
//!
//! It stands on vf_base, vf_machine, vf_plan and vf_jobs. The definitions in `specs/` are over any
//! machine and name no page's content, no frame and no word: what is known of jobs and images
//! (`Records`), the entries of a journal and their effects, lawful journals, and the farm that runs
//! jobs by events. The laws over them are the contracts of the functions of `laws` (docs/FARM.md, "The
//! farm", "The journal").
#![tactic(auto)]

mod entry;
pub mod laws;

pub use entry::{Entry, JobState, Kind, Told};
