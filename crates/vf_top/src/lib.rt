//! The top call: all that the program does, over a shelf of files, two outputs and a step counter that
//! are handed in.
//!
//! It stands on vf_base, vf_machine, vf_ports, vf_design, vf_early, vf_plan, vf_jobs, vf_journal, vf_records,
//! vf_here, vf_solo, vf_report, vf_words and thiserror. `command_here` is the theorem of the program
//! (docs/FARM.md, "The top call"), in one clause, `Promised` of `specs/Promise.antt`: each line of the report
//! is that of the test run alone from time zero, the journal is that of a farm that shared what the tests
//! have in common, and each other answer has its exact cause.
#![tactic(auto)]

mod accept;
mod command;
mod limits;
mod lines;
mod modes;
mod refusal;

pub use command::{command_here, tell};
pub use refusal::{Refusal, What};
