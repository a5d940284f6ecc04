//! Plans: the tree of tests that the farm runs, read exactly from JSON (docs/FORMATS.md, "The plan").
//!
//! It stands on vf_base, serde_json, hex, indexmap and thiserror. The layers above use `read_plan`, whose answer
//! is just that of `plan_of` in `specs/Reading.antt`, the first fault included; `Plan`, which keeps its rules
//! in its type; and `joined`, the stimulus of a node. What the jobs of a plan are is said in vf_jobs.
#![tactic(auto)]

mod fault;
mod form;
mod json;
pub mod limits;
mod plan;
mod read;
mod reader;

pub use fault::{PlanFault, PlanKind};
pub use plan::{Node, Plan, joined};
pub use read::read_plan;
