//! What the jobs of a plan mean: the setup that a farm's runs are given, subtrees, limits, save points, kinds,
//! when a job is ready, what may serve it, and which runs come to the same (docs/FARM.md, "Jobs and their
//! limits", "Save points and kinds", "Copies").
//!
//! It stands on vf_base, vf_machine, vf_design and vf_plan. The layers above use `Setup`, which keeps its rules
//! in its type; `node_of`, the node of a job; `limits_of`, its limits; `is_below`, whether a node stands in the subtree of
//! another; the definitions in `specs/`, which are over any machine; and their laws, each of which is the
//! contract of a function of `laws`.
#![tactic(auto)]

mod job;
pub mod laws;
mod limits;
mod setup;
mod subtree;

pub use job::node_of;
pub use setup::{MOST_BUDGET, Order, Setup, limits_of};
pub use subtree::is_below;
