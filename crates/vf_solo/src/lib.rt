//! The solo run: one design on one stimulus, from time zero to its end, over one flat list of words.
//!
//! It stands on vf_base, vf_machine, vf_design and vf_kernel. The layers above use one contract:
//! `solo` answers exactly the solo run's outcome, its budget of pages included, and the step counter
//! moves by the turns performed.
#![tactic(auto)]

mod flat;
mod lone;
mod touched;

pub use lone::solo;

#[cfg(test)]
mod tests;
