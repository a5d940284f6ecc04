//! A run and the solo run, over any machine: the definitions that the farm is proved against, and
//! the laws over them.
//!
//! It stands on vf_base. A machine is a record of plain functions (`specs/Machine.antt`); a design is
//! made one by a crate above. The layers above use the definitions in `specs/`, and the laws, each of
//! which is the contract of a function of `laws`. [`Words`] is how a turn reads the words of a state.
#![tactic(auto)]

pub mod laws;
mod mark;
mod words;

pub use mark::Mark;
pub use words::Words;
