//! One turn of a run, on the words of its state.
//!
//! It stands on vf_base, vf_machine and vf_design. `turn` on the words of a sound state gives the
//! words, text, header and mark of the definition's turn, and `reads_next` tells exactly whether that
//! turn reads the stimulus; the layers above use these two contracts and nothing else.
#![tactic(auto)]

mod instruction;
mod kernel;
mod state;
mod write;

pub use kernel::{reads_next, turn};
pub use vf_design::{Mark, Turn, Words};
