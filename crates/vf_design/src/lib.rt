//! The elaborated design, the layout of its state in 64-bit words, and the design as a machine.
//!
//! It stands on vf_base and vf_machine. It holds the early designs: one process over one integer,
//! whose bytes come from `$fgetc` (docs/LANGUAGE.md, "Early designs"). The layers above use the
//! definitions of state, step and words in `specs/`, the machine of a design, and these clauses: the
//! number of words and the words at zero are those of the layout.
#![tactic(auto)]

mod code;
mod design;
pub mod laws;
pub mod layout;
mod turn;

pub use code::{Condition, Instr};
pub use design::{Design, words_at_zero};
pub use turn::Turn;
pub use vf_machine::{Mark, Words};
