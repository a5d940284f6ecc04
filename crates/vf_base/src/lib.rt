//! Numbers, names, limits and endings: the words that every other crate of vfarm shares.
//!
//! It stands on std and itoa. The layers above rest on this: decimal is read and written exactly, a
//! `Text` is its bytes, and a step counter's parts and count change by `tick`, `split` and `join`
//! alone.
#![tactic(auto)]

mod decimal;
mod memory;
mod names;
mod run;
mod steps;
mod text;
mod write;

pub use decimal::{read_decimal, write_decimal};
pub use memory::Memory;
pub use names::{Job, NodeNo, Place, SigNo};
pub use run::{Ending, Header, Limits, Outcome, SaveKind};
pub use steps::Steps;
pub use text::Text;
pub use write::{PAGE_WORDS, Write};
