//! Reads an early design: one module with one integer and one process of few statements
//! (docs/LANGUAGE.md, "Early designs"). The crate goes away once the front end of the whole language
//! stands.
//!
//! It stands on vf_base and vf_design. The layer above rests on the contract of [`early_design`]: the
//! design is the one that the bytes spell, and it is refused only where they spell none.
#![tactic(auto)]

mod fault;
pub mod laws;
mod read;
mod scan;
mod words;

pub use fault::EarlyFault;
pub use read::early_design;
