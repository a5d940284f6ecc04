//! The number at the front of a text, and runs of bytes of one class.
//!
//! It stands on vf_fours (the values of numbers) and thiserror, and takes no memory. The layer above, which reads one lexeme,
//! rests on the contract of [`number`]: its answer is the number at the front of the text by `specs/Numbers.antt` with what follows it, or
//! its fault (docs/LANGUAGE.md, "Text and tokens"; IEEE Std 1364-2005, clause 3.5). At most one of these stands at the front
//! of a text, and one does wherever a number begins ([`laws`]). All layers above also rest on the contracts of
//! [`ByteClass::split`] and [`ByteClass::skip`], which cut a run of bytes off a text, with classes of their own, and on that of
//! [`begins_with`]. The lemmas for their proofs are those of `proofs/CallerLemmas.antt`.
#![tactic(auto)]

mod bases;
mod classes;
mod fault;
pub mod laws;
mod numbers;
mod runs;

pub use classes::{begins_number, is_blank, is_digit};
pub use fault::NumberFault;
pub use numbers::number;
pub use runs::{ByteClass, begins_with};
