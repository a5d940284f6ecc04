//! The text of a macro on its lines: where it ends, and what its bytes count as.
//!
//! It stands on vf_base (out of memory), vf_number (the first byte of a text) and vf_lexeme, which passes over a string and the
//! rest of a line. The layer above, which reads a whole text with its directives, rests on the contract of [`macro_text`]: its
//! answer is the text of a macro that the bytes begin with, and its rest, by `specs/MacroText.antt` (docs/LANGUAGE.md, "Text
//! and tokens"; IEEE Std 1364-2005, clause 19.3.1). Bytes begin with exactly one ([`laws`]).
#![tactic(auto)]

pub mod laws;
mod scan;

pub use scan::macro_text;
