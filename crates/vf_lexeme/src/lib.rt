//! One lexeme at the front of a text: a token, a blank, a comment, an attribute or the '`' of a directive.
//!
//! It stands on vf_base (`Text`, out of memory), vf_number, which reads a number and runs of bytes, vf_fours (the values of
//! numbers) and thiserror. The layer above, which reads a whole text with its directives, rests on the contracts of
//! [`lexeme`], [`passed`], [`name`] and [`after_line`]: what they answer is what stands at the front of the text by
//! `specs/Lexemes.antt` and `specs/Words.antt` (docs/LANGUAGE.md, "Text and tokens"; IEEE Std 1364-2005, clause 3), and the
//! faults are exact. At most one thing stands there, and one does in every text that is not empty ([`laws`]).
#![tactic(auto)]

mod classes;
mod kinds;
pub mod laws;
mod names;
mod read;
mod signs;
mod skips;
mod strings;

pub use kinds::{Lexeme, LexemeFault, OpenFault, Passed, TokenKind};
pub use names::name;
pub use read::{lexeme, passed};
pub use skips::after_line;
pub use vf_number::is_blank;
