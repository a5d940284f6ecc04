//! From the bytes of a design to its tokens: comments, attributes, directives, macros and conditions are carried out.
//!
//! It stands on vf_base (`Text`, `Place`), vf_number (runs of bytes), vf_lexeme, which reads one lexeme at the front of a text,
//! vf_macro, which finds the text of a macro, vf_fours (the values of numbers), indexmap (the macros by name) and thiserror.
//! The layer above rests on the contract of [`tokens`]: the tokens are those of `specs/Tokens.antt` (docs/LANGUAGE.md, "Text
//! and tokens"; IEEE Std 1364-2005, clauses 3 and 19), and every refusal but out of memory is exactly the first fault. A text
//! has exactly one of both ([`laws::tokens_are_one`], [`laws::tokens_are_some`]).
#![tactic(auto)]

mod directive;
mod fault;
pub mod laws;
mod names;
mod read;
mod reader;
mod spot;
mod token;
mod whole;

pub use fault::{LexFault, LexKind};
pub use token::Token;
pub use vf_lexeme::TokenKind;
pub use whole::tokens;
