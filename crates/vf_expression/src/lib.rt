//! From tokens to the tree of an expression, exact both ways.
//!
//! It stands on vf_base (`Place`), vf_fours (the operators), vf_lexeme and vf_lex (`Token`), vf_tree, and the kit's `sqlite_items`.
//! The layers above rest on two contracts. [`expression`] takes tokens that are one expression whole: its tree is that of
//! `specs/Grammar.antt` (docs/LANGUAGE.md, "Grammar"; IEEE Std 1364-2005, clause 5 and Annex A.8), of which there is at most one
//! ([`laws::expressions_are_one`]), and every refusal but out of memory comes exactly where there is none. [`expr`] reads one
//! at the front of the tokens, as the function `expr_at` of `specs/Reading.antt` does, which is exact both ways
//! ([`laws::readings_are_expressions`]). [`exprs`], [`selects`], [`closed`] and [`argument`] read what the rules above this crate
//! have in common with expressions, and [`strip`] and [`after`] a sign; `proofs/CallerLemmas` has the lemmas on them.
#![tactic(auto)]

pub mod laws;
mod levels;
mod read;
mod signs;
mod stop;
mod whole;

pub use read::{Read, argument, closed, expr, exprs, selects};
pub use signs::{after, is_sign, same, strip};
pub use stop::Stop;
pub use whole::{MOST_DEPTH, expression};
