//! From tokens to the tree of a statement, exact both ways.
//!
//! It stands on vf_base (`Place`), vf_lexeme and vf_lex (`Token`), vf_tree, vf_expression, vf_control (targets, delays, events and
//! system tasks), and the kit's `sqlite_items`. The layers above rest on two contracts. [`statement`] takes tokens that are one
//! statement whole: its tree is that of `specs/Grammar.antt` (docs/LANGUAGE.md, "Grammar"; IEEE Std 1364-2005, clause 9 and
//! Annex A.6), of which there is at most one ([`laws::statements_are_one`]), and every refusal but out of memory comes exactly
//! where there is none. [`stmt`] reads one at the front of the tokens, as the function `stmt_at` of `specs/Reading.antt` does,
//! which is exact both ways ([`laws::readings_are_statements`]). The way down never passes the greatest depth of a tree.
//! [`assign_part`], [`name`], [`is_word`] and [`strip_word`] read what the rules above this crate have in common with statements;
//! `proofs/CallerLemmas` has the lemmas on them.
#![tactic(auto)]

pub mod laws;
mod read;
mod simple;
mod whole;
mod words;

pub use read::stmt;
pub use simple::assign_part;
pub use whole::statement;
pub use words::{is_word, name, strip_word};
