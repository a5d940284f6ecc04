//! From tokens to the syntax tree of a design, exact both ways.
//!
//! It stands on vf_base (`Place`), vf_lexeme and vf_lex (`Token`), vf_tree, the readers of vf_expression, vf_statement and vf_item, and the
//! kit's `sqlite_items`. The layer above rests on one contract, that of [`parse`] (docs/LANGUAGE.md, "Grammar", "Left-out words"; IEEE
//! Std 1364-2005, Annex A): it answers the tree of the tokens, of which there is at most one ([`laws::trees_are_one`]), or why
//! they have none, and where.
#![tactic(auto)]

mod deep;
mod fault;
pub mod laws;
mod left_out;
mod modules;
mod whole;

pub use fault::{ParseFault, ParseKind};
pub use whole::parse;
