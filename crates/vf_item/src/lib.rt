//! The items of a module and what stands in its header: declarations, continuous assignments, instances and processes, parameters and
//! ports.
//!
//! It stands on vf_base (`Place`), vf_lexeme and vf_lex (`Token`), vf_tree, vf_expression, vf_control, vf_statement, and the kit's
//! `sqlite_items`. Each public reader reads one tree at the front of the tokens and gives it with the tokens after it, as the
//! function of `specs/Reading.antt` with its name does. These are exact both ways over the rules of `specs/Grammar.antt`
//! (docs/LANGUAGE.md, "Grammar"; IEEE Std 1364-2005, clauses 4, 6 and 12, Annex A.1 and A.2), by
//! [`laws::readings_are_items`]. The layer above rests on that and on the lemmas in `proofs/CallerLemmas`.
#![tactic(auto)]

mod headers;
mod instances;
mod items;
pub mod laws;
mod parts;
mod rows;
mod shapes;
mod words;

pub use headers::{params, port_list};
pub use items::item;
pub use rows::Front;
