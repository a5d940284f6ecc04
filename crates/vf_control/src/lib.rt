//! The parts of statements in which no statement stands: targets, delays, event controls and calls of system tasks.
//!
//! It stands on vf_base (`Place`), vf_lexeme and vf_lex (`Token`), vf_tree, vf_expression, and the kit's `sqlite_items`. Each of
//! [`target`], [`delay`], [`events`] and [`task`] reads one tree at the front of the tokens, with expressions of a depth up to a
//! bound, and gives the tree, the depth of the deepest expression directly in it (0 without one) and the tokens after it, as the
//! function of `specs/Reading.antt` with the same name does. These are exact both ways over the rules of `specs/Grammar.antt`
//! (docs/LANGUAGE.md, "Grammar"; IEEE Std 1364-2005, clauses 6.1, 9.7 and 17), by [`laws::readings_are_controls`]. The layers above rest
//! on that, on the lists of `specs/Lists.antt`, and on the lemmas in `proofs/CallerLemmas`.
#![tactic(auto)]

mod calls;
mod delays;
pub mod laws;
mod targets;
mod waits;
mod words;

pub use calls::task;
pub use delays::delay;
pub use targets::target;
pub use waits::events;
