//! Trees as text, for tests and for whoever wants to look at one.
//!
//! It stands on vf_base, vf_fours and vf_tree. Each rule of the grammar (docs/LANGUAGE.md, "Grammar") has one printing, so two trees
//! that are printed alike with their places differ at most in numbers: of a number its bits that are 1 are printed, in decimal, and
//! neither its width nor its x and z. An operator with its operands stands in parentheses, and parentheses of the source are `<` and
//! `>`; a statement with a statement in it stands in parentheses too, but for a block. Where places are asked for, each tree stands after
//! its own. Nothing is proved of the text: no proof rests on it.
#![tactic(auto)]

mod controls;
mod expressions;
mod modules;
mod spelling;
mod statements;

pub use expressions::spell_expression;
pub use modules::spell_source;
pub use spelling::Spelling;
pub use statements::spell_statement;
