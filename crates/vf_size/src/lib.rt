//! Sizes, signs and constants of the expressions of the syntax tree (IEEE Std 1364-2005, clause 5).
//!
//! It stands on vf_base (`Place`), vf_fours, vf_elaborated (`Expr`, `Signal`), vf_expr (bits of values), vf_tree, vf_scope and thiserror.
//! `specs/Sizes.antt` tells of each expression its width and mark by itself, and the typed expression, in which each change
//! of width or mark is a `Resize`. [`size_of`] and [`sign_of`] are the first, exactly, and [`constant`] what the second is worth
//! where no signal has a value; each refuses with the first fault in the text, and takes no memory. See docs/LANGUAGE.md, "Sizes and
//! signs".
#![tactic(auto)]

mod base;
mod fault;
mod part;
mod rules;
mod shape;
mod sizes;
mod values;

pub use fault::{SizeFault, SizeKind};
pub use shape::Shape;
pub use sizes::{constant, sign_of, size_of};
