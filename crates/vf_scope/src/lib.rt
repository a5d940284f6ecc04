//! The names that a module declares, and what each stands for (IEEE Std 1364-2005, clause 12.7).
//!
//! It stands on vf_base (`SigNo`), vf_fours (the values of parameters) and indexmap. The layers above see a [`Scope`] as the list of
//! its names in the order of declaration, each with its [`Entry`] (`specs/Names.antt`). [`Scope::find`] is None exactly where a name
//! is not declared, and [`Scope::add`] answers false exactly where it is. See docs/LANGUAGE.md, "Sizes and signs".
#![tactic(auto)]

mod scope;

pub use scope::{Entry, Scope};
