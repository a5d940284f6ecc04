//! The types of an elaborated design of the whole language, what its expressions are worth, and where the words of its states stand.
//!
//! It stands on vf_base, vf_fours, vf_format and the kit's `sqlite_items`, whose `Boxed` and `Items` contracts see as what they
//! hold: so a design is plain data to a contract. A [`Design`] keeps in its type that it is well formed. The layers above use
//! the definitions in `specs/`: what an expression is worth (`Values`), which signals it reads, what a well-formed design is
//! (`WellFormed`), where each word stands (`Layout`, `Addresses`), and which processes wait for a signal or drive a net
//! (`Tables`). A design keeps the addresses and the tables, and answers by them at once. See docs/LANGUAGE.md, "Elaborated designs".
#![tactic(auto)]

mod code;
mod design;
mod expr;
pub mod laws;
pub mod layout;
mod lists;
mod places;
mod tables;

pub use code::{Edge, Event, Instr, MatchKind, ShowKind, Target, TargetPiece};
pub use design::{Design, Piece, Process, Show, Signal};
pub use expr::Expr;
