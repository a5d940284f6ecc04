//! What the expressions of a design are worth, on the words of a state.
//!
//! It stands on vf_base, vf_fours, vf_machine, vf_elaborated and the kit's `sqlite_items`. [`eval`] equals the definition of
//! vf_elaborated (`Values`) over the values that stand in the words; [`element`] and [`place`] say which element and which bits
//! an index means, for reads here and for assignments in the layers above. Nothing here refuses or takes memory. See
//! docs/LANGUAGE.md, "Elaborated designs" and "The words of a state".
#![tactic(auto)]

mod evaluate;
mod places;
mod read;

pub use evaluate::{eval, selected};
pub use places::{element, place};
pub use read::value;
