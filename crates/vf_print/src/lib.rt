//! What a task prints, on the words of a state.
//!
//! It stands on vf_base, vf_fours, vf_format, vf_machine, vf_elaborated and vf_expr. [`print_show`] appends the text that the
//! definition of vf_elaborated (`Printing`) gives over the values that stand in the words: the layer above uses this contract
//! for `$write`, `$display`, `$strobe` and `$monitor`. See docs/LANGUAGE.md, "Printed values".
#![tactic(auto)]

mod show;

pub use show::print_show;
