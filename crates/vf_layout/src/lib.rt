//! Where the words of a state stand, and what a change of the state writes into them.
//!
//! It stands on vf_scheduler, whose states are lists, and on vf_elaborated, which names the address of each word, and has no code
//! but its laws. `specs/` says what a state must have (`Addresses`), what stands at each address (`Standing`), what a change of one
//! process, value, driver or slot writes (`Changes`), and what is written when an event joins a list or is taken from it
//! (`Regions`). The laws say that this is so of `words_of`. So code that reads and writes words is proved against the lists of the
//! scheduler. See docs/LANGUAGE.md, "The words of a state".
#![tactic(auto)]

pub mod laws;
