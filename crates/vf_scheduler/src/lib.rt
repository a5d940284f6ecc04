//! How a design of the whole language runs: the scheduler of IEEE Std 1364-2005, clause 11, as a definition.
//!
//! It stands on vf_fours, vf_format, vf_machine and vf_elaborated, and has no code but its laws. A state is lists of events by
//! region, processes with place and status, and values as bits; no word, link or plane stands in it. `specs/` tells a turn
//! apart by what it does: which event is next (`Turning`), an instruction (`Performing`), assignments (`Assigning`,
//! `Driving`), updates and what they wake (`Updating`), what is put off (`Posting`), what is printed (`Printing`); what an
//! observer sees of a turn (`Seeing`); which states are sound (`Sound`); and the 64-bit words of a state (`Words`). The layers
//! above use these definitions. See docs/LANGUAGE.md, "The scheduler" and "The words of a state".
#![tactic(auto)]

pub mod laws;
