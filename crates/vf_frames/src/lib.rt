//! Page frames that holders share and count: the trait `Frames`, and `PlainPool`, a pool for one
//! worker.
//!
//! It stands on vf_base. The layers above rest on this: a holder has a list of frames, which `claim`,
//! `hold`, `release` and `join` change as they say and no other call changes; and a pool that accounts
//! for its holders goes on to do so, so that each frame's number is the count of its holders
//! (docs/FARM.md, "Frames").
#![tactic(auto)]

mod frames;
mod holder;
mod plain;
mod set;
mod tally;

pub use frames::{FrameNo, Frames};
pub use holder::{Holder, Name, Note};
pub use plain::{PlainPool, PlainToken};
