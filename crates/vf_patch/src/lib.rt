//! What a turn has written so far, kept apart from the words of the state.
//!
//! It stands on vf_base and vf_machine. While a turn is made, its writes stand in a [`Patch`], and its
//! later reads see them over the words of the state ([`Patch::read`], [`Over`]). At the end the patch tells
//! the writes that change a word. The layers above rest on this: a patch over any words is the words after
//! its writes (`written` of vf_machine), `set` writes one word of these and no other, and `writes` tells
//! just what differs (`IsChange` of vf_machine).
#![tactic(auto)]

mod front;
mod over;
mod patch;
mod sorted;

pub use front::FRONT_WORDS;
pub use over::Over;
pub use patch::Patch;
