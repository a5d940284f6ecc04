//! Pages of words over counted frames. A holder forks in time proportional to the pages that it holds,
//! and copies a page only when it is written while another holder has its frame.
//!
//! It stands on vf_base and vf_frames. The layers above rest on this: a holder has words and a list of
//! pages with their frames; a write changes the words that it names and no other holder's; and after a
//! refusal words and pages are as before (docs/FARM.md, "Pages").
#![tactic(auto)]

mod alone;
mod base;
mod change;
mod content;
mod gather;
mod held;
mod install;
mod kept;
mod merge;
mod paged;
mod places;
mod refusal;
mod search;
mod share;

pub use held::PageNo;
pub use paged::Paged;
pub use refusal::PageRefusal;
