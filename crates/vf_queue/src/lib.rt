//! The event queue in the words of a state: what a turn does to the lists of events, to processes and to event slots.
//!
//! While a turn is made, its writes stand in a patch over the words of the state (vf_patch). Each function here does one operation of
//! the scheduler's definition (vf_scheduler) there: where the words under the patch are those of a sound state, they are after it those
//! of the state that the definition gives (`Holds`). So the lists of events are linked words, and no function but those of `lists` knows
//! it. See docs/LANGUAGE.md, "The words of a state" and "The scheduler".
#![tactic(auto)]

mod addresses;
mod delays;
mod due;
mod future;
mod lists;
mod posts;
mod promotions;
mod regions;
mod slots;
mod threads;
mod update;
mod writes;

pub use delays::delay;
pub use due::{take_strobe, take_update};
pub use posts::post;
pub use promotions::{advance, promote_inactive};
pub use regions::{promote_updates, run, settle_monitor, take_active, wake, watch};
pub use slots::strobe;
pub use threads::{go_to, halt, wait};
pub use update::Update;
pub use writes::{front, put, put_front};
