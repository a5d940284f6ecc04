//! The records of a farm: which jobs are over and what they tell, which images are held, and the
//! journal, in tables that cost little at each event. No page, no frame and no simulator is known here.
//!
//! It stands on vf_base, vf_machine, vf_design, vf_plan, vf_jobs and vf_journal. The layer above uses
//! `Records`, which keeps in its type that its journal is lawful for its setup and that its tables show
//! the records that the journal comes to (docs/FARM.md, "The journal").
#![tactic(auto)]

mod counts;
mod ends;
mod events;
mod evict;
mod layout;
mod next;
mod outcome;
mod pins;
mod ready;
mod records;
mod row;
mod spread;
mod tables;

pub use next::Next;
pub use records::Records;
pub use row::{Attempt, HeldImage};
