//! The book of a farm: its records, and the images that they hold.
//!
//! It stands on vf_base, vf_machine, vf_design, vf_plan, vf_jobs, vf_journal, vf_records, vf_frames,
//! vf_pages and vf_image, and on no kernel. The layer above uses `Book`: each call says which entry
//! it adds to the journal, and what the pool keeps of the hand, the simulator and the images; the
//! type keeps that an image is there exactly where the records hold one (docs/FARM.md, "The book").
#![tactic(auto)]

mod book;
mod fork;
mod images;

pub use book::Book;
