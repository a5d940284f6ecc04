//! Running a simulator of the farm up to where its job has something to do with it (docs/FARM.md, "Running").
//!
//! It stands on vf_base, vf_machine, vf_design, vf_kernel, vf_jobs, vf_frames, vf_pages and vf_image. The layers
//! above use `go`, whose answer is exact: the save point, the read past the stimulus, the ending with its turns, or
//! the pages that a lacking frame was wanted for; and the step counter moved by the turns made.
#![tactic(auto)]

mod run;
mod stop;

pub use run::go;
pub use stop::Stop;
