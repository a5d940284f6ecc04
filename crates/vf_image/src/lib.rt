//! Simulators of the farm, which run a design by a job of the plan over pages that they share with others, and
//! images: checkpoints that runs go on from (docs/FARM.md, "Simulators and images").
//!
//! It stands on vf_base, vf_machine, vf_design, vf_plan, vf_jobs, vf_frames and vf_pages, and on no kernel: it is
//! handed the turns that a kernel made. The layers above use `Sim`, which is at every moment a turn of the solo
//! run of its job and holds just the pages that this run touched; `Image`, which is the save point of its
//! node; and the names of the places where a simulator may stand (`specs/Standing.antt`).
#![tactic(auto)]

mod image;
mod sim;

pub use image::Image;
pub use sim::Sim;
