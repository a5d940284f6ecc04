//! Calls of the farm's crates, row by row: each line of the input is told again, and a row with its answer. The gate compares the
//! output with `stdout`, whose answers are found by hand from docs/FARM.md and docs/LANGUAGE.md, "Turns of a design".
//!
//! | Line | What it says |
//! |---|---|
//! | `design TEXT` | the design of the rows that follow |
//! | `plan JSON` | their plan; in the rows its nodes have their numbers, from 0 |
//! | `given TURNS OUTPUT` | the limits of a test that has none of its own |
//!
//! A job is `reach N` or `finish N`.
//!
//! | Row | Its answer |
//! |---|---|
//! | `words` | how many words a state has |
//! | `limits JOB` | the limits of the job, on turns and on bytes written |
//! | `records STEP;STEP;..` | that of each step on the records of the farm (src/records.rt), with `;` behind it |
//! | `run FRAMES JOB` | why the run of the job stops over so many frames, after how many turns, and the bytes written |
//! | `images FRAMES` | what stands in images of nodes 0 and 1, and what the test 2 that goes on from them comes to (src/runs.rt) |
//! | `short FRAMES` | why the run that reaches node 1 stops beside an image of node 0, and without it (src/runs.rt) |
//!
//! It stands on vf_base, vf_design, vf_early, vf_frames, vf_pages, vf_plan, vf_jobs, vf_journal, vf_records, vf_image and vf_run.
#![tactic(auto)]

mod records;
mod rows;
mod runs;
mod setups;

use rows::{Given, answer};
use std::alloc::AllocError;
use std::io;

fn main(rt: HostRuntime) -> io::Result<()> {
    let mut given = Given::new(rt.alloc());
    for line in rt.lines(rt.alloc()) {
        let line = line?;
        let Ok(told) = answer(rt.alloc(), &mut given, line.as_str()) else {
            return Err(AllocError.into());
        };
        match told {
            Some(told) => println!(rt; "{line} = {told}")?,
            None => println!(rt; "{line}")?,
        }
    }
    Ok(())
}
