//! Whole farms of one worker, told as a file of cases asks. Each case has a design, a plan, the order in which images
//! are given back, the budget, and the limits on turns and on bytes written; its report and its journal are told.
//! What the gate compares, `stdout`, was worked out by hand from docs/FARM.md, "The farm", and docs/LANGUAGE.md, "Turns
//! of a design".
//!
//! It stands on vf_base, vf_early, vf_plan, vf_jobs, vf_journal, vf_records, vf_here and vf_report.
#![tactic(auto)]

mod cases;
mod chains;
mod farm;

use crate::cases::tell_all;
use std::{env, fs, io};

fn main(rt: HostRuntime) -> io::Result<()> {
    for name in env::args(&rt)?.skip(1) {
        let text = fs::read_to_string(&rt, name.as_str())?;
        tell_all(&mut rt.stdout(), rt.alloc(), text.as_str())?;
    }
    Ok(())
}
