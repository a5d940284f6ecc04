//! The program `vfarm` once more, for a second run that the gate compares: one whose status is not 0.
//!
//! It stands on vf_program, as vfarm does.
#![tactic(auto)]

use std::process::ExitCode;
use vf_program::{program, words};

fn main(rt: HostRuntime) -> ExitCode {
    ExitCode::from(program(&rt, words(&rt), &mut rt.stdout(), &mut rt.stderr()))
}
