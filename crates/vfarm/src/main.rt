//! The program `vfarm`.
//!
//! It stands on vf_program, which does all of it; here is only what that is given: the words of the command
//! line, standard output and standard error.
#![tactic(auto)]

use std::process::ExitCode;
use vf_program::{program, words};

fn main(rt: HostRuntime) -> ExitCode {
    ExitCode::from(program(&rt, words(&rt), &mut rt.stdout(), &mut rt.stderr()))
}
