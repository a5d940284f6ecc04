//! Reads plans: each line of the input is a row, and each line of the output is the row with its answer. The gate compares the
//! output with `stdout`, whose answers are found by hand from docs/FORMATS.md, "Plans".
//!
//! | Row | The plan |
//! |---|---|
//! | `plan text` | the text |
//! | `nodes text` | of version 1, with these nodes |
//! | `limits text` | of version 2: the test `s`, and the test `t` with these members |
//! | `hex bytes` | the bytes in hex |
//! | `chain nodes bytes` | a chain of so many nodes with segments of so many bytes, the first a test |
//! | `roots nodes` | so many roots, each a test |
//! | `expect name bytes` | a test with a name of so many letters, which expects so many bytes |
//!
//! The answer is the first fault, with its node where one is at fault; or the nodes, each with its name, the number of its parent and
//! its segment in hex, then `test`, its limits and the bytes that it expects where it has them, and after the last node its
//! stimulus. Of a plan of more than four nodes, or more than 100 bytes of a segment or an expectation, it is the number of nodes.
#![tactic(auto)]

mod answers;
mod plans;

use answers::answer;
use plans::plan_of;
use std::alloc::AllocError;
use std::io;

fn main(rt: HostRuntime) -> io::Result<()> {
    for line in rt.lines(rt.alloc()) {
        let line = line?;
        let Ok(plan) = plan_of(rt.alloc(), line.as_str()) else {
            return Err(AllocError.into());
        };
        let told = answer(rt.alloc(), plan.as_slice())?;
        println!(rt; "{line} = {told}")?;
    }
    Ok(())
}
