//! Pools of frames, and the pages of their holders: each line of the input is a row, and each line of the output is the row with its
//! answer. The gate compares the output with `stdout`, whose answers are found by hand from docs/FARM.md, "Frames" and "Pages".
//!
//! A row `pages frames words step;step;..` makes a pool of so many frames and two holders of so many words, all 0. The steps are of
//! the first holder; the hand is the holder that opened both. Each answer ends with `;`:
//!
//! | Step | Answer |
//! |---|---|
//! | `write at=word ..` | what a call answers that writes the words at rising addresses |
//! | `every n count word` | the same of a call that writes the word `count` times, at each n-th address from 0 on |
//! | `read at ..` | the words at the addresses |
//! | `count` | how many pages the holder has |
//! | `page at i` | the number of the page at a place of its list, and the word at a place of the page |
//! | `misses` | the misses of the holder and of the hand |
//! | `swap` | none: the second holder is now the first one |
//! | `fork` | none: the second holder is now a fork of the first |
//! | `keep` | none: the first holder keeps what differs from the second |
//! | `over` | none: the first holder is now its fork over the second |
//! | `anew` | none: the second holder gives its frames back, and is at time zero |
//!
//! The rows `shared` and `joined` are walks of two holders of frames (src/frames.rt).
#![tactic(auto)]

mod bench;
mod frames;
mod steps;
mod writes;

use frames::{joined, shared};
use std::alloc::{AllocError, Global};
use std::io;
use steps::walk;
use vf_base::Memory;

fn answer(alloc: Global, line: &str) -> Result<String, Memory> {
    match line.split_once(' ') {
        Some(("pages", row)) => walk(alloc, row),
        _ if line == "shared" => shared(alloc),
        _ => joined(alloc),
    }
}

fn main(rt: HostRuntime) -> io::Result<()> {
    for line in rt.lines(rt.alloc()) {
        let line = line?;
        let Ok(told) = answer(rt.alloc(), line.as_str()) else {
            return Err(AllocError.into());
        };
        println!(rt; "{line} = {told}")?;
    }
    Ok(())
}
