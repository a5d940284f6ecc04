//! A file of cases, line after line.
//!
//! | Line | What it does |
//! |---|---|
//! | `design TEXT` | the design of the cases that follow |
//! | `plan JSON` | their plan |
//! | `chains N DEPTH` | their plan: N chains of DEPTH nodes, each a byte and a newline, of which the last is a test |
//! | `run ORDER PAGES TURNS OUTPUT` | runs the farm, and tells its report and its journal |
//! | `count ORDER PAGES TURNS OUTPUT` | runs it, and tells the last line of its report and how many entries there are of each sort |
//!
//! Any other line is told as it stands, and so is a line that runs a farm.

use crate::chains::chains;
use crate::farm::{Given, farm};
use std::alloc::Global;
use std::io::{self, ErrorKind, Write};
use vf_base::Memory;
use vf_jobs::Order;

fn out_of_memory(_: Memory) -> io::Error {
    io::Error::from(ErrorKind::OutOfMemory)
}

/// The order of a word.
fn order(word: &str) -> Order {
    if word == "deepest" {
        return Order::Deepest;
    }
    if word == "widest" {
        return Order::Widest;
    }
    Order::Oldest
}

/// The next number of a line, and 0 where there is none.
fn number(word: Option<&str>) -> u64 {
    match word {
        Some(word) => word.parse::<u64>().unwrap_or(0),
        None => 0,
    }
}

/// What a farm is given, by the words of a line.
fn given(words: &str) -> Given {
    let mut parts = words.split(' ');
    let order = order(parts.next().unwrap_or(""));
    let budget = number(parts.next());
    let turns = number(parts.next());
    let output = number(parts.next());
    Given {
        order,
        budget,
        turns,
        output,
    }
}

/// Does what each line of a file says.
pub fn tell_all<W: Write>(out: &mut W, alloc: Global, text: &str) -> io::Result<()> {
    let mut design = String::new(alloc);
    let mut plan = String::new(alloc);
    for line in text.lines() {
        let (word, rest) = line.split_once(' ').unwrap_or((line, ""));
        if word == "design" {
            design = String::from_str(alloc, rest)?;
        } else if word == "plan" {
            plan = String::from_str(alloc, rest)?;
        } else if word == "chains" {
            let mut parts = rest.split(' ');
            plan = chains(alloc, number(parts.next()), number(parts.next()))?;
        } else {
            out.write_all(line.as_bytes())?;
            out.write_all(b"\n")?;
            if word == "run" || word == "count" {
                let told = farm(
                    alloc,
                    design.as_str(),
                    plan.as_str(),
                    given(rest),
                    word == "run",
                )
                .map_err(out_of_memory)?;
                out.write_all(&told)?;
            }
        }
    }
    Ok(())
}
