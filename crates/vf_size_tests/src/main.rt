//! Reads expressions, one a line, and prints for each its width and mark, and its value where it is a constant, or the fault of either. The
//! gate compares what it prints with `stdout`, whose lines are found by hand from docs/LANGUAGE.md, "Sizes and signs".
//!
//! The names are `a`, a `reg [7:0]`; `s`, a `reg signed [3:0]`; `r`, a `reg [0:7]`; `m`, a `reg [7:0] m [0:3]`; and `P`, a parameter with the
//! value `8'd200`. A value is printed as its width, its plane of ones and its plane of unknown bits. A line that begins with `--` is printed as
//! it is.
#![tactic(auto)]

use std::alloc::{AllocError, Global};
use std::io;
use vf_base::{Memory, SigNo, Text};
use vf_elaborated::Signal;
use vf_expression::expression;
use vf_fours::Fours;
use vf_lex::tokens;
use vf_scope::{Entry, Scope};
use vf_size::{constant, sign_of, size_of};
use vf_tree::TreeExpr;

/// The most bytes of a line.
const LONGEST: usize = 65_536;

fn signal(alloc: Global, width: u32, signed: bool, left: i64, right: i64) -> Signal {
    Signal {
        name: Text::new(Vec::new(alloc)),
        width,
        signed,
        left,
        right,
        elements: 1,
        first: 0,
        memory: false,
        net: false,
    }
}

fn memory(alloc: Global) -> Signal {
    Signal {
        elements: 4,
        memory: true,
        ..signal(alloc, 8, false, 7, 0)
    }
}

fn signals(alloc: Global) -> Result<Vec<Signal>, Memory> {
    let mut all = Vec::new(alloc);
    all.push(signal(alloc, 8, false, 7, 0))?;
    all.push(signal(alloc, 4, true, 3, 0))?;
    all.push(signal(alloc, 8, false, 0, 7))?;
    all.push(memory(alloc))?;
    Ok(all)
}

fn scope(alloc: Global) -> Result<Scope, Memory> {
    let mut names = Scope::new(alloc);
    names.add(alloc, b"a", Entry::Signal(SigNo(0)))?;
    names.add(alloc, b"s", Entry::Signal(SigNo(1)))?;
    names.add(alloc, b"r", Entry::Signal(SigNo(2)))?;
    names.add(alloc, b"m", Entry::Signal(SigNo(3)))?;
    let value = Fours::known(8, false, 200);
    names.add(
        alloc,
        b"P",
        Entry::Constant {
            value,
            left: 7,
            right: 0,
        },
    )?;
    Ok(names)
}

fn parsed(alloc: Global, text: &[u8]) -> Option<TreeExpr> {
    if text.len() > LONGEST {
        return None;
    }
    let found = tokens(alloc, text).ok()?;
    expression(alloc, found.as_slice()).ok()
}

fn main(rt: HostRuntime) -> io::Result<()> {
    let alloc = rt.alloc();
    let Ok(names) = scope(alloc) else {
        return Err(AllocError.into());
    };
    let Ok(all) = signals(alloc) else {
        return Err(AllocError.into());
    };
    for line in rt.lines(alloc) {
        let line = line?;
        if line.starts_with("--") {
            println!(rt; "{line}")?;
            continue;
        }
        let Some(e) = parsed(alloc, line.as_bytes()) else {
            println!(rt; "no expression")?;
            continue;
        };
        match (
            size_of(&names, all.as_slice(), &e),
            sign_of(&names, all.as_slice(), &e),
        ) {
            (Ok(width), Ok(signed)) => println!(rt; "{width} {signed}")?,
            (Err(fault), _) | (_, Err(fault)) => println!(rt; "{fault}")?,
        }
        match constant(&names, all.as_slice(), &e) {
            Ok(value) => {
                let width = value.width();
                let ones = value.ones();
                let unknown = value.unknown();
                println!(rt; "= {width} {ones} {unknown}")?;
            }
            Err(fault) => println!(rt; "= {fault}")?,
        }
    }
    Ok(())
}
