//! The lines of the input.

use crate::records::walk;
use crate::runs::{images, run_of, short};
use crate::setups::{limits_text, setup};
use std::alloc::Global;
use vf_base::{Limits, Memory};

/// What the rows that follow are about.
#[derive(Drop)]
pub struct Given {
    design: String,
    plan: String,
    limits: Limits,
}

impl Given {
    /// Nothing is said yet.
    pub fn new(alloc: Global) -> Given {
        Given {
            design: String::new(alloc),
            plan: String::new(alloc),
            limits: Limits {
                turns: 1,
                output: 0,
            },
        }
    }
}

/// A number of a row; 0 where there is none.
fn number(word: Option<&str>) -> u64 {
    match word {
        Some(word) => word.parse::<u64>().unwrap_or(0),
        None => 0,
    }
}

/// The limits that a line gives.
fn limits(told: &str) -> Limits {
    let mut parts = told.split(' ');
    Limits {
        turns: number(parts.next()),
        output: number(parts.next()),
    }
}

/// The answer of a row.
fn row(alloc: Global, given: &Given, word: &str, told: &str) -> Result<String, Memory> {
    let setup = match setup(
        alloc,
        given.design.as_str(),
        given.plan.as_str(),
        given.limits,
    )? {
        Ok(setup) => setup,
        Err(why) => return Ok(String::from_str(alloc, why)?),
    };
    match word {
        "words" => Ok(format!(in alloc; "{}", setup.zero.len())?),
        "limits" => limits_text(alloc, &setup, told),
        "records" => walk(alloc, &setup, told),
        "run" => run_of(alloc, &setup, told),
        "images" => images(alloc, &setup, number(Some(told))),
        _ => short(alloc, &setup, number(Some(told))),
    }
}

/// Takes up what a line says, or gives the answer of a row.
pub fn answer(alloc: Global, given: &mut Given, line: &str) -> Result<Option<String>, Memory> {
    let (word, told) = line.split_once(' ').unwrap_or((line, ""));
    match word {
        "" => {}
        "#" => {}
        "design" => given.design = String::from_str(alloc, told)?,
        "plan" => given.plan = String::from_str(alloc, told)?,
        "given" => given.limits = limits(told),
        _ => return Ok(Some(row(alloc, given, word, told)?)),
    }
    Ok(None)
}
