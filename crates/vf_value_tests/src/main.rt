//! Computes on four-state values: each line of the input is a row, and each line of the output is the row with its answer.
//! The gate compares the output with `stdout`, whose answers are found by hand from docs/LANGUAGE.md, "Values" and "Printed
//! values". So vf_fours and vf_format are tested from outside at the price of one small program.
//!
//! A value is `'b` or, where it is signed, `'sb`, with its bits from the top; `x^8` stands for eight bits x, and `_` joins the
//! parts of a value. The rows:
//!
//! | Row | Answer |
//! |---|---|
//! | `op value` | a unary operator |
//! | `value op value` | a binary operator, or one of `merge`, `wire`, `casez`, `casex` and `,`, which joins two values |
//! | `each value op value` | a comparison of the bits at each place |
//! | `select value low width` | a part-select |
//! | `resize value width mark` | a change of width; the mark is `s` or `u` |
//! | `all_x width mark` | a value that is x |
//! | `truth value` | the logical value, as of a condition |
//! | `integer value`, `natural value` | the number, where there is one |
//! | `print format value` | what the format prints, between quotes |
#![tactic(auto)]

mod operators;
mod rows;
mod values;

use rows::answer;
use std::io;

fn main(rt: HostRuntime) -> io::Result<()> {
    for line in rt.lines(rt.alloc()) {
        let line = line?;
        let row = line.as_str();
        let told = answer(rt.alloc(), row)?;
        println!(rt; "{row} = {told}")?;
    }
    Ok(())
}
