//! Rows.

ghost use Rattle.std.specs.Prelude.{◌≤◌};

use vf_base::Limits;

/// A row of the input.
#[derive(Clone, Copy)]
pub struct Row<'a> {
    pub word: &'a str,
    /// The stimulus in hex, or `-`.
    pub stimulus: &'a str,
    pub limits: Limits,
    /// The budget of pages, or the event slots.
    pub number: u32,
    pub statement: &'a str,
}

/// The part before the first blank, and the rest.
fn split(text: &str) -> (&str, &str) {
    text.split_once(' ').unwrap_or((text, ""))
}

/// A number of at most 1,000,000; 0 where there is none.
fn number(text: &str) -> u32
    ensures { result ≤ 1000000 }
{
    match text.parse::<u32>() {
        Ok(number) => if number <= 1_000_000 { number } else { 0 },
        Err(_) => 0,
    }
}

/// The row of a line.
pub fn row_of(line: &str) -> Row<'_>
    ensures { result.limits.turns ≤ 1000000 }
{
    let (word, rest) = split(line);
    let (stimulus, rest) = split(rest);
    let (turns, rest) = split(rest);
    let (output, rest) = split(rest);
    let (count, statement) = split(rest);
    Row {
        word,
        stimulus,
        limits: Limits {
            turns: u64::from(number(turns)),
            output: u64::from(number(output)),
        },
        number: number(count),
        statement,
    }
}
