//! The text of a case.

use std::rt::Files;
use std::{fs, io};

/// The rule that a text is read by.
#[derive(Clone, Copy, Debug, PartialEq, Eq)]
pub enum Rule {
    Expression,
    Statement,
    Design,
}

/// What is printed.
#[derive(Clone, Copy, Debug, PartialEq, Eq)]
pub enum Shown {
    Tree,
    Places,
    Fits,
    Outline,
}

/// A text, the rule that it is read by, and what is printed.
#[derive(Drop)]
pub struct Case {
    pub rule: Rule,
    pub shown: Shown,
    pub text: String,
}

/// The rule of a case, the first of its letters.
fn rule_of(letter: Option<char>) -> Rule {
    match letter {
        Some('e') => Rule::Expression,
        Some('s') => Rule::Statement,
        _ => Rule::Design,
    }
}

/// What is printed, the second letter of a case.
fn shown_of(letter: Option<char>) -> Shown {
    match letter {
        Some('@') => Shown::Places,
        Some('?') => Shown::Fits,
        Some('<') => Shown::Outline,
        _ => Shown::Tree,
    }
}

/// Appends a piece as often as the number before it says.
fn push_repeated(part: &str, into: &mut String) -> io::Result<()> {
    let Some((count, piece)) = part.split_once(' ') else {
        return Ok(());
    };
    for _ in 0..count.parse::<u32>().unwrap_or(0) {
        into.push_str(piece)?;
    }
    Ok(())
}

/// A text with each of its repeated pieces written out.
fn expanded<R: AllocGlobal>(rt: &R, text: &str) -> io::Result<String> {
    let mut whole = String::new(rt.alloc());
    let mut repeated = false;
    for part in text.split('`') {
        if repeated {
            push_repeated(part, &mut whole)?;
        } else {
            whole.push_str(part)?;
        }
        repeated = !repeated;
    }
    Ok(whole)
}

/// The case that a line tells. The two letters of a line are of one byte each.
pub fn case_of<R: Files + AllocGlobal>(rt: &R, line: &str) -> io::Result<Case> {
    let mut letters = line.chars();
    let rule = rule_of(letters.next());
    let shown = shown_of(letters.next());
    let rest = letters.as_str();
    let text = match shown {
        Shown::Outline => fs::read_to_string(rt, rest)?,
        _ => expanded(rt, rest)?,
    };
    Ok(Case { rule, shown, text })
}
