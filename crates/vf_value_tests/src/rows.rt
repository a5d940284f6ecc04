//! The rows.

use crate::operators::{binary, each, unary};
use crate::values::{letter, shown, value};
use std::alloc::{AllocError, Global};
use std::fmt::Display;
use vf_base::Text;
use vf_format::{Form, print};
use vf_fours::Fours;

fn words(alloc: Global, row: &str) -> Result<Vec<&str>, AllocError> {
    let mut words = Vec::new(alloc);
    for word in row.split(' ') {
        words.push(word)?;
    }
    Ok(words)
}

/// A part-select of 1 to 128 bits.
fn selected(text: &str, low: &str, width: &str) -> Option<Fours> {
    let width = width.parse::<u32>().ok()?;
    if 1 <= width && width <= 128 {
        Some(value(text)?.select(low.parse::<i64>().ok()?, width))
    } else {
        None
    }
}

fn resized(text: &str, width: &str, mark: &str) -> Option<Fours> {
    let width = width.parse::<u32>().ok()?;
    if 1 <= width && width <= 128 {
        Some(value(text)?.resize(width, mark == "s"))
    } else {
        None
    }
}

fn all_x(width: &str, mark: &str) -> Option<Fours> {
    let width = width.parse::<u32>().ok()?;
    if 1 <= width && width <= 128 {
        Some(Fours::all_x(width, mark == "s"))
    } else {
        None
    }
}

/// The value that a row computes.
fn computed(words: &[&str]) -> Option<Fours> {
    match words {
        [sign, operand] => unary(sign, value(operand)?),
        [left, sign, right] => binary(value(left)?, sign, value(right)?),
        _ => None,
    }
}

fn each_of(left: &str, sign: &str, right: &str) -> Option<Fours> {
    each(value(left)?, sign, value(right)?)
}

fn form(letter: u8) -> Form {
    match letter {
        b'h' => Form::Hex,
        b'o' => Form::Oct,
        b'b' => Form::Bin,
        b'c' => Form::Char,
        b's' => Form::Str,
        b't' => Form::Time,
        _ => Form::Dec,
    }
}

fn printed(alloc: Global, format: &str, value: Fours) -> Result<String, AllocError> {
    let letter = format.as_bytes().last().copied().unwrap_or(b'd');
    let mut text = Text::new(Vec::new(alloc));
    let Ok(()) = print(form(letter), format.as_bytes().len() == 3, value, &mut text) else {
        return Err(AllocError);
    };
    let bytes = String::from_utf8_lossy(alloc, text.bytes())?;
    format!(in alloc; "\"{bytes}\"")
}

fn truth(text: &str) -> Option<char> {
    Some(char::from(letter(value(text)?.truth())))
}

fn integer(text: &str) -> Option<i64> {
    value(text)?.to_i64()
}

fn natural(text: &str) -> Option<u128> {
    value(text)?.to_u128()
}

/// The text of what was found, or `none`.
fn told<T: Display + Drop>(alloc: Global, found: Option<T>) -> Result<String, AllocError> {
    match found {
        Some(found) => format!(in alloc; "{found}"),
        None => format!(in alloc; "none"),
    }
}

/// The text of a value, where the row is one that has a value.
fn told_value(alloc: Global, found: Option<Fours>) -> Result<String, AllocError> {
    match found {
        Some(value) => shown(alloc, value),
        None => format!(in alloc; "not a row"),
    }
}

/// The answer of a row.
pub fn answer(alloc: Global, row: &str) -> Result<String, AllocError> {
    let words = words(alloc, row)?;
    match words.as_slice() {
        ["truth", text] => told(alloc, truth(text)),
        ["integer", text] => told(alloc, integer(text)),
        ["natural", text] => told(alloc, natural(text)),
        ["print", format, text] => match value(text) {
            Some(value) => printed(alloc, format, value),
            None => format!(in alloc; "not a row"),
        },
        ["select", text, low, width] => told_value(alloc, selected(text, low, width)),
        ["resize", text, width, mark] => told_value(alloc, resized(text, width, mark)),
        ["all_x", width, mark] => told_value(alloc, all_x(width, mark)),
        ["each", left, sign, right] => told_value(alloc, each_of(left, sign, right)),
        _ => told_value(alloc, computed(words.as_slice())),
    }
}
