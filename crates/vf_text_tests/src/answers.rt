//! The answers of rows.

use crate::lexemes::{lexeme_at, number_text, passed_at};
use crate::spelled::{count, spelled};
use std::alloc::{AllocError, Global};
use vf_base::Memory;
use vf_fours::Fours;
use vf_lexeme::{after_line, name};
use vf_macro::macro_text;
use vf_number::{NumberFault, begins_number, number};

/// The number at the front of a text, with its length, or its fault; None where no number begins.
fn read(text: &[u8]) -> Option<Result<(usize, Fours), NumberFault>> {
    let [first, ..] = text else {
        return None;
    };
    if !begins_number(*first) {
        return None;
    }
    match number(text) {
        Ok((value, rest)) => Some(Ok((text.len() - rest.len(), value))),
        Err(fault) => Some(Err(fault)),
    }
}

fn number_at(alloc: Global, text: &[u8]) -> Result<String, AllocError> {
    match read(text) {
        Some(Ok((length, value))) => {
            let shown = number_text(alloc, value)?;
            format!(in alloc; "{length} {shown}")
        }
        Some(Err(NumberFault::BadNumber)) => format!(in alloc; "BadNumber"),
        Some(Err(NumberFault::TooWide)) => format!(in alloc; "TooWide"),
        None => format!(in alloc; "none"),
    }
}

fn macro_at(alloc: Global, text: &[u8]) -> Result<Vec<u8>, Memory> {
    let (mut text, rest) = macro_text(alloc, text)?;
    text.push(b'/')?;
    text.extend_from_slice(rest)?;
    Ok(text)
}

fn as_bytes(alloc: Global, text: Result<String, AllocError>) -> Result<Vec<u8>, Memory> {
    Ok(Vec::from_slice(alloc, text?.as_bytes())?)
}

/// The answer of the row of this word on a text.
pub fn answer(alloc: Global, word: &str, text: &[u8]) -> Result<Vec<u8>, Memory> {
    match word {
        "number" => as_bytes(alloc, number_at(alloc, text)),
        "lexeme" => Ok(lexeme_at(alloc, text)?),
        "passed" => Ok(passed_at(alloc, text)?),
        "name" => as_bytes(alloc, format!(in alloc; "{}", name(text).0.len())),
        "line" => Ok(Vec::from_slice(alloc, after_line(text))?),
        "macro" => macro_at(alloc, text),
        "tokens" => spelled(alloc, text),
        "count" => as_bytes(
            alloc,
            format!(in alloc; "{}", count(alloc, text).unwrap_or(0)),
        ),
        "length" => as_bytes(alloc, format!(in alloc; "{}", text.len())),
        _ => Ok(Vec::from_slice(alloc, b"not a row")?),
    }
}
