//! What the reader makes of a text.

use crate::texts::{bytes_of, number, text_of};
use std::alloc::{AllocError, Global};
use vf_design::Design;
use vf_early::early_design;

/// The names, the event slots and the code of a design.
fn design_text(alloc: Global, design: &Design) -> Result<String, AllocError> {
    let top = String::from_utf8_lossy(alloc, design.top.bytes())?;
    let variable = String::from_utf8_lossy(alloc, design.variable.bytes())?;
    format!(in alloc;
        "{top} {variable} {} {:?}",
        design.slots,
        design.code.as_slice()
    )
}

/// The design of a text with so many event slots.
fn code(alloc: Global, slots: u32, text: &str) -> Result<String, AllocError> {
    if slots < 1 || slots > 16_384 {
        return format!(in alloc; "not a row");
    }
    let bytes = bytes_of(alloc, text)?;
    match early_design(alloc, &bytes, slots) {
        Ok(design) => design_text(alloc, &design),
        Err(fault) => format!(in alloc; "{fault:?}"),
    }
}

/// Whether a text is an early design.
fn built(alloc: Global, bytes: &[u8]) -> Result<String, AllocError> {
    match early_design(alloc, bytes, 1) {
        Ok(_) => format!(in alloc; "built"),
        Err(fault) => format!(in alloc; "{fault:?}"),
    }
}

/// The answer of a row.
pub fn answer(alloc: Global, line: &str) -> Result<String, AllocError> {
    let (word, rest) = line.split_once(' ').unwrap_or((line, ""));
    if word == "code" {
        let (slots, text) = rest.split_once(' ').unwrap_or((rest, ""));
        return code(alloc, number(slots), text);
    }
    let text = text_of(alloc, word, rest)?;
    built(alloc, &text)
}
