//! Texts of rows, and bytes as they are shown.

use serde_json::Value;
use std::alloc::{AllocError, Global};
use vf_base::Memory;

/// Appends the strings of a list, each as often as the number after it says.
fn push_parts(parts: &[Value], into: &mut Vec<u8>) -> Result<(), Memory> {
    let mut last = "";
    for part in parts {
        if let Some(text) = part.as_str() {
            into.extend_from_slice(text.as_bytes())?;
            last = text;
        }
        if let Some(times) = part.as_u64() {
            for _ in 1..times {
                into.extend_from_slice(last.as_bytes())?;
            }
        }
    }
    Ok(())
}

/// The text that a row has: a JSON string, or a list of strings and numbers. What is neither is the empty text.
pub fn text_of(alloc: Global, row: &str) -> Result<Vec<u8>, Memory> {
    let mut text = Vec::new(alloc);
    let Ok(value) = Value::from_slice(alloc, row.as_bytes()) else {
        return Ok(text);
    };
    if let Some(part) = value.as_str() {
        text.extend_from_slice(part.as_bytes())?;
    }
    if let Some(parts) = value.as_array() {
        push_parts(parts, &mut text)?;
    }
    Ok(text)
}

/// Bytes on one line: a byte that is no plain character in hex between `<` and `>`.
pub fn shown(alloc: Global, bytes: &[u8]) -> Result<String, AllocError> {
    let mut shown = String::new(alloc);
    for byte in bytes {
        if b' ' <= *byte && *byte <= b'~' {
            shown.push(char::from(*byte))?;
        } else {
            write!(shown, "<{:02x}>", *byte)?;
        }
    }
    Ok(shown)
}
