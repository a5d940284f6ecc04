//! The texts of rows.

use std::alloc::{AllocError, Global};

/// The byte that stands for a byte after a `\`.
fn escaped(byte: u8) -> u8 {
    match byte {
        b'n' => b'\n',
        b'r' => b'\r',
        b't' => b'\t',
        b'f' => b'\x0c',
        _ => byte,
    }
}

/// The bytes of a text of a row.
pub fn bytes_of(alloc: Global, text: &str) -> Result<Vec<u8>, AllocError> {
    let mut bytes = Vec::new(alloc);
    let mut is_escaped = false;
    for byte in text.as_bytes() {
        if is_escaped {
            bytes.push(escaped(*byte))?;
            is_escaped = false;
        } else if *byte == b'\\' {
            is_escaped = true;
        } else {
            bytes.push(*byte)?;
        }
    }
    Ok(bytes)
}

/// A module whose process is so many times the front, the statement, and as often the back.
fn nested(
    alloc: Global,
    front: &[u8],
    statement: &[u8],
    back: &[u8],
    times: u32,
) -> Result<Vec<u8>, AllocError> {
    let mut text = Vec::from_slice(alloc, b"module m; integer c; initial ")?;
    for _ in 0..times {
        text.extend_from_slice(front)?;
    }
    text.extend_from_slice(statement)?;
    for _ in 0..times {
        text.extend_from_slice(back)?;
    }
    text.extend_from_slice(b" endmodule")?;
    Ok(text)
}

/// A module whose process is a block of so many statements.
fn long(alloc: Global, times: u32) -> Result<Vec<u8>, AllocError> {
    let mut text = Vec::from_slice(alloc, b"module m; integer c; initial begin ")?;
    for _ in 0..times {
        text.extend_from_slice(b"$finish(0);")?;
    }
    text.extend_from_slice(b"end endmodule")?;
    Ok(text)
}

/// A number of a row, at most 65,536; 0 where there is none.
pub fn number(text: &str) -> u32 {
    match text.parse::<u32>() {
        Ok(number) => if number <= 65_536 { number } else { 0 },
        Err(_) => 0,
    }
}

/// The text that a row of a word tells.
pub fn text_of(alloc: Global, word: &str, rest: &str) -> Result<Vec<u8>, AllocError> {
    match word {
        "statement" => {
            let statement = bytes_of(alloc, rest)?;
            nested(alloc, b"", &statement, b"", 0)
        }
        "begins" => nested(alloc, b"begin ", b"", b" end", number(rest)),
        "ifs" => nested(alloc, b"if (c == 0) ", b"$finish(0);", b"", number(rest)),
        "finishes" => long(alloc, number(rest)),
        _ => bytes_of(alloc, rest),
    }
}
