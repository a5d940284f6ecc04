//! The plans of rows.

use std::alloc::{AllocError, Global};
use vf_base::Memory;

/// A chain of so many nodes with so long segments, the first a test.
fn chain(alloc: Global, nodes: u32, bytes: usize) -> Result<String, AllocError> {
    let segment = "x".repeat(alloc, bytes)?;
    let mut text = format!(in alloc;
        r#"{{"version":1,"nodes":[{{"name":"n0","text":"{segment}","test":true}}"#
    )?;
    for n in 1..nodes {
        let parent = n - 1;
        let node = format!(in alloc;
            r#",{{"name":"n{n}","text":"{segment}","after":"n{parent}"}}"#
        )?;
        text.push_str(node.as_str())?;
    }
    text.push_str("]}")?;
    Ok(text)
}

/// A list of so many roots.
fn roots(alloc: Global, nodes: u32) -> Result<String, AllocError> {
    let mut text = format!(in alloc; r#"{{"version":1,"nodes":["#)?;
    for n in 0..nodes {
        let comma = if n == 0 { "" } else { "," };
        let node = format!(in alloc; r#"{comma}{{"name":"n{n}","text":"","test":true}}"#)?;
        text.push_str(node.as_str())?;
    }
    text.push_str("]}")?;
    Ok(text)
}

/// A test with a name of so many letters, which expects so many bytes.
fn expecting(alloc: Global, name: usize, bytes: usize) -> Result<String, AllocError> {
    let name = "a".repeat(alloc, name)?;
    let expect = "x".repeat(alloc, bytes)?;
    format!(in alloc;
        r#"{{"version":1,"nodes":[{{"name":"{name}","text":"","test":true,"expect_text":"{expect}"}}]}}"#
    )
}

/// A number of a row, at most 262,145.
fn number(text: &str) -> u32 {
    match text.parse::<u32>() {
        Ok(number) => if number <= 262_145 { number } else { 0 },
        Err(_) => 0,
    }
}

/// Two numbers of a row.
fn numbers(text: &str) -> (u32, u32) {
    let (first, second) = text.split_once(' ').unwrap_or(("", ""));
    (number(first), number(second))
}

fn as_bytes(alloc: Global, text: Result<String, AllocError>) -> Result<Vec<u8>, Memory> {
    Ok(Vec::from_slice(alloc, text?.as_bytes())?)
}

fn bytes_of(alloc: Global, text: &str) -> Result<Vec<u8>, Memory> {
    match hex::decode(alloc, text) {
        Ok(bytes) => Ok(bytes),
        Err(_) => Err(Memory),
    }
}

/// The bytes of the plan that a row tells.
pub fn plan_of(alloc: Global, row: &str) -> Result<Vec<u8>, Memory> {
    let (word, rest) = row.split_once(' ').unwrap_or(("", ""));
    match word {
        "plan" => Ok(Vec::from_slice(alloc, rest.as_bytes())?),
        "nodes" => as_bytes(
            alloc,
            format!(in alloc; r#"{{"version":1,"nodes":[{rest}]}}"#),
        ),
        "limits" => as_bytes(
            alloc,
            format!(in alloc;
                r#"{{"version":2,"nodes":[{{"name":"s","text":"","test":true}},{{"name":"t","text":"",{rest}}}]}}"#
            ),
        ),
        "hex" => bytes_of(alloc, rest),
        "chain" => {
            let (nodes, bytes) = numbers(rest);
            as_bytes(alloc, chain(alloc, nodes, bytes as usize))
        }
        "roots" => as_bytes(alloc, roots(alloc, number(rest))),
        "expect" => {
            let (name, bytes) = numbers(rest);
            as_bytes(alloc, expecting(alloc, name as usize, bytes as usize))
        }
        _ => Ok(Vec::new(alloc)),
    }
}
