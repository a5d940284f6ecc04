//! A plan that is too long to be written down.

use std::alloc::{AllocError, Global};
use std::fmt::Write;

/// Adds a node of a chain.
fn add(
    plan: &mut String,
    alloc: Global,
    chain: u64,
    at: u64,
    depth: u64,
) -> Result<(), AllocError> {
    let node = format!(in alloc; "{{\"name\":\"c{chain}_{at}\",\"text\":\"x\\n\"")?;
    plan.push_str(node.as_str())?;
    if at > 0 {
        let above = at - 1;
        let after = format!(in alloc; ",\"after\":\"c{chain}_{above}\"")?;
        plan.push_str(after.as_str())?;
    }
    if at.saturating_add(1) == depth {
        plan.push_str(",\"test\":true")?;
    }
    plan.push_str("}")
}

/// So many chains of so many nodes, one chain after the other.
pub fn chains(alloc: Global, count: u64, depth: u64) -> Result<String, AllocError> {
    let mut plan = String::from_str(alloc, "{\"version\":1,\"nodes\":[")?;
    for chain in 0..count {
        for at in 0..depth {
            if chain > 0 || at > 0 {
                plan.push_str(",")?;
            }
            add(&mut plan, alloc, chain, at, depth)?;
        }
    }
    plan.push_str("]}")?;
    Ok(plan)
}
