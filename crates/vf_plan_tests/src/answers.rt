//! What the reader makes of a plan.

use std::alloc::{AllocError, Global};
use vf_base::{NodeNo, Text};
use vf_plan::{Node, Plan, PlanFault, joined, read_plan};

/// Bytes in hex, `-` where there are none.
fn hexed(alloc: Global, bytes: &[u8]) -> Result<String, AllocError> {
    if bytes.is_empty() {
        return format!(in alloc; "-");
    }
    hex::encode(alloc, bytes)
}

fn fault_text(alloc: Global, fault: &PlanFault) -> Result<String, AllocError> {
    match fault.node {
        Some(node) => format!(in alloc; "{:?} at {node}", fault.kind),
        None => format!(in alloc; "{:?}", fault.kind),
    }
}

/// Appends what a test has beside its segment.
fn push_test(alloc: Global, node: &Node, into: &mut String) -> Result<(), AllocError> {
    if node.test {
        into.push_str(" test")?;
    }
    if let Some(turns) = node.turns {
        write!(into, " turns {turns}")?;
    }
    if let Some(output) = node.output {
        write!(into, " output {output}")?;
    }
    if let Some(expect) = &node.expect {
        let bytes = hexed(alloc, expect.bytes())?;
        write!(into, " expect {bytes}")?;
    }
    Ok(())
}

fn node_text(alloc: Global, node: &Node) -> Result<String, AllocError> {
    let name = String::from_utf8_lossy(alloc, node.name.bytes())?;
    let segment = hexed(alloc, node.segment.bytes())?;
    let mut text = match node.parent {
        Some(parent) => format!(in alloc; "{name} after {} {segment}", parent.0)?,
        None => format!(in alloc; "{name} {segment}")?,
    };
    push_test(alloc, node, &mut text)?;
    Ok(text)
}

/// Whether the whole of the plan is shown.
fn is_short(nodes: &[Node]) -> bool {
    nodes.len() <= 4
        && nodes.iter().all(|node| node.segment.bytes().len() <= 100
            && node
                .expect
                .as_ref()
                .map_or(true, |bytes| bytes.bytes().len() <= 100))
}

fn plan_text(alloc: Global, plan: &Plan) -> Result<String, AllocError> {
    let nodes = plan.nodes.len();
    if nodes == 0 || !is_short(&plan.nodes) {
        return format!(in alloc; "{nodes} nodes");
    }
    let mut text = String::new(alloc);
    for node in &plan.nodes {
        let node = node_text(alloc, node)?;
        write!(text, "{node}; ")?;
    }
    let Ok(stimulus) = joined(alloc, plan, NodeNo((nodes - 1) as u32)) else {
        return Err(AllocError);
    };
    let stimulus = hexed(alloc, &stimulus)?;
    write!(text, "stimulus {stimulus}")?;
    Ok(text)
}

/// The first fault of a plan, or its nodes.
pub fn answer(alloc: Global, bytes: &[u8]) -> Result<String, AllocError> {
    match read_plan(alloc, bytes) {
        Ok(plan) => plan_text(alloc, &plan),
        Err(fault) => fault_text(alloc, &fault),
    }
}
