//! Commands on plans that a test makes: one that is cut at each place, chains of nodes, and long stimuli.

use crate::outside::{calm, echo, names, one_node, ran, text, told};
use std::alloc::Global;
use std::test::Fail;
use vf_base::{Memory, Text};

fn boot() -> &'static str {
    r#"{"version":1,"nodes":[{"name":"boot","text":"boot\n"},{"name":"a","after":"boot","text":"a\n","test":true},
{"name":"b","after":"boot","text":"b\n","test":true}]}"#
}

#[test]
fn a_plan_that_is_cut_is_no_plan(rt: HostRuntime) -> Result<(), Fail> {
    let plan = boot().as_bytes();
    for end in 0..plan.len() {
        let mut files = Vec::new(rt.alloc());
        files.push((text(rt.alloc(), "d.v")?, text(rt.alloc(), echo())?))?;
        files.push((
            text(rt.alloc(), "p.json")?,
            Text::new(Vec::from_slice(rt.alloc(), &plan[..end])?),
        ))?;
        let told = told(rt.alloc(), names(), files, calm())?;
        assert_eq!(rt; told.err.bytes(), "vfarm: plan: 1 NotJson\n".as_bytes());
        assert_eq!(rt; told.status, 4);
        assert_eq!(rt; told.out.bytes(), "".as_bytes());
    }
    Ok(())
}

// A chain of so many nodes, of which the last is a test.
fn chain_of(alloc: Global, nodes: u32) -> Result<String, Memory> {
    let mut plan = format!(in alloc;
        "{{\"version\":1,\"nodes\":[{{\"name\":\"n0\",\"text\":\"a\"}}"
    )?;
    for n in 1..nodes {
        let before = n - 1;
        let node = format!(in alloc;
            ",{{\"name\":\"n{n}\",\"after\":\"n{before}\",\"text\":\"a\",\"test\":true}}"
        )?;
        plan.push_str(node.as_str())?;
    }
    plan.push_str("]}")?;
    Ok(plan)
}

#[test]
fn a_chain_of_65_nodes_is_too_deep(rt: HostRuntime) -> Result<(), Fail> {
    for (nodes, status, line) in [
        (64u32, 0u8, ""),
        (65, 4, "vfarm: plan: 9 TooDeep at node 64\n"),
    ] {
        let plan = chain_of(rt.alloc(), nodes)?;
        let told = ran(rt.alloc(), echo(), plan.as_str())?;
        assert_eq!(rt; told.status, status);
        assert_eq!(rt; told.err.bytes(), line.as_bytes());
    }
    Ok(())
}

// The report of a completed test without an expectation: its ending and bytes, and its turns.
fn report(alloc: Global, ending: &str, turns: u64, written: &str) -> Result<String, Memory> {
    Ok(format!(in alloc;
        "test t {ending} turns {turns} bytes {written} expect none\n\
         tests 1 completed 1 met 0 failed 0 pages 0 memory 0 turns {turns}\n"
    )?)
}

// A text many times over.
fn repeated(alloc: Global, piece: &str, times: u32) -> Result<String, Memory> {
    let mut all = String::new(alloc);
    for _ in 0..times {
        all.push_str(piece)?;
    }
    Ok(all)
}

// The echo on a stimulus of one character many times: as JSON has it and as the report shows it.
fn echoed(
    alloc: Global,
    character: &str,
    hex: &str,
    times: u32,
    turns: u64,
) -> Result<bool, Memory> {
    let stimulus = repeated(alloc, character, times)?;
    let members = format!(in alloc; "\"text\":\"{stimulus}\"")?;
    let told = ran(
        alloc,
        echo(),
        one_node(alloc, 1, members.as_str())?.as_str(),
    )?;
    let shown = repeated(alloc, hex, times)?;
    let written = format!(in alloc; "{times} out {shown}")?;
    let report = report(alloc, "finish:0", turns, written.as_str())?;
    Ok(told.status == 0 && told.out.bytes() == report.as_bytes())
}

#[test]
fn a_segment_of_64_kib_is_echoed(rt: HostRuntime) -> Result<(), Fail> {
    // 4 turns, and 5 for each byte
    assert!(rt; echoed(rt.alloc(), "a", "61", 65_536, 327_684)?);
    Ok(())
}

#[test]
fn a_run_asks_for_300_checkpoints(rt: HostRuntime) -> Result<(), Fail> {
    // 4 turns, and 6 for each newline
    assert!(rt; echoed(rt.alloc(), "\\n", "0a", 300, 1804)?);
    Ok(())
}
