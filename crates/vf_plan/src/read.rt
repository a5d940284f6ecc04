ghost use Rattle.std.specs.Prelude.{◌≡◌, ◌+◌, ◌≢◌, ◌<◌, ◌≤◌, [], length, IfOk, IfErr, Some, None, option_map};
ghost use Rattle.serde_json.specs.View.{view, items_view};
ghost use Rattle.vf_plan.specs.declared.fault.PlanKind.TheVariants as kinds;
ghost use Rattle.vf_plan.specs.Answers.{Gives, Reads};
ghost use Rattle.vf_plan.specs.Form.{form_of};
ghost use Rattle.vf_plan.specs.Reading.{decoded, segment_of, expect_of, node_after, with_next, nodes_after, outline_of, plan_of};

use crate::form::form_of;
use crate::json::{Keys, has_only, list_at, read_bytes, whole_at};
use crate::limits::MOST_NODES;
use crate::plan::{Node, Plan};
use crate::reader::Reader;
use crate::{PlanFault, PlanKind};
use hex::FromHexError;
use serde_json::Value;
use std::alloc::Global;
use vf_base::Text;

fn copied(alloc: Global, text: &str) -> Result<Text, PlanKind>
    ensures ok { IfOk result (λ copy. copy ≡ text.now) }
    ensures err { IfErr result (λ kind. kind ≡ kinds.Memory) }
{
    Ok(Text::new(Vec::from_slice(alloc, text.as_bytes())?))
}

/// The bytes of hex digits.
#[tactic(auto, unfolding(crate::specs::Reading::decoded))]
fn decoded(alloc: Global, digits: &str) -> Result<Text, PlanKind>
    ensures { Gives (λ bytes. bytes) result (decoded digits.now) }
{
    match hex::decode(alloc, digits.as_bytes()) {
        Ok(bytes) => Ok(Text::new(bytes)),
        Err(FromHexError::OutOfMemory) => Err(PlanKind::Memory),
        Err(_) => Err(PlanKind::BadHex),
    }
}

fn segment_of(alloc: Global, text: Option<&str>, hex: Option<&str>) -> Result<Text, PlanKind>
    ensures { Gives (λ bytes. bytes) result
        (segment_of (option_map (λ text. text.now) text.entry) (option_map (λ text. text.now) hex.entry)) }
{
    match (text, hex) {
        (Some(text), _) => copied(alloc, text),
        (None, Some(digits)) => decoded(alloc, digits),
        (None, None) => Ok(Text::new(Vec::new(alloc))),
    }
}

fn expect_of(alloc: Global, text: Option<&str>, hex: Option<&str>) -> Result<Option<Text>, PlanKind>
    ensures { Gives (λ bytes. bytes) result
        (expect_of (option_map (λ text. text.now) text.entry) (option_map (λ text. text.now) hex.entry)) }
{
    match (text, hex) {
        (Some(text), _) => Ok(Some(copied(alloc, text)?)),
        (None, Some(digits)) => Ok(Some(decoded(alloc, digits)?)),
        (None, None) => Ok(None),
    }
}

/// The node that a value writes after those read so far.
#[tactic(auto, unfolding(crate::specs::Reading::node_after))]
fn node_after(alloc: Global, version: u64, reader: &Reader, value: &Value) -> Result<Node, PlanKind>
    ensures { Gives (λ node. node) result (node_after version reader.now (view value.now)) }
{
    let Some((texts, marks)) = form_of(version, value) else {
        return Err(PlanKind::Shape);
    };
    let segment = segment_of(alloc, texts.text, texts.hex)?;
    let expect = expect_of(alloc, texts.expect_text, texts.expect)?;
    let parent = reader.placed(texts.name, texts.after)?;
    reader.bounded(Node {
        name: copied(alloc, texts.name)?,
        parent,
        segment,
        test: marks.test,
        expect,
        turns: marks.turns,
        output: marks.output,
    })
}

/// The fault of a node; that memory ran out is no fault of a node.
fn fault_at(kind: PlanKind, node: usize) -> PlanFault
    requires { node < MOST_NODES }
    ensures kind { result.kind ≡ kind }
    ensures node { kind ≢ kinds.Memory → result.node ≡ Some node }
    ensures memory { kind ≡ kinds.Memory → result.node ≡ None }
{
    match kind {
        PlanKind::Memory => PlanFault { kind, node: None },
        _ => PlanFault {
            kind,
            node: Some(node as u32),
        },
    }
}

/// Reads one node more.
#[tactic(auto, using(crate::proofs::NodeLemmas::node_after_is_behind))]
fn with_next(
    alloc: Global,
    version: u64,
    reader: Reader,
    value: &Value,
) -> Result<Reader, PlanFault>
    requires { length reader < MOST_NODES }
    ensures next { Reads (λ nodes. nodes) result (with_next version reader (view value.now)) }
    ensures length { IfOk result (λ nodes. length nodes ≡ length reader + 1) }
    ensures memory { IfErr result (λ fault. fault.kind ≡ kinds.Memory → fault.node ≡ None) }
{
    let number = reader.len();
    match node_after(alloc, version, &reader, value) {
        Ok(node) => Ok(reader.with(alloc, node)?),
        Err(kind) => Err(fault_at(kind, number)),
    }
}

fn read_nodes(alloc: Global, version: u64, values: &[Value]) -> Result<Reader, PlanFault>
    requires { length values.now ≤ MOST_NODES }
    ensures nodes { Reads (λ nodes. nodes) result (nodes_after version [] (items_view values.now)) }
    ensures length { IfOk result (λ nodes. length nodes ≡ length values.now) }
    ensures memory { IfErr result (λ fault. fault.kind ≡ kinds.Memory → fault.node ≡ None) }
{
    let mut reader = Reader::new(alloc);
    for value in values {
        reader = match with_next(alloc, version, reader, value) {
            Ok(next) => next,
            Err(fault) => return Err(fault),
        };
    }
    Ok(reader)
}

/// The version and the values of the nodes.
#[tactic(auto, unfolding(crate::specs::Reading::outline_of), using(crate::proofs::ReaderLemmas::items_len_of_view))]
fn outline_of(value: &Value) -> Result<(u64, &Vec<Value>), PlanKind>
    ensures outline { Gives (λ outline. record { version = outline.0; values = items_view outline.1.now.items }) result
        (outline_of (view value.now)) }
    ensures some { IfOk result (λ outline. 0 < length outline.1.now.items) }
    ensures most { IfOk result (λ outline. length outline.1.now.items ≤ MOST_NODES) }
    ensures memory { IfErr result (λ kind. kind ≢ kinds.Memory) }
{
    if !has_only(value, Keys::Plan) {
        return Err(PlanKind::Shape);
    }
    let Some(version) = whole_at(value, "version") else {
        return Err(PlanKind::Shape);
    };
    let Some(values) = list_at(value, "nodes") else {
        return Err(PlanKind::Shape);
    };
    if !(version == 1 || version == 2) || values.len() == 0 {
        return Err(PlanKind::Shape);
    }
    if values.len() > MOST_NODES {
        return Err(PlanKind::TooMany);
    }
    Ok((version, values))
}

/// Reads a plan of JSON (docs/FORMATS.md, "The plan"). The answer is the plan that the bytes are, or
/// their first fault; only `Memory`, which names no node, may come in place of either.
#[tactic(auto, unfolding(crate::specs::Reading::plan_of))]
pub fn read_plan(alloc: Global, bytes: &[u8]) -> Result<Plan, PlanFault>
    ensures plan { Reads (λ plan. plan) result (plan_of bytes.now) }
    ensures memory { IfErr result (λ fault. fault.kind ≡ kinds.Memory → fault.node ≡ None) }
{
    let value = read_bytes(alloc, bytes)?;
    let (version, values) = outline_of(&value)?;
    read_nodes(alloc, version, values)?.plan()
}
