//! What stands in a JSON value, in the words of a plan.

ghost use Rattle.std.specs.Prelude.{◌≡◌, ◌≤◌, ◌≢◌, option_map, IfOk, IsErrOf, IfErr, Some, None, string_bytes};
ghost use Rattle.serde_json.specs.Find.{get};
ghost use Rattle.serde_json.specs.View.{view, items_view};
ghost use Rattle.vf_plan.specs.Form.{text_at, text_in, truth_in, whole_in, in_range, is_node_key, is_key, has_only};
ghost use Rattle.vf_plan.specs.Reading.{whole_at, list_at, read_bytes};
ghost use Rattle.vf_plan.specs.declared.fault.PlanKind.TheVariants as kinds;
ghost use Rattle.std.specs.List.{list_all};
ghost use Rattle.std.specs.BTreeMap as BTreeMap;

use crate::PlanKind;
use serde_json::{Map, Value};
use std::alloc::Global;

/// The JSON value that the bytes write.
#[tactic(auto, unfolding(crate::specs::Reading::read_bytes))]
pub(crate) fn read_bytes(alloc: Global, bytes: &[u8]) -> Result<Value, PlanKind>
    ensures ok { IfOk result (λ value. read_bytes bytes.now ≡ Some (view value)) }
    ensures not_json { IsErrOf result PlanKind.NotJson → read_bytes bytes.now ≡ None }
    ensures kinds { IfErr result (λ kind. kind ≢ kinds.Memory → kind ≡ kinds.NotJson) }
{
    match Value::from_slice(alloc, bytes) {
        Ok(value) => Ok(value),
        Err(error) => {
            if error.is_memory() {
                Err(PlanKind::Memory)
            } else {
                Err(PlanKind::NotJson)
            }
        }
    }
}

/// Which keys an object of a plan file may have.
#[derive(Clone, Copy)]
pub(crate) enum Keys {
    /// Those of the whole plan.
    Plan,
    /// Those of a node.
    Node,
    /// Those of a test that may have limits of its own.
    LimitedTest,
}

#[tactic(auto, unfolding(crate::specs::Form::is_node_key))]
fn is_node_key(key: &str) -> bool
    ensures { result ≡ is_node_key key.now }
{
    key == "name"
        || key == "after"
        || key == "text"
        || key == "hex"
        || key == "test"
        || key == "expect_text"
        || key == "expect"
}

#[tactic(auto, unfolding(crate::specs::Form::is_key))]
fn is_key(keys: Keys, key: &str) -> bool
    ensures { result ≡ is_key keys key.now }
{
    match keys {
        Keys::Plan => key == "version" || key == "nodes",
        Keys::Node => is_node_key(key),
        Keys::LimitedTest => is_node_key(key) || key == "turns" || key == "output",
    }
}

fn are_keys(keys: Keys, members: &Map<String, Value>) -> bool
    ensures { result ≡ list_all (λ key. is_key keys (string_bytes key)) (BTreeMap.keys members.now) }
{
    members.keys().all(|key| is_key(keys, key.as_str()))
}

/// Whether a value is an object that has no other keys.
pub(crate) fn has_only(value: &Value, keys: Keys) -> bool
    ensures { result ≡ has_only keys (view value.now) }
{
    match value.as_object() {
        Some(members) => are_keys(keys, members),
        None => false,
    }
}

/// The text that must stand at a key.
pub(crate) fn text_at<'a>(value: &'a Value, key: &str) -> Option<&'a str>
    ensures { option_map (λ text. text.now) result ≡ text_at key.now (view value.now) }
{
    value.get(key)?.as_str()
}

/// The text that may stand at a key; `None` is another form.
pub(crate) fn text_in<'a>(value: &'a Value, key: &str) -> Option<Option<&'a str>>
    ensures { option_map (option_map (λ text. text.now)) result
        ≡ text_in (get key.now (view value.now)) }
{
    match value.get(key) {
        None => Some(None),
        Some(found) => Some(Some(found.as_str()?)),
    }
}

/// The truth at a key, false where the key is not there; `None` is another form.
pub(crate) fn truth_in(value: &Value, key: &str) -> Option<bool>
    ensures { result ≡ truth_in (get key.now (view value.now)) }
{
    match value.get(key) {
        None => Some(false),
        Some(found) => found.as_bool(),
    }
}

/// The whole number from `least` to `most` that may stand at a key; `None` is another form.
pub(crate) fn whole_in(value: &Value, key: &str, least: u64, most: u64) -> Option<Option<u64>>
    ensures { result ≡ whole_in least most (get key.now (view value.now)) }
{
    match value.get(key) {
        None => Some(None),
        Some(found) => in_range(found.as_u64()?, least, most),
    }
}

fn in_range(number: u64, least: u64, most: u64) -> Option<Option<u64>>
    ensures { result ≡ in_range least most number }
{
    if least <= number && number <= most {
        Some(Some(number))
    } else {
        None
    }
}

pub(crate) fn whole_at(value: &Value, key: &str) -> Option<u64>
    ensures { result ≡ whole_at key.now (view value.now) }
{
    value.get(key)?.as_u64()
}

pub(crate) fn list_at<'a>(value: &'a Value, key: &str) -> Option<&'a Vec<Value>>
    ensures { option_map (λ list. items_view list.now.items) result
        ≡ list_at key.now (view value.now) }
{
    value.get(key)?.as_array()
}
