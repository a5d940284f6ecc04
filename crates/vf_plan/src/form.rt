//! The form of a node in JSON.

ghost use Rattle.std.specs.Prelude.{◌≡◌, length, option_map, Some, None};
ghost use Rattle.std.specs.List.{list_all};
ghost use Rattle.serde_json.specs.View.{view};
ghost use Rattle.vf_plan.specs.Form.{is_name_byte, is_name, texts_of, has_limits, marks_of, limits_in, keys_of_node, segment_text, is_one, is_lawful, form_of};
ghost use Rattle.vf_plan.specs.Seen.{texts_seen, marks_seen};

use crate::json::{Keys, has_only, text_at, text_in, truth_in, whole_in};
use crate::limits::{LONGEST_NAME, MOST_OUTPUT, MOST_TURNS};
use serde_json::Value;

/// The texts that a node writes.
#[derive(Clone, Copy)]
pub(crate) struct Texts<'a> {
    pub(crate) name: &'a str,
    pub(crate) after: Option<&'a str>,
    pub(crate) text: Option<&'a str>,
    pub(crate) hex: Option<&'a str>,
    pub(crate) expect_text: Option<&'a str>,
    pub(crate) expect: Option<&'a str>,
}

/// Whether a node is a test, and its own limits.
#[derive(Clone, Copy)]
pub(crate) struct Marks {
    pub(crate) test: bool,
    pub(crate) turns: Option<u64>,
    pub(crate) output: Option<u64>,
}

fn is_name_byte(byte: u8) -> bool
    ensures { result ≡ is_name_byte byte }
{
    byte.is_ascii_alphanumeric() || byte == b'_' || byte == b'.' || byte == b'-'
}

fn are_name_bytes(bytes: &[u8]) -> bool
    ensures { result ≡ list_all is_name_byte bytes.now }
{
    bytes.iter().all(|byte| is_name_byte(*byte))
}

/// Whether a text is a lawful name of a node.
#[tactic(auto, unfolding(crate::specs::Form::is_name))]
fn is_name(name: &[u8]) -> bool
    ensures { result ≡ is_name name.now }
{
    match name {
        [] => false,
        [first, more @ ..] => {
            first.is_ascii_alphabetic() && more.len() < LONGEST_NAME && are_name_bytes(more)
        }
    }
}

#[tactic(auto, unfolding(crate::specs::Form::texts_of))]
fn texts_of(node: &Value) -> Option<Texts<'_>>
    ensures { option_map texts_seen result ≡ texts_of (view node.now) }
{
    let name = text_at(node, "name")?;
    let after = text_in(node, "after")?;
    let text = text_in(node, "text")?;
    let hex = text_in(node, "hex")?;
    let expect_text = text_in(node, "expect_text")?;
    let expect = text_in(node, "expect")?;
    Some(Texts {
        name,
        after,
        text,
        hex,
        expect_text,
        expect,
    })
}

/// Only a test of version 2 has limits.
fn limits_in(limited: bool, node: &Value) -> Option<Marks>
    ensures { option_map marks_seen result ≡ limits_in limited (view node.now) }
{
    if !limited {
        return Some(Marks {
            test: false,
            turns: None,
            output: None,
        });
    }
    let turns = whole_in(node, "turns", 1, MOST_TURNS)?;
    let output = whole_in(node, "output", 0, MOST_OUTPUT)?;
    Some(Marks {
        test: true,
        turns,
        output,
    })
}

fn has_limits(version: u64, test: bool) -> bool
    ensures { result ≡ has_limits version test }
{
    version == 2 && test
}

#[tactic(auto, unfolding(crate::specs::Form::marks_of))]
fn marks_of(version: u64, node: &Value) -> Option<Marks>
    ensures { option_map marks_seen result ≡ marks_of version (view node.now) }
{
    let test = truth_in(node, "test")?;
    let marks = limits_in(has_limits(version, test), node)?;
    Some(Marks { test, ..marks })
}

fn keys_of_node(limited: bool) -> Keys
    ensures { result ≡ keys_of_node limited }
{
    if limited {
        Keys::LimitedTest
    } else {
        Keys::Node
    }
}

/// How many bytes the text of a segment has.
fn segment_len(texts: &Texts) -> usize
    ensures { result ≡ length (segment_text (texts_seen texts.now)) }
{
    match (texts.text, texts.hex) {
        (Some(text), _) => text.len(),
        (None, Some(hex)) => hex.len(),
        (None, None) => 0,
    }
}

/// Whether just one of two texts is there.
fn is_one(first: Option<&str>, second: Option<&str>) -> bool
    ensures { result ≡ is_one (option_map (λ text. text.now) first.entry) (option_map (λ text. text.now) second.entry) }
{
    first.is_some() != second.is_some()
}

/// Whether the texts of a node fit together.
fn is_lawful(texts: &Texts) -> bool
    ensures { result ≡ is_lawful (texts_seen texts.now) }
{
    is_name(texts.name.as_bytes())
        && is_one(texts.text, texts.hex)
        && !(texts.expect_text.is_some() && texts.expect.is_some())
        && (texts.after.is_none() || segment_len(texts) > 0)
}

/// What a node of a plan of the version writes; `None` is another form.
#[tactic(auto, unfolding(crate::specs::Form::form_of))]
pub(crate) fn form_of(version: u64, node: &Value) -> Option<(Texts<'_>, Marks)>
    ensures { option_map (λ form. (texts_seen form.0, marks_seen form.1)) result
        ≡ form_of version (view node.now) }
{
    let texts = texts_of(node)?;
    let marks = marks_of(version, node)?;
    let keys = keys_of_node(has_limits(version, marks.test));
    if has_only(node, keys) && is_lawful(&texts) {
        Some((texts, marks))
    } else {
        None
    }
}
