//! What is printed for a case.

use crate::texts::{Case, Rule, Shown};
use std::alloc::Global;
use vf_base::{Memory, Place};
use vf_expression::{Stop, expression};
use vf_lex::{Token, tokens};
use vf_parse::{ParseKind, parse};
use vf_spell::{Spelling, spell_expression, spell_source, spell_statement};
use vf_statement::statement;
use vf_tree::Source;

/// The most bytes that a text has.
const LONGEST: usize = 67_108_864;

fn spell_place(place: Place, into: &mut Spelling) -> Result<(), Memory> {
    into.text(b" at ")?;
    into.number(u128::from(place.line))?;
    into.text(b":")?;
    into.number(u128::from(place.column))
}

/// Where a reader stopped: at a token, or at the end of the tokens.
fn spell_stop(stop: Stop, tokens: &[Token], into: &mut Spelling) -> Result<(), Memory> {
    let Stop::Unexpected(left) = stop else {
        return into.text(b"Memory");
    };
    into.text(b"Unexpected")?;
    match tokens.get(tokens.len().saturating_sub(left)) {
        Some(token) => spell_place(token.place, into),
        None => into.text(b" at the end"),
    }
}

/// The modules of a design, each with its number of items.
fn spell_outline(tree: &Source, into: &mut Spelling) -> Result<(), Memory> {
    for module in tree.modules.as_slice() {
        into.text(module.name.text.bytes())?;
        into.text(b" ")?;
        into.number(module.items.as_slice().len() as u128)?;
        into.text(b";")?;
    }
    Ok(())
}

fn spell_expressions_case(
    alloc: Global,
    shown: Shown,
    tokens: &[Token],
    into: &mut Spelling,
) -> Result<(), Memory> {
    match expression(alloc, tokens) {
        Ok(_) if shown == Shown::Fits => into.text(b"fits"),
        Ok(tree) => spell_expression(&tree, into),
        Err(stop) => spell_stop(stop, tokens, into),
    }
}

fn spell_statements_case(
    alloc: Global,
    shown: Shown,
    tokens: &[Token],
    into: &mut Spelling,
) -> Result<(), Memory> {
    match statement(alloc, tokens) {
        Ok(_) if shown == Shown::Fits => into.text(b"fits"),
        Ok(tree) => spell_statement(&tree, into),
        Err(stop) => spell_stop(stop, tokens, into),
    }
}

fn kind_text(kind: ParseKind) -> &'static [u8] {
    match kind {
        ParseKind::Unexpected => b"Unexpected",
        ParseKind::LeftOut => b"LeftOut",
        ParseKind::TooDeep => b"TooDeep",
        ParseKind::Memory => b"Memory",
    }
}

fn spell_designs_case(
    alloc: Global,
    shown: Shown,
    tokens: &[Token],
    into: &mut Spelling,
) -> Result<(), Memory> {
    match parse(alloc, tokens) {
        Ok(tree) => match shown {
            Shown::Fits => into.text(b"fits"),
            Shown::Outline => spell_outline(&tree, into),
            Shown::Tree | Shown::Places => spell_source(&tree, into),
        },
        Err(fault) => {
            into.text(kind_text(fault.kind))?;
            spell_place(fault.place, into)
        }
    }
}

fn spell_case(
    alloc: Global,
    case: &Case,
    tokens: &[Token],
    into: &mut Spelling,
) -> Result<(), Memory> {
    match case.rule {
        Rule::Expression => spell_expressions_case(alloc, case.shown, tokens, into),
        Rule::Statement => spell_statements_case(alloc, case.shown, tokens, into),
        Rule::Design => spell_designs_case(alloc, case.shown, tokens, into),
    }
}

/// What is printed for a case.
pub fn answer(alloc: Global, case: &Case) -> Result<String, Memory> {
    let mut into = Spelling::new(alloc, case.shown == Shown::Places);
    let text = case.text.as_bytes();
    if text.len() > LONGEST {
        into.text(b"too long")?;
    } else {
        match tokens(alloc, text) {
            Ok(found) => spell_case(alloc, case, found.as_slice(), &mut into)?,
            Err(fault) => {
                into.text(b"no tokens")?;
                spell_place(fault.place, &mut into)?;
            }
        }
    }
    Ok(String::from_utf8_lossy(alloc, &into.bytes)?)
}
