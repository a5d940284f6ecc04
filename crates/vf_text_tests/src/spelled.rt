//! Tokens of whole texts, spelled out.

use std::alloc::Global;
use vf_base::{Memory, Place, write_decimal};
use vf_fours::Fours;
use vf_lex::{LexFault, Token, TokenKind, tokens};

/// More bytes than any text of a test has.
const LONGEST: usize = 8_388_608;

fn spell_place(place: Place, into: &mut Vec<u8>) -> Result<(), Memory> {
    into.push(b'@')?;
    write_decimal(u64::from(place.line), into)?;
    into.push(b':')?;
    write_decimal(u64::from(place.column), into)
}

fn spell_plane(plane: u128, into: &mut Vec<u8>) -> Result<(), Memory> {
    write_decimal(u64::try_from(plane).unwrap_or(u64::MAX), into)
}

fn spell_number(number: &Fours, into: &mut Vec<u8>) -> Result<(), Memory> {
    into.push(b'#')?;
    if number.width() == 32 && number.is_signed() && number.unknown() == 0 {
        return spell_plane(number.ones(), into);
    }
    write_decimal(u64::from(number.width()), into)?;
    if number.is_signed() {
        into.push(b's')?;
    }
    into.push(b'\'')?;
    spell_plane(number.ones(), into)?;
    into.push(b'/')?;
    spell_plane(number.unknown(), into)
}

fn spell_text(letter: u8, text: &[u8], into: &mut Vec<u8>) -> Result<(), Memory> {
    into.push(letter)?;
    into.push(b':')?;
    into.extend_from_slice(text)?;
    Ok(())
}

fn spell_kind(kind: &TokenKind, into: &mut Vec<u8>) -> Result<(), Memory> {
    match kind {
        TokenKind::Name(text) => spell_text(b'N', text.bytes(), into),
        TokenKind::System(text) => spell_text(b'Y', text.bytes(), into),
        TokenKind::Word(text) => spell_text(b'W', text.bytes(), into),
        TokenKind::Number(number) => spell_number(number, into),
        TokenKind::Quoted(text) => spell_text(b'Q', text.bytes(), into),
        TokenKind::Sign(text) => spell_text(b'S', text.bytes(), into),
    }
}

fn spell_tokens(tokens: &[Token], into: &mut Vec<u8>) -> Result<(), Memory> {
    for token in tokens {
        if !into.is_empty() {
            into.push(b' ')?;
        }
        spell_kind(&token.kind, into)?;
        spell_place(token.place, into)?;
    }
    Ok(())
}

fn spell_fault(fault: LexFault, into: &mut Vec<u8>) -> Result<(), Memory> {
    into.push(b'!')?;
    write_decimal(fault.kind as u64, into)?;
    spell_place(fault.place, into)
}

/// The tokens of the text, or its first fault.
pub fn spelled(alloc: Global, text: &[u8]) -> Result<Vec<u8>, Memory> {
    let mut into = Vec::new(alloc);
    if text.len() > LONGEST {
        return Ok(into);
    }
    match tokens(alloc, text) {
        Ok(tokens) => spell_tokens(tokens.as_slice(), &mut into)?,
        Err(fault) => spell_fault(fault, &mut into)?,
    }
    Ok(into)
}

/// How many tokens a text has.
pub fn count(alloc: Global, text: &[u8]) -> Option<usize> {
    if text.len() > LONGEST {
        return None;
    }
    Some(tokens(alloc, text).ok()?.len())
}
