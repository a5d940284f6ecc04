//! Lexemes at the front of texts, and what is passed over in texts that are not taken.

use std::alloc::{AllocError, Global};
use vf_fours::Fours;
use vf_lexeme::{Lexeme, LexemeFault, OpenFault, Passed, TokenKind, lexeme, passed};

/// A length, a word, and bytes after it.
fn named(alloc: Global, length: usize, word: &str, bytes: &[u8]) -> Result<Vec<u8>, AllocError> {
    let front = format!(in alloc; "{length} {word}")?;
    let mut shown = Vec::from_slice(alloc, front.as_bytes())?;
    if !bytes.is_empty() {
        shown.push(b' ')?;
        shown.extend_from_slice(bytes)?;
    }
    Ok(shown)
}

/// A number: its width, with `s` where it is signed, and its planes in hex.
pub fn number_text(alloc: Global, value: Fours) -> Result<String, AllocError> {
    let mark = if value.is_signed() { "s" } else { "" };
    format!(in alloc;
        "{}{mark} {:x} {:x}",
        value.width(),
        value.ones(),
        value.unknown()
    )
}

fn token(alloc: Global, length: usize, kind: &TokenKind) -> Result<Vec<u8>, AllocError> {
    match kind {
        TokenKind::Name(text) => named(alloc, length, "name", text.bytes()),
        TokenKind::System(text) => named(alloc, length, "system", text.bytes()),
        TokenKind::Word(text) => named(alloc, length, "word", text.bytes()),
        TokenKind::Quoted(text) => named(alloc, length, "quoted", text.bytes()),
        TokenKind::Sign(text) => named(alloc, length, "sign", text.bytes()),
        TokenKind::Number(value) => {
            let text = number_text(alloc, *value)?;
            named(alloc, length, "number", text.as_bytes())
        }
    }
}

fn fault_name(fault: LexemeFault) -> &'static str {
    match fault {
        LexemeFault::BadCharacter => "BadCharacter",
        LexemeFault::OpenComment => "OpenComment",
        LexemeFault::OpenString => "OpenString",
        LexemeFault::BadNumber => "BadNumber",
        LexemeFault::TooWide => "TooWide",
        LexemeFault::Memory => "Memory",
    }
}

fn lexeme_text(alloc: Global, length: usize, lexeme: &Lexeme) -> Result<Vec<u8>, AllocError> {
    match lexeme {
        Lexeme::Blank => named(alloc, length, "blank", b""),
        Lexeme::Directive => named(alloc, length, "directive", b""),
        Lexeme::Token(kind) => token(alloc, length, kind),
    }
}

/// The lexeme or the fault at the front of a text.
pub fn lexeme_at(alloc: Global, text: &[u8]) -> Result<Vec<u8>, AllocError> {
    if text.is_empty() {
        return Ok(Vec::new(alloc));
    }
    match lexeme(alloc, text) {
        Ok((found, rest)) => lexeme_text(alloc, text.len() - rest.len(), &found),
        Err(fault) => Vec::from_slice(alloc, fault_name(fault).as_bytes()),
    }
}

/// What is passed over at the front of a text that is not taken.
pub fn passed_at(alloc: Global, text: &[u8]) -> Result<Vec<u8>, AllocError> {
    if text.is_empty() {
        return Ok(Vec::new(alloc));
    }
    match passed(text) {
        Ok((Passed::Text, rest)) => named(alloc, text.len() - rest.len(), "text", b""),
        Ok((Passed::Directive, rest)) => named(alloc, text.len() - rest.len(), "directive", b""),
        Err(OpenFault::String) => Vec::from_slice(alloc, b"OpenString"),
        Err(OpenFault::Comment) => Vec::from_slice(alloc, b"OpenComment"),
    }
}
