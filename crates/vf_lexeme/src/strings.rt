//! Strings (clause 3.6).

ghost use Rattle.std.specs.Prelude.{◌≡◌, ◌≤◌, ◌==◌, ◌&&◌, not, true, false, [], ◌∷◌, length, Ok};
ghost use Rattle.std.specs.Option.{option_map};
ghost use Rattle.vf_lexeme.specs.Strings.{is_octal, octal_byte};
ghost use Rattle.vf_lexeme.specs.Reading.{Gives, inside_at, octal_code, escape_code, piece, decoded, string_token};

use crate::{Lexeme, LexemeFault, TokenKind};
use std::alloc::Global;
use vf_base::Text;

/// Whether a byte of a string ends it.
fn closes(escaped: bool, byte: u8) -> bool
    ensures { result ≡ (not escaped && byte == 34) }
{
    !escaped && byte == b'"'
}

/// Whether a byte of a string makes the next one part of an escape.
fn escapes(escaped: bool, byte: u8) -> bool
    ensures { result ≡ (not escaped && byte == 92) }
{
    !escaped && byte == b'\\'
}

/// What stands between the quotes of a string, and the bytes after it, in a text that begins after the first quote;
/// None where no quote ends it on its line.
pub(crate) fn inside<'a>(text: &'a [u8]) -> Option<(&'a [u8], &'a [u8])>
    ensures { option_map (λ r. (r.0.now, r.1.now)) result ≡ inside_at false text.now }
{
    let mut escaped = false;
    for at in 0..text.len() {
        let byte = text[at];
        if byte == b'\n' {
            return None;
        }
        if closes(escaped, byte) {
            return Some((&text[..at], &text[at + 1..]));
        }
        escaped = escapes(escaped, byte);
    }
    None
}

fn is_octal(byte: u8) -> bool
    ensures { result ≡ is_octal byte }
{
    b'0' <= byte && byte <= b'7'
}

/// The byte that two octal digits write.
fn octal_pair(first: u8, second: u8) -> u8
    requires first { is_octal first ≡ true }
    requires second { is_octal second ≡ true }
    ensures { result ≡ octal_byte (first ∷ second ∷ []) }
{
    (first - b'0') * 8 + (second - b'0')
}

/// The low 8 bits of what three octal digits write.
fn octal_triple(first: u8, second: u8, third: u8) -> u8
    requires first { is_octal first ≡ true }
    requires second { is_octal second ≡ true }
    requires third { is_octal third ≡ true }
    ensures { result ≡ octal_byte (first ∷ second ∷ third ∷ []) }
{
    let value = u16::from(first - b'0') * 64
        + u16::from(second - b'0') * 8
        + u16::from(third - b'0');
    (value % 256) as u8
}

/// The byte that one to three octal digits write, as many as stand there, and how many stand after the first.
#[tactic(auto, unfolding(crate::specs::Reading::octal_code))]
fn octal_code(first: u8, rest: &[u8]) -> (u8, usize)
    requires { is_octal first ≡ true }
    ensures value { result ≡ octal_code first rest.now }
    ensures within { result.1 ≤ length rest.now }
{
    match rest {
        [] => (first - b'0', 0),
        [second] => {
            if is_octal(*second) {
                return (octal_pair(first, *second), 1);
            }
            (first - b'0', 0)
        }
        [second, third, ..] => {
            if !is_octal(*second) {
                return (first - b'0', 0);
            }
            if is_octal(*third) {
                return (octal_triple(first, *second, *third), 2);
            }
            (octal_pair(first, *second), 1)
        }
    }
}

/// The byte that stands for what follows a `\`, and how many bytes after the first write it.
#[tactic(auto, unfolding(crate::specs::Reading::escape_code))]
fn escape_code(first: u8, rest: &[u8]) -> (u8, usize)
    ensures value { result ≡ escape_code first rest.now }
    ensures within { result.1 ≤ length rest.now }
{
    if first == b'n' {
        return (b'\n', 0);
    }
    if first == b't' {
        return (b'\t', 0);
    }
    if is_octal(first) {
        return octal_code(first, rest);
    }
    (first, 0)
}

/// The first byte of what a string's text stands for, and how many bytes after the first write it.
#[tactic(auto, unfolding(crate::specs::Reading::piece))]
fn piece(first: u8, rest: &[u8]) -> (u8, usize)
    ensures value { result ≡ piece first rest.now }
    ensures within { result.1 ≤ length rest.now }
{
    match rest {
        [] => (first, 0),
        [next, more @ ..] => {
            if first != b'\\' {
                return (first, 0);
            }
            let (byte, count) = escape_code(*next, more);
            (byte, count + 1)
        }
    }
}

/// The bytes that a string's text stands for.
fn decoded(alloc: Global, inside: &[u8]) -> Result<Text, LexemeFault>
    ensures { Gives (λ text. text) result (Ok (decoded 0 inside.now)) }
{
    let mut value = Vec::new(alloc);
    let mut rest = inside;
    while let Some((first, more)) = rest.split_first() {
        let (byte, count) = piece(*first, more);
        value.push(byte)?;
        rest = more.split_at(count).1;
    }
    Ok(Text::new(value))
}

/// The string after its first quote.
#[tactic(auto, unfolding(crate::specs::Reading::string_token))]
pub(crate) fn string_token<'a>(
    alloc: Global,
    text: &'a [u8],
) -> Result<(Lexeme, &'a [u8]), LexemeFault>
    ensures { Gives (λ r. (r.0, r.1.now)) result (string_token text.now) }
{
    let Some((inside, rest)) = inside(text) else {
        return Err(LexemeFault::OpenString);
    };
    let value = decoded(alloc, inside)?;
    Ok((Lexeme::Token(TokenKind::Quoted(value)), rest))
}
