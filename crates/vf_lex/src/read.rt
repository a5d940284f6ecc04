//! Reads a text to its end, or up to its first fault.

ghost use Rattle.std.specs.Prelude.{◌≡◌, ℕ, ◌+◌, ◌^◌, ◌<◌, ◌≤◌, true, false, List, length, Some, Ok, Err, IfOk, IsNone};
ghost use Rattle.vf_macro.specs.MacroText.{IsMacroText};
ghost use Rattle.vf_lex.specs.Answers.{Gives, seen, left, Keeps, DoesSo, ReadsOne, ReadsAll, HasRoom};
ghost use Rattle.vf_lex.specs.Around.{is_taken, with_macro};
ghost use Rattle.vf_lex.specs.Reads.{fault_at, use_fault};
ghost use Rattle.vf_lex.specs.Elements.{kind_of, open_kind, token_effect, Does};
ghost use Rattle.vf_lex.specs.Inner.{around};

use crate::directive::{Step, directive_effect};
use crate::reader::Reader;
use crate::spot::Spot;
use crate::{LexFault, LexKind, Token};
use std::alloc::Global;
use vf_base::{Memory, Place};
use vf_lexeme::{Lexeme, LexemeFault, OpenFault, Passed, TokenKind, lexeme, passed};
use vf_macro::macro_text;

/// How many tokens a text may have.
const MOST_TOKENS: usize = 1 << 20;

/// How deep uses of macros nest at most.
const MOST_NESTED: u32 = 16;

/// How many bytes of the texts of macros may be read.
const MOST_MACRO_BYTES: usize = 1 << 26;

fn kind_of(fault: LexemeFault) -> LexKind
    ensures { result ≡ kind_of fault }
{
    match fault {
        LexemeFault::BadCharacter => LexKind::BadCharacter,
        LexemeFault::OpenComment => LexKind::OpenComment,
        LexemeFault::OpenString => LexKind::OpenString,
        LexemeFault::BadNumber => LexKind::BadNumber,
        LexemeFault::TooWide => LexKind::TooWide,
        LexemeFault::Memory => LexKind::Memory,
    }
}

fn open_kind(fault: OpenFault) -> LexKind
    ensures { result ≡ open_kind fault }
{
    match fault {
        OpenFault::Comment => LexKind::OpenComment,
        OpenFault::String => LexKind::OpenString,
    }
}

/// Appends a token, unless there are as many as a text may have.
#[tactic(auto, unfolding(crate::specs::Elements::token_effect))]
fn token_effect<'a>(
    reader: &mut Reader,
    place: Place,
    kind: TokenKind,
    rest: &'a [u8],
) -> Result<Step<'a>, LexKind>
    ensures effect { Gives (seen (around reader.new)) result (token_effect place (around reader.old) kind rest.now) }
    ensures kept { IfOk result (Keeps (around reader.old) (around reader.new)) }
    ensures rest { IfOk result (λ step. left step ≡ rest.now) }
{
    if reader.len() >= MOST_TOKENS {
        return Err(LexKind::TooMany);
    }
    reader.push(Token { kind, place })?;
    Ok(Step::Goes(rest))
}

/// The element at the front of a text that is taken.
fn taken_element<'a>(
    alloc: Global,
    reader: &mut Reader,
    place: Place,
    text: &'a [u8],
) -> Result<Step<'a>, LexKind>
    requires some { 0 < length text.now }
    requires taken { is_taken (around reader.old).conditions ≡ true }
    ensures effect { DoesSo result (around reader.new) place (around reader.old) text.now }
    ensures kept { IfOk result (Keeps (around reader.old) (around reader.new)) }
    ensures shorter { IfOk result (λ step. length (left step) < length text.now) }
{
    match lexeme(alloc, text) {
        Ok((found, rest)) => match found {
            Lexeme::Blank => Ok(Step::Goes(rest)),
            Lexeme::Token(kind) => token_effect(reader, place, kind, rest),
            Lexeme::Directive => directive_effect(alloc, reader, true, place, rest),
        },
        Err(fault) => Err(kind_of(fault)),
    }
}

/// The element at the front of a text that is not taken.
fn untaken_element<'a>(
    alloc: Global,
    reader: &mut Reader,
    place: Place,
    text: &'a [u8],
) -> Result<Step<'a>, LexKind>
    requires some { 0 < length text.now }
    requires passed { is_taken (around reader.old).conditions ≡ false }
    ensures effect { DoesSo result (around reader.new) place (around reader.old) text.now }
    ensures kept { IfOk result (Keeps (around reader.old) (around reader.new)) }
    ensures shorter { IfOk result (λ step. length (left step) < length text.now) }
{
    match passed(text) {
        Ok((Passed::Text, rest)) => Ok(Step::Goes(rest)),
        Ok((Passed::Directive, rest)) => directive_effect(alloc, reader, false, place, rest),
        Err(fault) => Err(open_kind(fault)),
    }
}

/// The element at the front of a text.
fn element<'a>(
    alloc: Global,
    reader: &mut Reader,
    place: Place,
    text: &'a [u8],
) -> Result<Step<'a>, LexKind>
    requires { 0 < length text.now }
    ensures effect { DoesSo result (around reader.new) place (around reader.old) text.now }
    ensures kept { IfOk result (Keeps (around reader.old) (around reader.new)) }
    ensures shorter { IfOk result (λ step. length (left step) < length text.now) }
{
    if reader.is_taken() {
        taken_element(alloc, reader, place, text)
    } else {
        untaken_element(alloc, reader, place, text)
    }
}

/// Defines a macro by the text that the bytes begin with.
fn define<'a>(
    alloc: Global,
    reader: &mut Reader,
    name: &[u8],
    bytes: &'a [u8],
) -> Result<&'a [u8], Memory>
    ensures defined { IfOk result (λ rest. (body : List ℕ) × IsMacroText bytes.now body rest.now
        × (around reader.new ≡ with_macro (around reader.old) name.now (Some body))) }
    ensures within { IfOk result (λ rest. length rest.now ≤ length bytes.now) }
{
    let (text, rest) = macro_text(alloc, bytes)?;
    reader.define(alloc, name, Some(text))?;
    Ok(rest)
}

fn fault_at(kind: LexKind, spot: Spot) -> LexFault
    ensures { result ≡ fault_at kind spot }
{
    LexFault {
        kind,
        place: spot.place,
    }
}

/// Why the text of a macro that is used here is not read; None where it is.
#[tactic(auto, unfolding(crate::specs::Reads::use_fault))]
fn use_fault(reader: &Reader, spot: Spot, body: &[u8]) -> Option<LexKind>
    ensures fault { result ≡ use_fault spot (around reader.now) body.now }
    ensures depth { IsNone result → spot.depth < 16 }
    ensures room { IsNone result → (around reader.now).macro_bytes + length body.now ≤ 2 ^ 26 }
{
    if spot.depth >= MOST_NESTED {
        return Some(LexKind::MacroDepth);
    }
    if reader.macro_bytes().saturating_add(body.len()) > MOST_MACRO_BYTES {
        return Some(LexKind::TooMany);
    }
    None
}

/// Reads what the element at the front of a text leads to, and gives the rest of the text.
#[cycle(reading)]
fn step<'a>(
    alloc: Global,
    reader: &mut Reader,
    spot: Spot,
    text: &'a [u8],
) -> Result<&'a [u8], LexFault>
    requires some { 0 < length text.now }
    requires depth { spot.depth ≤ 16 }
    ensures read { ReadsOne (λ rest. rest.now) result (around reader.new) spot (around reader.old) text.now }
    ensures shorter { IfOk result (λ rest. length rest.now < length text.now) }
{
    match element(alloc, reader, spot.place, text) {
        Ok(Step::Goes(rest)) => Ok(rest),
        Ok(Step::Defines { name, bytes }) => match define(alloc, reader, name, bytes) {
            Ok(rest) => Ok(rest),
            Err(_) => Err(fault_at(LexKind::Memory, spot)),
        },
        Ok(Step::Uses { body, rest }) => {
            let body = body.as_slice();
            if let Some(kind) = use_fault(reader, spot, body) {
                return Err(fault_at(kind, spot));
            }
            reader.count(body);
            read(alloc, reader, spot.nested(), body)?;
            Ok(rest)
        }
        Err(kind) => Err(fault_at(kind, spot)),
    }
}

/// Reads a text to its end.
#[cycle(reading)]
pub(crate) fn read(
    alloc: Global,
    reader: &mut Reader,
    spot: Spot,
    text: &[u8],
) -> Result<(), LexFault>
    requires { HasRoom spot text.now }
    ensures { ReadsAll result (around reader.new) spot (around reader.old) text.now }
{
    let mut spot = spot;
    let mut rest = text;
    while !rest.is_empty() {
        let after = step(alloc, reader, spot, rest)?;
        spot = spot.moved(&rest[..rest.len() - after.len()]);
        rest = after;
    }
    Ok(())
}
