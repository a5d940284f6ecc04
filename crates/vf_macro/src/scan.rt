//! The text of a macro: its end is found part by part, and each joint in it becomes a blank.

ghost use Rattle.std.specs.Prelude.{◌≡◌, ℕ, ◌+◌, ◌<◌, ◌≤◌, ◌∷◌, List, length, drop, IfOk, IfSome};
ghost use Rattle.std.specs.Option.{option_map};
ghost use Rattle.vf_lexeme.specs.Bytes.{is_no_blank, is_no_newline};
ghost use Rattle.vf_macro.specs.MacroText.{Counts, Reaches, IsMacroText};
ghost use Rattle.vf_macro.specs.Scanning.{is_byte, after_class, after_end, after_joint, after_close, or_else, unless, step, Runs, slash_kind, bracket_kind, kind_by, kind_at, opening, seen, closed, SeesString, SeesKind, Sees};

use std::alloc::Global;
use vf_base::Memory;
use vf_lexeme::{after_line, is_blank, passed};
use vf_number::begins_with;

/// A part whose inside is read byte by byte.
#[derive(Clone, Copy)]
pub(crate) enum Inside {
    /// An escaped name.
    Escaped,
    /// A comment up to `*/`.
    Comment,
    /// An attribute.
    Attribute,
}

/// What begins the bytes of a part.
#[derive(Clone, Copy)]
pub(crate) enum Kind {
    /// The end of the line or of the bytes.
    End,
    /// A string.
    Quote,
    /// An escaped name.
    Escaped,
    /// A comment up to the end of the line.
    Line,
    /// A comment up to `*/`.
    Comment,
    /// An attribute.
    Attribute,
    /// A byte that begins none of the others.
    Other,
}

/// A part of a macro's text.
#[derive(Clone, Copy)]
pub(crate) enum Part<'a> {
    /// A part after which the text goes on, and what follows it.
    Whole(&'a [u8]),
    /// The last part, and what follows the text.
    Last(&'a [u8]),
}

/// What follows the byte at the front, where it is this one.
#[tactic(auto, unfolding(crate::specs::Scanning::after_class))]
fn after_byte(byte: u8, bytes: &[u8]) -> Option<&[u8]>
    ensures value { option_map (λ rest. rest.now) result ≡ after_class (is_byte byte) bytes.now }
    ensures shorter { IfSome result (λ rest. length rest.now < length bytes.now) }
{
    match bytes {
        [first, rest @ ..] => {
            if *first == byte {
                return Some(rest);
            }
            None
        }
        [] => None,
    }
}

/// What follows the byte at the front, where it is not a blank.
#[tactic(auto, unfolding(crate::specs::Scanning::after_class))]
fn after_no_blank(bytes: &[u8]) -> Option<&[u8]>
    ensures value { option_map (λ rest. rest.now) result ≡ after_class is_no_blank bytes.now }
    ensures shorter { IfSome result (λ rest. length rest.now < length bytes.now) }
{
    match bytes {
        [first, rest @ ..] => {
            if !is_blank(*first) {
                return Some(rest);
            }
            None
        }
        [] => None,
    }
}

/// What follows the byte at the front, where it does not end the line.
#[tactic(auto, unfolding(crate::specs::Scanning::after_class))]
fn after_no_newline(bytes: &[u8]) -> Option<&[u8]>
    ensures value { option_map (λ rest. rest.now) result ≡ after_class is_no_newline bytes.now }
    ensures shorter { IfSome result (λ rest. length rest.now < length bytes.now) }
{
    match bytes {
        [first, rest @ ..] => {
            if *first != b'\n' {
                return Some(rest);
            }
            None
        }
        [] => None,
    }
}

/// What follows a newline at the front, or a carriage return and a newline.
#[tactic(auto, unfolding(crate::specs::Scanning::after_end))]
fn after_end(bytes: &[u8]) -> Option<&[u8]>
    ensures value { option_map (λ rest. rest.now) result ≡ after_end bytes.now }
    ensures shorter { IfSome result (λ rest. length rest.now < length bytes.now) }
{
    match bytes {
        [first, rest @ ..] => {
            if *first == b'\n' {
                return Some(rest);
            }
            if *first == b'\r' {
                return after_byte(b'\n', rest);
            }
            None
        }
        [] => None,
    }
}

/// What follows a `\` and the end of its line at the front.
#[tactic(auto, unfolding(crate::specs::Scanning::after_joint))]
fn after_joint(bytes: &[u8]) -> Option<&[u8]>
    ensures value { option_map (λ rest. rest.now) result ≡ after_joint bytes.now }
    ensures shorter { IfSome result (λ rest. length rest.now < length bytes.now) }
{
    match bytes {
        [first, rest @ ..] => {
            if *first == b'\\' {
                return after_end(rest);
            }
            None
        }
        [] => None,
    }
}

/// What follows a `*` and this byte at the front.
#[tactic(auto, unfolding(crate::specs::Scanning::after_close))]
fn after_close(close: u8, bytes: &[u8]) -> Option<&[u8]>
    ensures value { option_map (λ rest. rest.now) result ≡ after_close close bytes.now }
    ensures shorter { IfSome result (λ rest. length rest.now < length bytes.now) }
{
    match bytes {
        [first, rest @ ..] => {
            if *first == b'*' {
                return after_byte(close, rest);
            }
            None
        }
        [] => None,
    }
}

/// What follows the byte at the front, where it stands in an escaped name.
fn after_escaped(bytes: &[u8]) -> Option<&[u8]>
    ensures value { option_map (λ rest. rest.now) result ≡ unless (after_joint bytes.now) (after_class is_no_blank bytes.now) }
    ensures shorter { IfSome result (λ rest. length rest.now < length bytes.now) }
{
    match after_joint(bytes) {
        Some(_) => None,
        None => after_no_blank(bytes),
    }
}

/// What follows the byte at the front, where it stands on the line and no `*` with this byte begins there.
fn after_unclosed(close: u8, bytes: &[u8]) -> Option<&[u8]>
    ensures value { option_map (λ rest. rest.now) result
        ≡ unless (after_close close bytes.now) (after_class is_no_newline bytes.now) }
    ensures shorter { IfSome result (λ rest. length rest.now < length bytes.now) }
{
    match after_close(close, bytes) {
        Some(_) => None,
        None => after_no_newline(bytes),
    }
}

/// What follows the byte or joint at the front, where it stands in an attribute.
fn after_attribute(bytes: &[u8]) -> Option<&[u8]>
    ensures value { option_map (λ rest. rest.now) result
        ≡ or_else (after_joint bytes.now) (unless (after_close 41 bytes.now) (after_class is_no_newline bytes.now)) }
    ensures shorter { IfSome result (λ rest. length rest.now < length bytes.now) }
{
    match after_joint(bytes) {
        Some(rest) => Some(rest),
        None => after_unclosed(b')', bytes),
    }
}

/// What follows the byte or joint at the front, where it stands inside.
fn step(inside: Inside, bytes: &[u8]) -> Option<&[u8]>
    ensures value { option_map (λ rest. rest.now) result ≡ step inside bytes.now }
    ensures shorter { IfSome result (λ rest. length rest.now < length bytes.now) }
{
    match inside {
        Inside::Escaped => after_escaped(bytes),
        Inside::Comment => after_unclosed(b'/', bytes),
        Inside::Attribute => after_attribute(bytes),
    }
}

/// What follows the inside of a part.
fn after_inside(inside: Inside, bytes: &[u8]) -> &[u8]
    ensures { Runs inside bytes.now result.now }
{
    let mut rest = bytes;
    while let Some(more) = step(inside, rest) {
        rest = more;
    }
    rest
}

/// What a `/` begins before these bytes.
#[tactic(auto, unfolding(crate::specs::Scanning::slash_kind))]
fn slash_kind(bytes: &[u8]) -> Kind
    ensures value { result ≡ slash_kind bytes.now }
    ensures within { opening result ≤ length bytes.now + 1 }
{
    match bytes {
        [first, ..] => {
            if *first == b'/' {
                return Kind::Line;
            }
            if *first == b'*' {
                return Kind::Comment;
            }
            Kind::Other
        }
        [] => Kind::Other,
    }
}

/// What a `(` begins before these bytes.
#[tactic(auto, unfolding(crate::specs::Scanning::bracket_kind))]
fn bracket_kind(bytes: &[u8]) -> Kind
    ensures value { result ≡ bracket_kind bytes.now }
    ensures within { opening result ≤ length bytes.now + 1 }
{
    match bytes {
        [first, rest @ ..] => {
            if *first == b'*' && !begins_with(b')', rest) {
                return Kind::Attribute;
            }
            Kind::Other
        }
        [] => Kind::Other,
    }
}

/// What a byte begins before these bytes.
#[tactic(auto, unfolding(crate::specs::Scanning::kind_by))]
fn kind_by(first: u8, rest: &[u8]) -> Kind
    ensures value { result ≡ kind_by first rest.now }
    ensures within { opening result ≤ length rest.now + 1 }
{
    if first == b'\n' {
        return Kind::End;
    }
    if first == b'"' {
        return Kind::Quote;
    }
    if first == b'\\' {
        return Kind::Escaped;
    }
    if first == b'/' {
        return slash_kind(rest);
    }
    if first == b'(' {
        return bracket_kind(rest);
    }
    Kind::Other
}

/// What begins the bytes, where no joint does.
#[tactic(auto, unfolding(crate::specs::Scanning::kind_at))]
fn kind_at(bytes: &[u8]) -> Kind
    ensures value { result ≡ kind_at bytes.now }
    ensures within { opening result ≤ length bytes.now }
{
    match bytes {
        [first, rest @ ..] => kind_by(*first, rest),
        [] => Kind::End,
    }
}

/// How many bytes a part begins with.
fn opening(kind: Kind) -> usize
    ensures { result ≡ opening kind }
{
    match kind {
        Kind::End => 0,
        Kind::Quote | Kind::Escaped | Kind::Other => 1,
        Kind::Line | Kind::Comment | Kind::Attribute => 2,
    }
}

/// A part whose inside is read, up to these bytes.
fn closed(close: u8, rest: &[u8]) -> Part<'_>
    ensures { seen result ≡ closed (after_close close rest.now) rest.now }
{
    match after_close(close, rest) {
        Some(after) => Part::Whole(after),
        None => Part::Last(rest),
    }
}

/// The string at the front; the second bytes are those after its quote.
fn string<'a>(bytes: &'a [u8], quoted: &'a [u8]) -> Part<'a>
    requires { bytes.now ≡ 34 ∷ quoted.now }
    ensures { SeesString quoted.now (seen result) }
{
    match passed(bytes) {
        Ok((_, after)) => Part::Whole(after),
        Err(_) => Part::Last(after_line(quoted)),
    }
}

/// The part of this kind at the front; the second bytes are those after its opening.
fn part_by<'a>(kind: Kind, bytes: &'a [u8], after: &'a [u8]) -> Part<'a>
    requires kind { kind ≡ kind_at bytes.now }
    requires after { after.now ≡ drop (opening kind) bytes.now }
    ensures { SeesKind kind after.now (seen result) }
{
    match kind {
        Kind::End => Part::Last(after),
        Kind::Quote => string(bytes, after),
        Kind::Escaped => Part::Whole(after_inside(Inside::Escaped, after)),
        Kind::Line => Part::Last(after_line(after)),
        Kind::Comment => closed(b'/', after_inside(Inside::Comment, after)),
        Kind::Attribute => closed(b')', after_inside(Inside::Attribute, after)),
        Kind::Other => Part::Whole(after),
    }
}

/// The part of a macro's text at the front.
fn part_at(bytes: &[u8]) -> Part<'_>
    ensures { Sees (after_joint bytes.now) bytes.now (seen result) }
{
    if let Some(after) = after_joint(bytes) {
        return Part::Whole(after);
    }
    let kind = kind_at(bytes);
    let (_, after) = bytes.split_at(opening(kind));
    part_by(kind, bytes, after)
}

/// What follows the text of a macro.
fn after_text(bytes: &[u8]) -> &[u8]
    ensures reaches { Reaches bytes.now result.now }
    ensures within { length result.now ≤ length bytes.now }
{
    let mut from = bytes;
    'parts: loop {
        match part_at(from) {
            Part::Whole(after) => from = after,
            Part::Last(rest) => return rest,
        }
    }
}

/// What bytes of a macro's text count as: a joint as a blank.
fn counted(alloc: Global, bytes: &[u8]) -> Result<Vec<u8>, Memory>
    requires { (text : List ℕ) × Counts bytes.now text }
    ensures { IfOk result (λ text. Counts bytes.now text.items) }
{
    let mut text = Vec::with_capacity(alloc, bytes.len())?;
    let mut rest = bytes;
    while let Some((first, more)) = rest.split_first() {
        match after_joint(rest) {
            Some(after) => {
                text.push(b' ')?;
                rest = after;
            }
            None => {
                text.push(*first)?;
                rest = more;
            }
        }
    }
    Ok(text)
}

/// The text of a macro that the bytes begin with, in which a joint is one blank, and what follows it. Only out of memory is
/// refused.
pub fn macro_text<'a>(alloc: Global, bytes: &'a [u8]) -> Result<(Vec<u8>, &'a [u8]), Memory>
    ensures text { IfOk result (λ r. IsMacroText bytes.now r.0.items r.1.now) }
    ensures within { IfOk result (λ r. length r.1.now ≤ length bytes.now) }
{
    let rest = after_text(bytes);
    let text = counted(alloc, &bytes[..bytes.len() - rest.len()])?;
    Ok((text, rest))
}
