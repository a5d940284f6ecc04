//! What stands at the front of a text.

ghost use Rattle.std.specs.Prelude.{◌≡◌, ◌<◌, length, IfOk, IfErr, Ok, Err};
ghost use Rattle.vf_number.specs.Numbers.{BeginsNumber};
ghost use Rattle.vf_number.specs.Reading.{Shows, number_at};
ghost use Rattle.vf_lexeme.specs.Lexemes.{Begins, Refuses, Passes};
ghost use Rattle.vf_lexeme.specs.Reading.{Gives, skipped_lexeme, number_token, other_lexeme, lexeme_at, passed_string, passed_skip, passed_at};

use crate::classes::{Class, begins_name};
use crate::names::{escaped_name, name_token, system_name};
use crate::signs::sign_token;
use crate::skips::{after_skip, opens_skip};
use crate::strings::{inside, string_token};
use crate::{Lexeme, LexemeFault, OpenFault, Passed, TokenKind};
use std::alloc::Global;
use vf_fours::Fours;
use vf_number::{ByteClass, NumberFault, begins_number, is_blank, number};

/// The comment or attribute at the front of a text, as a blank.
#[tactic(auto, unfolding(crate::specs::Reading::skipped_lexeme))]
fn skipped_lexeme<'a>(text: &'a [u8]) -> Result<(Lexeme, &'a [u8]), LexemeFault>
    ensures { Gives (λ r. (r.0, r.1.now)) result (skipped_lexeme text.now) }
{
    match after_skip(text) {
        Some(rest) => Ok((Lexeme::Blank, rest)),
        None => Err(LexemeFault::OpenComment),
    }
}

/// As [`number`], by a contract that is one equation.
fn number_at<'a>(text: &'a [u8]) -> Result<(Fours, &'a [u8]), NumberFault>
    requires { BeginsNumber text.now }
    ensures { Shows (λ r. (r.0, r.1.now)) result (number_at text.now) }
{
    number(text)
}

/// The number at the front of a text, as a token.
#[tactic(auto, unfolding(crate::specs::Reading::number_token))]
fn number_token<'a>(text: &'a [u8]) -> Result<(Lexeme, &'a [u8]), LexemeFault>
    requires { BeginsNumber text.now }
    ensures { Gives (λ r. (r.0, r.1.now)) result (number_token text.now) }
{
    match number_at(text) {
        Ok((value, rest)) => Ok((Lexeme::Token(TokenKind::Number(value)), rest)),
        Err(fault) => Err(LexemeFault::from(fault)),
    }
}

/// The lexeme at the front of a text that does not begin with a blank, a plain name, a comment or an attribute.
#[tactic(auto, unfolding(crate::specs::Reading::other_lexeme))]
fn other_lexeme<'a>(alloc: Global, text: &'a [u8]) -> Result<(Lexeme, &'a [u8]), LexemeFault>
    ensures { Gives (λ r. (r.0, r.1.now)) result (other_lexeme text.now) }
{
    match text {
        [] => Err(LexemeFault::BadCharacter),
        [first, rest @ ..] => {
            let first = *first;
            if begins_number(first) {
                number_token(text)
            } else if first == b'"' {
                string_token(alloc, rest)
            } else if first == b'\\' {
                escaped_name(alloc, rest)
            } else if first == b'$' {
                system_name(alloc, text)
            } else if first == b'`' {
                Ok((Lexeme::Directive, rest))
            } else {
                sign_token(alloc, text)
            }
        }
    }
}

/// As [`lexeme`], by a contract that is one equation.
#[tactic(auto, unfolding(crate::specs::Reading::lexeme_at))]
fn lexeme_at<'a>(alloc: Global, text: &'a [u8]) -> Result<(Lexeme, &'a [u8]), LexemeFault>
    ensures { Gives (λ r. (r.0, r.1.now)) result (lexeme_at text.now) }
{
    match text {
        [] => Err(LexemeFault::BadCharacter),
        [first, rest @ ..] => {
            if is_blank(*first) {
                return Ok((Lexeme::Blank, rest));
            }
            if begins_name(*first) {
                return name_token(alloc, text);
            }
            if opens_skip(text) {
                return skipped_lexeme(text);
            }
            other_lexeme(alloc, text)
        }
    }
}

/// The lexeme at the front of a text that is taken, and the bytes after it. Every refusal but out of memory is exactly the
/// fault that stands there.
pub fn lexeme<'a>(alloc: Global, text: &'a [u8]) -> Result<(Lexeme, &'a [u8]), LexemeFault>
    requires { 0 < length text.now }
    ensures found { IfOk result (λ r. Begins text.now (Ok (r.0, r.1.now))) }
    ensures shorter { IfOk result (λ r. length r.1.now < length text.now) }
    ensures refused { IfErr result (λ fault. Refuses text.now fault) }
{
    lexeme_at(alloc, text)
}

/// The string that a text goes on with after its first quote, not taken.
#[tactic(auto, unfolding(crate::specs::Reading::passed_string))]
fn passed_string<'a>(text: &'a [u8]) -> Result<(Passed, &'a [u8]), OpenFault>
    ensures { Shows (λ r. (r.0, r.1.now)) result (passed_string text.now) }
{
    match inside(text) {
        Some((_, rest)) => Ok((Passed::Text, rest)),
        None => Err(OpenFault::String),
    }
}

/// The comment or attribute at the front of a text, not taken.
#[tactic(auto, unfolding(crate::specs::Reading::passed_skip))]
fn passed_skip<'a>(text: &'a [u8]) -> Result<(Passed, &'a [u8]), OpenFault>
    ensures { Shows (λ r. (r.0, r.1.now)) result (passed_skip text.now) }
{
    match after_skip(text) {
        Some(rest) => Ok((Passed::Text, rest)),
        None => Err(OpenFault::Comment),
    }
}

/// As [`passed`], by a contract that is one equation.
#[tactic(auto, unfolding(crate::specs::Reading::passed_at))]
fn passed_at<'a>(text: &'a [u8]) -> Result<(Passed, &'a [u8]), OpenFault>
    ensures { Shows (λ r. (r.0, r.1.now)) result (passed_at text.now) }
{
    match text {
        [] => Err(OpenFault::String),
        [first, rest @ ..] => {
            if *first == b'`' {
                return Ok((Passed::Directive, rest));
            }
            if *first == b'"' {
                return passed_string(rest);
            }
            if *first == b'\\' {
                let (_, rest) = Class::NoBlank.split(rest);
                return Ok((Passed::Text, rest));
            }
            if opens_skip(text) {
                return passed_skip(text);
            }
            Ok((Passed::Text, rest))
        }
    }
}

/// What stands at the front of a text that is not taken, and the bytes after it. A refusal is exactly the fault that stands
/// there. No memory is taken.
pub fn passed<'a>(text: &'a [u8]) -> Result<(Passed, &'a [u8]), OpenFault>
    requires { 0 < length text.now }
    ensures found { IfOk result (λ r. Passes text.now (Ok (r.0, r.1.now))) }
    ensures shorter { IfOk result (λ r. length r.1.now < length text.now) }
    ensures refused { IfErr result (λ fault. Passes text.now (Err fault)) }
{
    passed_at(text)
}
