//! Operators and other signs (clause 3.4).

ghost use Rattle.std.specs.Prelude.{◌≡◌, [], ◌∷◌, ◌≤◌, length};
ghost use Rattle.vf_lexeme.specs.Signs.{is_sign};
ghost use Rattle.vf_lexeme.specs.Reading.{Gives, short_length, sign_length, sign_token};

use crate::names::text_of;
use crate::{Lexeme, LexemeFault, TokenKind};
use std::alloc::Global;

/// Whether a byte is a sign.
#[tactic(auto, unfolding(crate::specs::Signs::is_sign))]
fn is_single(byte: u8) -> bool
    ensures { result ≡ is_sign (byte ∷ []) }
{
    matches!(
        byte,
        b'(' | b')'
            | b'['
            | b']'
            | b'{'
            | b'}'
            | b';'
            | b':'
            | b','
            | b'.'
            | b'#'
            | b'@'
            | b'='
            | b'?'
            | b'+'
            | b'-'
            | b'*'
            | b'/'
            | b'%'
            | b'!'
            | b'~'
            | b'&'
            | b'|'
            | b'^'
            | b'<'
            | b'>'
    )
}

/// Whether two bytes are a sign.
#[tactic(auto, unfolding(crate::specs::Signs::is_sign))]
fn is_double(first: u8, second: u8) -> bool
    ensures { result ≡ is_sign (first ∷ second ∷ []) }
{
    match first {
        b'<' => second == b'=' || second == b'<',
        b'>' => second == b'=' || second == b'>',
        b'=' => second == b'=',
        b'!' => second == b'=',
        b'&' => second == b'&',
        b'|' => second == b'|',
        b'~' => second == b'&' || second == b'|' || second == b'^',
        b'^' => second == b'~',
        b'+' => second == b':',
        b'-' => second == b':',
        _ => false,
    }
}

/// Whether three bytes are a sign.
#[tactic(auto, unfolding(crate::specs::Signs::is_sign))]
fn is_triple(first: u8, second: u8, third: u8) -> bool
    ensures { result ≡ is_sign (first ∷ second ∷ third ∷ []) }
{
    match first {
        b'=' => second == b'=' && third == b'=',
        b'!' => second == b'=' && third == b'=',
        b'<' => second == b'<' && third == b'<',
        b'>' => second == b'>' && third == b'>',
        _ => false,
    }
}

fn short_length(first: u8, second: u8) -> usize
    ensures { result ≡ short_length first second }
{
    if is_double(first, second) {
        return 2;
    }
    usize::from(is_single(first))
}

/// How long the longest sign at the front of a text is; 0 where none stands there.
#[tactic(auto, unfolding(crate::specs::Reading::sign_length))]
fn sign_length(text: &[u8]) -> usize
    ensures value { result ≡ sign_length text.now }
    ensures within { result ≤ length text.now }
{
    match text {
        [] => 0,
        [first] => usize::from(is_single(*first)),
        [first, second] => short_length(*first, *second),
        [first, second, third, ..] => {
            if is_triple(*first, *second, *third) {
                return 3;
            }
            short_length(*first, *second)
        }
    }
}

/// The longest sign at the front of a text.
#[tactic(auto, unfolding(crate::specs::Reading::sign_token))]
pub(crate) fn sign_token<'a>(
    alloc: Global,
    text: &'a [u8],
) -> Result<(Lexeme, &'a [u8]), LexemeFault>
    ensures { Gives (λ r. (r.0, r.1.now)) result (sign_token text.now) }
{
    let length = sign_length(text);
    if length == 0 {
        return Err(LexemeFault::BadCharacter);
    }
    let (sign, rest) = text.split_at(length);
    let sign = text_of(alloc, sign)?;
    Ok((Lexeme::Token(TokenKind::Sign(sign)), rest))
}
