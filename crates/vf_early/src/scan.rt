//! Cuts the text into tokens.

ghost use Rattle.std.specs.Prelude.{◌≡◌, ℕ, ◌≤◌, ◌<◌, ◌^◌, ◌==◌, ◌&&◌, not, false, List, length, take_while, IfSome, IfOk, IsErrOf};
ghost use Rattle.vf_early.specs.Tokens.{is_blank, is_word_byte, IsTokens};
ghost use Rattle.vf_early.specs.Reading.{inside_from, is_sign, is_long_sign, sign_length, with_quotes, token_length};

use crate::EarlyFault;
use crate::words::is_word_byte;
use std::alloc::Global;
use vf_base::Text;

fn is_blank(byte: u8) -> bool
    ensures { result ≡ is_blank byte }
{
    byte == b' ' || byte == b'\t' || byte == b'\n' || byte == 0x0c || byte == b'\r'
}

fn word_length(bytes: &[u8]) -> usize
    ensures { result ≡ length (take_while is_word_byte bytes.now) }
{
    bytes.iter().take_while(|byte| is_word_byte(**byte)).count()
}

/// Whether a byte of a string ends it.
fn closes(escaped: bool, byte: u8) -> bool
    ensures { result ≡ (not escaped && byte == 34) }
{
    !escaped && byte == b'"'
}

/// Whether a byte of a string takes the next along.
fn escapes(escaped: bool, byte: u8) -> bool
    ensures { result ≡ (not escaped && byte == 92) }
{
    !escaped && byte == b'\\'
}

/// How many bytes stand before the quote that ends a string on this line.
fn inside_length(bytes: &[u8]) -> Option<usize>
    ensures value { result ≡ inside_from false bytes.now }
    ensures within { IfSome result (λ n. n < length bytes.now) }
{
    let mut escaped = false;
    for at in 0..bytes.len() {
        let byte = bytes[at];
        if byte == b'\n' {
            return None;
        }
        if closes(escaped, byte) {
            return Some(at);
        }
        escaped = escapes(escaped, byte);
    }
    None
}

fn quoted_length(rest: &[u8]) -> usize
    requires { length rest.now < 2 ^ 63 }
    ensures { result ≡ with_quotes (inside_from false rest.now) }
{
    match inside_length(rest) {
        Some(length) => length + 2,
        None => 0,
    }
}

fn is_sign(byte: u8) -> bool
    ensures { result ≡ is_sign byte }
{
    byte == b';' || byte == b'=' || byte == b'(' || byte == b')' || byte == b'-' || byte == b','
}

fn is_long_sign(first: u8, second: u8) -> bool
    ensures { result ≡ is_long_sign first second }
{
    (first == b'=' || first == b'!') && second == b'='
}

#[tactic(auto, unfolding(crate::specs::Reading::sign_length))]
fn sign_length(first: u8, rest: &[u8]) -> usize
    ensures { result ≡ sign_length first rest.now }
{
    if let [second, ..] = rest {
        if is_long_sign(first, *second) {
            return 2;
        }
    }
    usize::from(is_sign(first))
}

/// How long the token is that begins the bytes; 0 where none does.
#[tactic(auto, unfolding(crate::specs::Reading::token_length))]
fn token_length(bytes: &[u8]) -> usize
    ensures { result ≡ token_length bytes.now }
{
    match bytes {
        [] => 0,
        [first, rest @ ..] => {
            if is_word_byte(*first) {
                return 1 + word_length(rest);
            }
            if *first == b'"' {
                return quoted_length(rest);
            }
            sign_length(*first, rest)
        }
    }
}

/// The tokens of the text. It is refused where a byte that is no blank begins no token.
pub fn tokens(alloc: Global, bytes: &[u8]) -> Result<Vec<Text>, EarlyFault>
    ensures found { IfOk result (λ tokens. IsTokens bytes.now tokens.items) }
    ensures only { IfOk result (λ tokens. (others : List (List ℕ)) → IsTokens bytes.now others → others ≡ tokens.items) }
    ensures not_built { IsErrOf result EarlyFault.NotBuilt → (others : List (List ℕ)) → IsTokens bytes.now others → ⊥ }
{
    let mut tokens = Vec::new(alloc);
    let mut rest = bytes;
    while let Some((first, after)) = rest.split_first() {
        if is_blank(*first) {
            rest = after;
            continue;
        }
        let length = token_length(rest);
        if length == 0 {
            return Err(EarlyFault::NotBuilt);
        }
        let (token, after) = rest.split_at(length);
        tokens.push(Text::new(Vec::from_slice(alloc, token)?))?;
        rest = after;
    }
    Ok(tokens)
}
