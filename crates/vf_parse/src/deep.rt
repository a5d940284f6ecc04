//! How deep brackets and blocks nest.

ghost use Rattle.std.specs.Prelude.{◌≡◌, ◌+◌, ◌<◌, ◌^◌, cond, MatchOption};
ghost use Rattle.std.specs.List.{list_any};
ghost use Rattle.std.specs.Str.{bytes_eq};
ghost use Rattle.vf_parse.specs.Deep.{opening_signs, closing_signs, opening_words, closing_words, is_opening, is_closing, IsNowhereDeep, IsDeepAt};

use vf_base::Place;
use vf_expression::same;
use vf_lex::{Token, TokenKind};

/// The most brackets and blocks that may be open at a token.
const MOST_OPEN: usize = 200;

fn is_among(name: &[u8], words: &[&str]) -> bool
    ensures { result ≡ list_any (λ listed. bytes_eq name.now listed.now) words.now }
{
    words.iter().any(|listed| same(name, listed.as_bytes()))
}

fn is_opening_sign(text: &[u8]) -> bool
    ensures { result ≡ list_any (bytes_eq text.now) opening_signs }
{
    is_among(text, &["(", "[", "{"])
}

fn is_opening_word(text: &[u8]) -> bool
    ensures { result ≡ list_any (bytes_eq text.now) opening_words }
{
    is_among(text, &["begin", "case", "casez", "casex"])
}

fn is_closing_sign(text: &[u8]) -> bool
    ensures { result ≡ list_any (bytes_eq text.now) closing_signs }
{
    is_among(text, &[")", "]", "}"])
}

fn is_closing_word(text: &[u8]) -> bool
    ensures { result ≡ list_any (bytes_eq text.now) closing_words }
{
    is_among(text, &["end", "endcase"])
}

/// Whether a token opens a bracket or a block.
fn is_opening(kind: &TokenKind) -> bool
    ensures { result ≡ is_opening kind.now }
{
    match kind {
        TokenKind::Sign(text) => is_opening_sign(text.bytes()),
        TokenKind::Word(text) => is_opening_word(text.bytes()),
        TokenKind::Name(_) | TokenKind::System(_) | TokenKind::Number(_) | TokenKind::Quoted(_) =>
            false,
    }
}

/// Whether a token closes one.
fn is_closing(kind: &TokenKind) -> bool
    ensures { result ≡ is_closing kind.now }
{
    match kind {
        TokenKind::Sign(text) => is_closing_sign(text.bytes()),
        TokenKind::Word(text) => is_closing_word(text.bytes()),
        TokenKind::Name(_) | TokenKind::System(_) | TokenKind::Number(_) | TokenKind::Quoted(_) =>
            false,
    }
}

/// The count with one more, if there is one.
fn counted(count: usize, more: bool) -> usize
    requires { count + 1 < 2 ^ 64 }
    ensures { result ≡ cond more (count + 1) count }
{
    if more {
        return count + 1;
    }
    count
}

/// The place of the first token at which more than 200 brackets and blocks are open.
pub fn deep(tokens: &[Token]) -> Option<Place>
    ensures { MatchOption result (IsNowhereDeep tokens.now) (λ place. IsDeepAt tokens.now place) }
{
    let mut opened: usize = 0;
    let mut closed: usize = 0;
    for index in 0..tokens.len() {
        let token = &tokens[index];
        opened = counted(opened, is_opening(&token.kind));
        closed = counted(closed, is_closing(&token.kind));
        if opened.saturating_sub(closed) > MOST_OPEN {
            return Some(token.place);
        }
    }
    None
}
