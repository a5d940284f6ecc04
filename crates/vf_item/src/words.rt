//! Words of declarations.

ghost use Rattle.std.specs.Prelude.{◌≡◌};
ghost use Rattle.std.specs.Option.{option_map};
ghost use Rattle.vf_expression.specs.Reading.{opening_at};
ghost use Rattle.vf_item.specs.Words.{dir_of, kind_of, net_of, param_of};
ghost use Rattle.vf_item.specs.Reading.{word_text, is_name, dir_at, kind_at};

use vf_base::Place;
use vf_expression::{is_sign, same};
use vf_lex::{Token, TokenKind};
use vf_tree::{Dir, DirWord, NetOrReg, NetWord, ParamWord};

/// The direction of a word (clause 12.3.3).
#[tactic(auto, unfolding(crate::specs::Words::dir_of))]
pub fn dir_of(text: &[u8]) -> Option<DirWord>
    ensures { result ≡ dir_of text.now }
{
    if same(text, b"input") {
        Some(DirWord::Input)
    } else if same(text, b"output") {
        Some(DirWord::Output)
    } else {
        None
    }
}

/// What a port is besides its direction, by a word.
#[tactic(auto, unfolding(crate::specs::Words::kind_of))]
fn kind_of(text: &[u8]) -> Option<NetOrReg>
    ensures { result ≡ kind_of text.now }
{
    if same(text, b"wire") {
        Some(NetOrReg::Wire)
    } else if same(text, b"reg") {
        Some(NetOrReg::Reg)
    } else {
        None
    }
}

/// The kind of nets of a word (clause 4.2.1).
#[tactic(auto, unfolding(crate::specs::Words::net_of))]
pub fn net_of(text: &[u8]) -> Option<NetWord>
    ensures { result ≡ net_of text.now }
{
    if same(text, b"wire") {
        Some(NetWord::Wire)
    } else if same(text, b"tri") {
        Some(NetWord::Tri)
    } else {
        None
    }
}

/// The kind of parameters of a word (clause 4.10).
#[tactic(auto, unfolding(crate::specs::Words::param_of))]
pub fn param_of(text: &[u8]) -> Option<ParamWord>
    ensures { result ≡ param_of text.now }
{
    if same(text, b"parameter") {
        Some(ParamWord::Parameter)
    } else if same(text, b"localparam") {
        Some(ParamWord::Localparam)
    } else {
        None
    }
}

/// The text of a reserved word.
fn word_text(kind: &TokenKind) -> Option<&[u8]>
    ensures { option_map (λ text. text.now) result ≡ word_text kind.now }
{
    match kind {
        TokenKind::Word(own) => Some(own.bytes()),
        TokenKind::Name(_)
        | TokenKind::System(_)
        | TokenKind::Sign(_)
        | TokenKind::Number(_)
        | TokenKind::Quoted(_) => None,
    }
}

/// Whether a token is a name.
pub fn is_name(kind: &TokenKind) -> bool
    ensures { result ≡ is_name kind.now }
{
    match kind {
        TokenKind::Name(_) => true,
        TokenKind::System(_)
        | TokenKind::Word(_)
        | TokenKind::Sign(_)
        | TokenKind::Number(_)
        | TokenKind::Quoted(_) => false,
    }
}

/// The direction at the front, and the tokens after it.
#[tactic(auto, unfolding(crate::specs::Reading::dir_at))]
pub fn dir(tokens: &[Token]) -> Option<(Dir, &[Token])>
    ensures { option_map (λ x. (x.0, x.1.now)) result ≡ dir_at tokens.now }
{
    let (first, rest) = tokens.split_first()?;
    let word = dir_of(word_text(&first.kind)?)?;
    let place = first.place;
    Some((Dir { place, word }, rest))
}

/// `wire` or `reg` at the front, and the tokens after it.
#[tactic(auto, unfolding(crate::specs::Reading::kind_at))]
pub fn kind(tokens: &[Token]) -> Option<(NetOrReg, &[Token])>
    ensures { option_map (λ x. (x.0, x.1.now)) result ≡ kind_at tokens.now }
{
    let (first, rest) = tokens.split_first()?;
    let kind = kind_of(word_text(&first.kind)?)?;
    Some((kind, rest))
}

/// The place of a `[` at the front, and the tokens after it.
#[tactic(auto, unfolding(vf_expression::specs::Reading::opening_at))]
pub fn opening(tokens: &[Token]) -> Option<(Place, &[Token])>
    ensures { option_map (λ x. (x.0, x.1.now)) result ≡ opening_at tokens.now }
{
    let (first, rest) = tokens.split_first()?;
    if !is_sign(b"[", &first.kind) {
        return None;
    }
    Some((first.place, rest))
}
