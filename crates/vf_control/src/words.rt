//! Words of events and names of system tasks.

ghost use Rattle.std.specs.Prelude.{◌≡◌};
ghost use Rattle.std.specs.Option.{option_map};
ghost use Rattle.vf_control.specs.Words.{edge_of, show_of, save_of, end_of};
ghost use Rattle.vf_control.specs.Reading.{string_at};

use vf_base::{Place, Text};
use vf_expression::same;
use vf_lex::{Token, TokenKind};
use vf_tree::{EdgeWord, EndWord, SaveWord, ShowWord};

/// The edge of a word (clause 9.7.2).
#[tactic(auto, unfolding(crate::specs::Words::edge_of))]
pub fn edge_of(text: &[u8]) -> Option<EdgeWord>
    ensures { result ≡ edge_of text.now }
{
    if same(text, b"posedge") {
        Some(EdgeWord::Posedge)
    } else if same(text, b"negedge") {
        Some(EdgeWord::Negedge)
    } else {
        None
    }
}

/// The task that prints, by its name (clause 17.1).
#[tactic(auto, unfolding(crate::specs::Words::show_of))]
pub fn show_of(text: &[u8]) -> Option<ShowWord>
    ensures { result ≡ show_of text.now }
{
    if same(text, b"$display") {
        Some(ShowWord::Display)
    } else if same(text, b"$write") {
        Some(ShowWord::Write)
    } else if same(text, b"$strobe") {
        Some(ShowWord::Strobe)
    } else if same(text, b"$monitor") {
        Some(ShowWord::Monitor)
    } else {
        None
    }
}

/// The task that saves the state, by its name (Annex C.8).
#[tactic(auto, unfolding(crate::specs::Words::save_of))]
pub fn save_of(text: &[u8]) -> Option<SaveWord>
    ensures { result ≡ save_of text.now }
{
    if same(text, b"$save") {
        Some(SaveWord::Save)
    } else if same(text, b"$incsave") {
        Some(SaveWord::IncSave)
    } else {
        None
    }
}

/// The task that ends the run, by its name (clause 17.4).
#[tactic(auto, unfolding(crate::specs::Words::end_of))]
pub fn end_of(text: &[u8]) -> Option<EndWord>
    ensures { result ≡ end_of text.now }
{
    if same(text, b"$finish") {
        Some(EndWord::Finish)
    } else if same(text, b"$stop") {
        Some(EndWord::Stop)
    } else {
        None
    }
}

/// The text of a string at the front, its place, and the tokens after it.
#[tactic(auto, unfolding(crate::specs::Reading::string_at))]
pub fn string(tokens: &[Token]) -> Option<(&Text, Place, &[Token])>
    ensures { option_map (λ x. (x.0.now, x.1, x.2.now)) result ≡ string_at tokens.now }
{
    let (first, rest) = tokens.split_first()?;
    match &first.kind {
        TokenKind::Quoted(text) => Some((text, first.place, rest)),
        TokenKind::Name(_)
        | TokenKind::System(_)
        | TokenKind::Word(_)
        | TokenKind::Number(_)
        | TokenKind::Sign(_) => None,
    }
}
