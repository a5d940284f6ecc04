//! The design that tokens are.

ghost use Rattle.std.specs.Prelude.{◌<◌, length};
ghost use Rattle.vf_parse.specs.LeftOut.{NoneLeftOut};
ghost use Rattle.vf_parse.specs.Deep.{IsNowhereDeep};
ghost use Rattle.vf_parse.specs.Parsing.{HasPlace, IsPlace, Answers};

use crate::deep::deep;
use crate::left_out::left_out;
use crate::modules::source;
use crate::{ParseFault, ParseKind};
use std::alloc::Global;
use vf_base::Place;
use vf_expression::Stop;
use vf_lex::Token;
use vf_tree::Source;

/// The place of the token at the index.
#[tactic(auto, using(crate::proofs::Counting::placed))]
fn place_within(tokens: &[Token], index: usize) -> Place
    requires { index < length tokens.now }
    ensures { HasPlace tokens.now result }
{
    tokens[index].place
}

/// The place of the token at the index or of the last one, or the start of the text where there is none.
#[tactic(auto, using(crate::proofs::Counting::place_some, crate::proofs::Counting::place_none))]
fn place_at(tokens: &[Token], index: usize) -> Place
    ensures { IsPlace tokens.now result }
{
    match tokens {
        [] => Place { line: 1, column: 1 },
        [_, rest @ ..] => place_within(tokens, index.min(rest.len())),
    }
}

/// The tree of tokens of which none is left out and that are nowhere deep.
#[tactic(auto, using(crate::proofs::Wholes::answer_tree, crate::proofs::Wholes::answer_none))]
fn fitting(alloc: Global, tokens: &[Token]) -> Result<Source, ParseFault>
    requires none { NoneLeftOut tokens.now }
    requires shallow { IsNowhereDeep tokens.now }
    ensures { Answers tokens.now result }
{
    match source(alloc, tokens) {
        Ok(tree) => Ok(tree),
        Err(Stop::Unexpected(left)) => {
            let kind = ParseKind::Unexpected;
            let place = place_at(tokens, tokens.len().saturating_sub(left));
            Err(ParseFault { kind, place })
        }
        Err(Stop::Memory) => {
            let kind = ParseKind::Memory;
            let place = place_at(tokens, 0);
            Err(ParseFault { kind, place })
        }
    }
}

/// The tree of tokens of which none is left out.
fn shallow(alloc: Global, tokens: &[Token]) -> Result<Source, ParseFault>
    requires { NoneLeftOut tokens.now }
    ensures { Answers tokens.now result }
{
    match deep(tokens) {
        Some(place) => {
            let kind = ParseKind::TooDeep;
            Err(ParseFault { kind, place })
        }
        None => fitting(alloc, tokens),
    }
}

/// The tree of a design's tokens (docs/LANGUAGE.md, "Grammar"; IEEE Std 1364-2005, Annex A).
///
/// It is refused with [`ParseKind::LeftOut`] exactly where a token is left out by the language, at the first one; otherwise with
/// [`ParseKind::TooDeep`] exactly where more than 200 brackets and blocks are open at a token, at the first one; otherwise with
/// [`ParseKind::Unexpected`] exactly where no tree fits, at a token, or at the start of the text where there is none.
/// Time is linear in the tokens, and the way down never passes a fixed number of calls.
pub fn parse(alloc: Global, tokens: &[Token]) -> Result<Source, ParseFault>
    ensures { Answers tokens.now result }
{
    match left_out(tokens) {
        Some(place) => {
            let kind = ParseKind::LeftOut;
            Err(ParseFault { kind, place })
        }
        None => shallow(alloc, tokens),
    }
}
