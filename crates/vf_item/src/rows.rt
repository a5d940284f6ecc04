//! Lists with commas between their items.

ghost use Rattle.std.specs.Prelude.{◌≡◌, [], ◌∷◌, length, codes};
ghost use Rattle.vf_expression.specs.Grammar.{Tokens};
ghost use Rattle.vf_expression.specs.Reading.{Gives, after};
ghost use Rattle.vf_item.specs.Rows.{Found, row_from, more_at, series_at};

use sqlite_items::Items;
use std::alloc::Global;
use vf_expression::{Stop, strip};
use vf_lex::Token;

/// A tree at the front of tokens, and the tokens after it.
pub type Front<'a, T> = Result<(T, &'a [Token]), Stop>;

/// A tree of which lists are made.
pub trait Piece: Drop {
    /// What is read of tokens.
    ghost reads: { Tokens → Found Self };

    /// Reads one at the front.
    fn read(alloc: Global, tokens: &[Token]) -> Front<'_, Self>
        ensures { Gives (λ x. (x.0, x.1.now)) result (reads tokens.now) };
}

/// The items that follow those that were read, each after a comma.
#[tactic(auto, unfolding(crate::specs::Rows::more_at, crate::specs::Rows::row_from))]
pub fn more<'a, P: Piece>(
    alloc: Global,
    before: Items<P>,
    tokens: &'a [Token],
) -> Front<'a, Items<P>>
    ensures { Gives (λ x. (x.0, x.1.now)) result (more_at P.reads before tokens.now) }
{
    let mut items = before;
    let mut rest = tokens;
    for _ in 0..tokens.len() {
        let Some(next) = strip(b",", rest) else {
            return Ok((items, rest));
        };
        let (item, following) = P::read(alloc, next)?;
        items.push(item)?;
        rest = following;
    }
    Ok((items, rest))
}

/// Items with commas between them.
#[tactic(auto, unfolding(crate::specs::Rows::series_at))]
pub fn series<P: Piece>(alloc: Global, tokens: &[Token]) -> Front<'_, Items<P>>
    ensures { Gives (λ x. (x.0, x.1.now)) result (series_at P.reads tokens.now) }
{
    let (first, rest) = P::read(alloc, tokens)?;
    let mut items = Items::new(alloc);
    items.push(first)?;
    more(alloc, items, rest)
}
