//! Targets of assignments. In this module `depth` is the greatest depth of the expressions in a target, and `nesting` that of targets inside
//! one another.

ghost use Rattle.std.specs.Prelude.{◌≡◌, ◌≤◌, [], ◌∷◌, length, IfOk, codes};
ghost use Rattle.vf_expression.specs.Reading.{Gives, expr_at, after};
ghost use Rattle.vf_control.specs.Lists.{many_from, list_at};
ghost use Rattle.vf_control.specs.Reading.{concat_at, named_at, target_by, target_over, target_within, target_at};

use sqlite_items::Items;
use std::alloc::Global;
use vf_base::{Place, Text};
use vf_expression::{Read, Stop, after, same, selects, strip};
use vf_lex::{Token, TokenKind};
use vf_tree::{Name, Target, TargetForm};

/// The most targets inside one another: a name in 200 concatenations.
const MOST_NESTED: u32 = 201;

/// A target that is a name, after it.
#[tactic(auto, unfolding(crate::specs::Reading::named_at))]
fn named<'a>(
    alloc: Global,
    depth: u32,
    place: Place,
    text: &Text,
    tokens: &'a [Token],
) -> Read<'a, Target>
    requires { depth ≤ 200 }
    ensures value { Gives (λ x. (x.0, x.1, x.2.now)) result (named_at (expr_at depth) place text.now tokens.now) }
    ensures small { IfOk result (λ x. x.1 ≤ depth) }
{
    let (selects, deep, rest) = selects(alloc, depth, tokens)?;
    let name = Name {
        text: text.copy()?,
        place,
    };
    let form = TargetForm::Name { name, selects };
    Ok((Target { place, form }, deep, rest))
}

/// The further targets, each after a comma.
#[cycle(targets)]
#[tactic(auto, unfolding(crate::specs::Lists::many_from))]
fn more<'a>(
    alloc: Global,
    depth: u32,
    nesting: u32,
    first: Target,
    deep: u32,
    tokens: &'a [Token],
) -> Read<'a, Items<Target>>
    requires small { depth ≤ 200 }
    requires first_small { deep ≤ depth }
    ensures value { Gives (λ x. (x.0, x.1, x.2.now)) result (many_from (after (codes ",")) (target_within (expr_at depth) nesting) (length tokens.now) (first ∷ []) deep tokens.now) }
    ensures small { IfOk result (λ x. x.1 ≤ depth) }
{
    let mut items = Items::new(alloc);
    items.push(first)?;
    let mut deepest = deep;
    let mut rest = tokens;
    for _ in 0..tokens.len() {
        let Some(next) = strip(b",", rest) else {
            return Ok((items, deepest, rest));
        };
        let (item, deep, following) = target_within(alloc, depth, nesting, next)?;
        items.push(item)?;
        deepest = deepest.max(deep);
        rest = following;
    }
    Ok((items, deepest, rest))
}

/// Targets with commas between them.
#[cycle(targets)]
#[tactic(auto, unfolding(crate::specs::Lists::list_at))]
fn list<'a>(alloc: Global, depth: u32, nesting: u32, tokens: &'a [Token]) -> Read<'a, Items<Target>>
    requires { depth ≤ 200 }
    ensures value { Gives (λ x. (x.0, x.1, x.2.now)) result (list_at (target_within (expr_at depth) nesting) tokens.now) }
    ensures small { IfOk result (λ x. x.1 ≤ depth) }
{
    let (first, deep, rest) = target_within(alloc, depth, nesting, tokens)?;
    more(alloc, depth, nesting, first, deep, rest)
}

/// A concatenation of targets, after its `{`.
#[cycle(targets)]
#[tactic(auto, unfolding(crate::specs::Reading::concat_at))]
fn concat<'a>(
    alloc: Global,
    depth: u32,
    nesting: u32,
    place: Place,
    tokens: &'a [Token],
) -> Read<'a, Target>
    requires { depth ≤ 200 }
    ensures value { Gives (λ x. (x.0, x.1, x.2.now)) result (concat_at (target_within (expr_at depth) nesting) place tokens.now) }
    ensures small { IfOk result (λ x. x.1 ≤ depth) }
{
    let (targets, deep, rest) = list(alloc, depth, nesting, tokens)?;
    let rest = after(b"}", rest)?;
    let form = TargetForm::Concat(targets);
    Ok((Target { place, form }, deep, rest))
}

/// A target that begins with a token, of which the tokens after it are given.
#[cycle(targets)]
fn target_by<'a>(
    alloc: Global,
    depth: u32,
    nesting: u32,
    first: &Token,
    rest: &'a [Token],
) -> Read<'a, Target>
    requires { depth ≤ 200 }
    ensures value { Gives (λ x. (x.0, x.1, x.2.now)) result (target_by (expr_at depth) (target_within (expr_at depth) nesting) first.now.kind first.now.place rest.now) }
    ensures small { IfOk result (λ x. x.1 ≤ depth) }
{
    let place = first.place;
    match &first.kind {
        TokenKind::Name(text) => named(alloc, depth, place, text, rest),
        TokenKind::Sign(text) => {
            if same(text.bytes(), b"{") {
                return concat(alloc, depth, nesting, place, rest);
            }
            Err(Stop::Unexpected(rest.len() + 1))
        }
        TokenKind::System(_) | TokenKind::Word(_) | TokenKind::Number(_) | TokenKind::Quoted(_) =>
            Err(Stop::Unexpected(rest.len() + 1)),
    }
}

/// A target, and `nesting` at most inside one another in it.
#[cycle(targets)]
#[tactic(auto, unfolding(crate::specs::Reading::target_over))]
fn target_over<'a>(alloc: Global, depth: u32, nesting: u32, tokens: &'a [Token]) -> Read<'a, Target>
    requires { depth ≤ 200 }
    ensures value { Gives (λ x. (x.0, x.1, x.2.now)) result (target_over (expr_at depth) (target_within (expr_at depth) nesting) tokens.now) }
    ensures small { IfOk result (λ x. x.1 ≤ depth) }
{
    match tokens {
        [first, rest @ ..] => target_by(alloc, depth, nesting, first, rest),
        [] => Err(Stop::Unexpected(0)),
    }
}

/// `nesting` targets at most inside one another.
#[cycle(targets)]
#[tactic(auto, using(crate::proofs::Nesting::target_never, crate::proofs::Nesting::target_deeper))]
fn target_within<'a>(
    alloc: Global,
    depth: u32,
    nesting: u32,
    tokens: &'a [Token],
) -> Read<'a, Target>
    requires { depth ≤ 200 }
    ensures value { Gives (λ x. (x.0, x.1, x.2.now)) result (target_within (expr_at depth) nesting tokens.now) }
    ensures small { IfOk result (λ x. x.1 ≤ depth) }
{
    if nesting == 0 {
        return Err(Stop::Unexpected(tokens.len()));
    }
    target_over(alloc, depth, nesting - 1, tokens)
}

/// The target at the front (clause 6.1.2, Annex A.8.5): a name with two selects at most, or a concatenation of targets, of which 200 at
/// most stand inside one another. The expressions in it have that depth at most. `Unexpected` tells where it was seen that none
/// is there.
pub fn target<'a>(alloc: Global, depth: u32, tokens: &'a [Token]) -> Read<'a, Target>
    requires { depth ≤ 200 }
    ensures value { Gives (λ x. (x.0, x.1, x.2.now)) result (target_at (expr_at depth) tokens.now) }
    ensures small { IfOk result (λ x. x.1 ≤ depth) }
{
    target_within(alloc, depth, MOST_NESTED, tokens)
}
