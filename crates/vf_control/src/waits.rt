//! Event controls. In this module `depth` is the greatest depth of the expressions in them.

ghost use Rattle.std.specs.Prelude.{◌≡◌, ◌≤◌, [], length, IfOk};
ghost use Rattle.std.specs.Option.{option_map};
ghost use Rattle.vf_expression.specs.Reading.{Gives, expr_at};
ghost use Rattle.vf_control.specs.Lists.{many_from};
ghost use Rattle.vf_control.specs.Reading.{join_by, join_at, bit_from, bit_at, named_event, edged_by, edged_event, word_event, event_by, event_at, next_event, event_list, star_paren, events_paren, events_sign, events_by, events_at};

use crate::words::edge_of;
use sqlite_items::Items;
use std::alloc::Global;
use vf_base::{Place, Text};
use vf_expression::{Read, Stop, after, expr, same, strip};
use vf_lex::{Token, TokenKind};
use vf_tree::{EdgeWord, Event, EventJoin, Events, EventsForm, Name, NextEvent, TreeExpr};

fn join_by<'a>(kind: &TokenKind, rest: &'a [Token]) -> Option<(EventJoin, &'a [Token])>
    ensures { option_map (λ x. (x.0, x.1.now)) result ≡ join_by kind.now rest.now }
{
    match kind {
        TokenKind::Word(text) => {
            if same(text.bytes(), b"or") {
                return Some((EventJoin::Or, rest));
            }
            None
        }
        TokenKind::Sign(text) => {
            if same(text.bytes(), b",") {
                return Some((EventJoin::Comma, rest));
            }
            None
        }
        TokenKind::Name(_) | TokenKind::System(_) | TokenKind::Number(_) | TokenKind::Quoted(_) => {
            None
        }
    }
}

/// What joins an event to those before it, at the front, and the tokens after it.
#[tactic(auto, unfolding(crate::specs::Reading::join_at))]
fn join(tokens: &[Token]) -> Option<(EventJoin, &[Token])>
    ensures { option_map (λ x. (x.0, x.1.now)) result ≡ join_at tokens.now }
{
    match tokens {
        [first, rest @ ..] => join_by(&first.kind, rest),
        [] => None,
    }
}

/// The bit of an event's signal, after its `[`.
#[tactic(auto, unfolding(crate::specs::Reading::bit_from))]
fn bit_from<'a>(alloc: Global, depth: u32, tokens: &'a [Token]) -> Read<'a, Option<TreeExpr>>
    requires { depth ≤ 200 }
    ensures value { Gives (λ x. (x.0, x.1, x.2.now)) result (bit_from (expr_at depth) tokens.now) }
    ensures small { IfOk result (λ x. x.1 ≤ depth) }
{
    let (tree, deep, rest) = expr(alloc, depth, 1, tokens)?;
    let rest = after(b"]", rest)?;
    Ok((Some(tree), deep, rest))
}

/// The bit of an event's signal, where one stands in front.
#[tactic(auto, unfolding(crate::specs::Reading::bit_at))]
fn bit<'a>(alloc: Global, depth: u32, tokens: &'a [Token]) -> Read<'a, Option<TreeExpr>>
    requires { depth ≤ 200 }
    ensures value { Gives (λ x. (x.0, x.1, x.2.now)) result (bit_at (expr_at depth) tokens.now) }
    ensures small { IfOk result (λ x. x.1 ≤ depth) }
{
    match strip(b"[", tokens) {
        Some(inside) => bit_from(alloc, depth, inside),
        None => Ok((None, 0, tokens)),
    }
}

/// An event that begins at the place, after its name.
#[tactic(auto, unfolding(crate::specs::Reading::named_event))]
fn named_event<'a>(
    alloc: Global,
    depth: u32,
    place: Place,
    edge: Option<EdgeWord>,
    name: Name,
    tokens: &'a [Token],
) -> Read<'a, Event>
    requires { depth ≤ 200 }
    ensures value { Gives (λ x. (x.0, x.1, x.2.now)) result (named_event (expr_at depth) place edge name.place name.text tokens.now) }
    ensures small { IfOk result (λ x. x.1 ≤ depth) }
{
    let (bit, deep, rest) = bit(alloc, depth, tokens)?;
    let event = Event {
        place,
        edge,
        name,
        bit,
    };
    Ok((event, deep, rest))
}

/// An event after its edge, by the token after that.
fn edged_by<'a>(
    alloc: Global,
    depth: u32,
    place: Place,
    edge: EdgeWord,
    first: &Token,
    rest: &'a [Token],
) -> Read<'a, Event>
    requires { depth ≤ 200 }
    ensures value { Gives (λ x. (x.0, x.1, x.2.now)) result (edged_by (expr_at depth) place edge first.now.kind first.now.place rest.now) }
    ensures small { IfOk result (λ x. x.1 ≤ depth) }
{
    match &first.kind {
        TokenKind::Name(text) => {
            let name = Name {
                text: text.copy()?,
                place: first.place,
            };
            named_event(alloc, depth, place, Some(edge), name, rest)
        }
        TokenKind::Sign(_)
        | TokenKind::System(_)
        | TokenKind::Word(_)
        | TokenKind::Number(_)
        | TokenKind::Quoted(_) => Err(Stop::Unexpected(rest.len() + 1)),
    }
}

/// An event after its edge.
#[tactic(auto, unfolding(crate::specs::Reading::edged_event))]
fn edged_event<'a>(
    alloc: Global,
    depth: u32,
    place: Place,
    edge: EdgeWord,
    tokens: &'a [Token],
) -> Read<'a, Event>
    requires { depth ≤ 200 }
    ensures value { Gives (λ x. (x.0, x.1, x.2.now)) result (edged_event (expr_at depth) place edge tokens.now) }
    ensures small { IfOk result (λ x. x.1 ≤ depth) }
{
    match tokens {
        [first, rest @ ..] => edged_by(alloc, depth, place, edge, first, rest),
        [] => Err(Stop::Unexpected(0)),
    }
}

/// An event that begins with a word, after it.
#[tactic(auto, unfolding(crate::specs::Reading::word_event))]
fn word_event<'a>(
    alloc: Global,
    depth: u32,
    place: Place,
    word: &Text,
    tokens: &'a [Token],
) -> Read<'a, Event>
    requires { depth ≤ 200 }
    ensures value { Gives (λ x. (x.0, x.1, x.2.now)) result (word_event (expr_at depth) place word.now tokens.now) }
    ensures small { IfOk result (λ x. x.1 ≤ depth) }
{
    match edge_of(word.bytes()) {
        Some(edge) => edged_event(alloc, depth, place, edge, tokens),
        None => Err(Stop::Unexpected(tokens.len() + 1)),
    }
}

/// An event that begins with a token, of which the tokens after it are given.
fn event_by<'a>(alloc: Global, depth: u32, first: &Token, rest: &'a [Token]) -> Read<'a, Event>
    requires { depth ≤ 200 }
    ensures value { Gives (λ x. (x.0, x.1, x.2.now)) result (event_by (expr_at depth) first.now.kind first.now.place rest.now) }
    ensures small { IfOk result (λ x. x.1 ≤ depth) }
{
    let place = first.place;
    match &first.kind {
        TokenKind::Name(text) => {
            let name = Name {
                text: text.copy()?,
                place,
            };
            named_event(alloc, depth, place, None, name, rest)
        }
        TokenKind::Word(text) => word_event(alloc, depth, place, text, rest),
        TokenKind::Sign(_) | TokenKind::System(_) | TokenKind::Number(_) | TokenKind::Quoted(_) =>
            Err(Stop::Unexpected(rest.len() + 1)),
    }
}

/// The event at the front (clause 9.7.2).
#[tactic(auto, unfolding(crate::specs::Reading::event_at))]
fn event<'a>(alloc: Global, depth: u32, tokens: &'a [Token]) -> Read<'a, Event>
    requires { depth ≤ 200 }
    ensures value { Gives (λ x. (x.0, x.1, x.2.now)) result (event_at (expr_at depth) tokens.now) }
    ensures small { IfOk result (λ x. x.1 ≤ depth) }
{
    match tokens {
        [first, rest @ ..] => event_by(alloc, depth, first, rest),
        [] => Err(Stop::Unexpected(0)),
    }
}

/// A further event, after what joins it to those before.
#[tactic(auto, unfolding(crate::specs::Reading::next_event))]
fn next_event<'a>(
    alloc: Global,
    depth: u32,
    join: EventJoin,
    tokens: &'a [Token],
) -> Read<'a, NextEvent>
    requires { depth ≤ 200 }
    ensures value { Gives (λ x. (x.0, x.1, x.2.now)) result (next_event (expr_at depth) (join, tokens.now)) }
    ensures small { IfOk result (λ x. x.1 ≤ depth) }
{
    let (event, deep, rest) = event(alloc, depth, tokens)?;
    Ok((NextEvent { join, event }, deep, rest))
}

/// The further events of a list; `deep` is the depth of the first one.
#[tactic(auto, unfolding(crate::specs::Lists::many_from))]
fn more<'a>(alloc: Global, depth: u32, deep: u32, tokens: &'a [Token]) -> Read<'a, Items<NextEvent>>
    requires small { depth ≤ 200 }
    requires first_small { deep ≤ depth }
    ensures value { Gives (λ x. (x.0, x.1, x.2.now)) result (many_from join_at (next_event (expr_at depth)) (length tokens.now) [] deep tokens.now) }
    ensures small { IfOk result (λ x. x.1 ≤ depth) }
{
    let mut items = Items::new(alloc);
    let mut deepest = deep;
    let mut rest = tokens;
    for _ in 0..tokens.len() {
        let Some((join, next)) = join(rest) else {
            return Ok((items, deepest, rest));
        };
        let (item, deep, following) = next_event(alloc, depth, join, next)?;
        items.push(item)?;
        deepest = deepest.max(deep);
        rest = following;
    }
    Ok((items, deepest, rest))
}

/// A list of events, after its `(`.
#[tactic(auto, unfolding(crate::specs::Reading::event_list))]
fn event_list<'a>(alloc: Global, depth: u32, place: Place, tokens: &'a [Token]) -> Read<'a, Events>
    requires { depth ≤ 200 }
    ensures value { Gives (λ x. (x.0, x.1, x.2.now)) result (event_list (expr_at depth) place tokens.now) }
    ensures small { IfOk result (λ x. x.1 ≤ depth) }
{
    let (first, deep, rest) = event(alloc, depth, tokens)?;
    let (more, deep, rest) = more(alloc, depth, deep, rest)?;
    let rest = after(b")", rest)?;
    let form = EventsForm::List { first, more };
    Ok((Events { place, form }, deep, rest))
}

/// `(*)` after its `*`.
#[tactic(auto, unfolding(crate::specs::Reading::star_paren))]
fn star_paren(place: Place, tokens: &[Token]) -> Read<'_, Events>
    ensures value { Gives (λ x. (x.0, x.1, x.2.now)) result (star_paren place tokens.now) }
    ensures small { IfOk result (λ x. x.1 ≡ 0) }
{
    let rest = after(b")", tokens)?;
    let form = EventsForm::StarParen;
    Ok((Events { place, form }, 0, rest))
}

/// Events in parentheses, after the `(`.
#[tactic(auto, unfolding(crate::specs::Reading::events_paren))]
fn events_paren<'a>(
    alloc: Global,
    depth: u32,
    place: Place,
    tokens: &'a [Token],
) -> Read<'a, Events>
    requires { depth ≤ 200 }
    ensures value { Gives (λ x. (x.0, x.1, x.2.now)) result (events_paren (expr_at depth) place tokens.now) }
    ensures small { IfOk result (λ x. x.1 ≤ depth) }
{
    match strip(b"*", tokens) {
        Some(rest) => star_paren(place, rest),
        None => event_list(alloc, depth, place, tokens),
    }
}

/// Events that begin with a sign, after it.
#[tactic(auto, unfolding(crate::specs::Reading::events_sign))]
fn events_sign<'a>(
    alloc: Global,
    depth: u32,
    place: Place,
    sign: &[u8],
    tokens: &'a [Token],
) -> Read<'a, Events>
    requires { depth ≤ 200 }
    ensures value { Gives (λ x. (x.0, x.1, x.2.now)) result (events_sign (expr_at depth) place sign.now tokens.now) }
    ensures small { IfOk result (λ x. x.1 ≤ depth) }
{
    if same(sign, b"*") {
        let form = EventsForm::Star;
        return Ok((Events { place, form }, 0, tokens));
    }
    if same(sign, b"(") {
        return events_paren(alloc, depth, place, tokens);
    }
    Err(Stop::Unexpected(tokens.len() + 1))
}

/// Events that begin with a token, of which the tokens after it are given.
fn events_by<'a>(alloc: Global, depth: u32, first: &Token, rest: &'a [Token]) -> Read<'a, Events>
    requires { depth ≤ 200 }
    ensures value { Gives (λ x. (x.0, x.1, x.2.now)) result (events_by (expr_at depth) first.now.kind first.now.place rest.now) }
    ensures small { IfOk result (λ x. x.1 ≤ depth) }
{
    let place = first.place;
    match &first.kind {
        TokenKind::Name(text) => {
            let form = EventsForm::Name(Name {
                text: text.copy()?,
                place,
            });
            Ok((Events { place, form }, 0, rest))
        }
        TokenKind::Sign(text) => events_sign(alloc, depth, place, text.bytes(), rest),
        TokenKind::System(_) | TokenKind::Word(_) | TokenKind::Number(_) | TokenKind::Quoted(_) =>
            Err(Stop::Unexpected(rest.len() + 1)),
    }
}

/// What stands after the `@` of an event control (clause 9.7.2): `*`, `(*)`, a name, or events in parentheses. The expressions in
/// it have that depth at most. `Unexpected` tells where it was seen that none is there.
#[tactic(auto, unfolding(crate::specs::Reading::events_at))]
pub fn events<'a>(alloc: Global, depth: u32, tokens: &'a [Token]) -> Read<'a, Events>
    requires { depth ≤ 200 }
    ensures value { Gives (λ x. (x.0, x.1, x.2.now)) result (events_at (expr_at depth) tokens.now) }
    ensures small { IfOk result (λ x. x.1 ≤ depth) }
{
    match tokens {
        [first, rest @ ..] => events_by(alloc, depth, first, rest),
        [] => Err(Stop::Unexpected(0)),
    }
}
