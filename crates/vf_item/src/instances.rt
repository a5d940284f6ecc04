//! Instances and their connections.

ghost use Rattle.std.specs.Prelude.{◌≡◌, Some, None, [], ◌∷◌};
ghost use Rattle.vf_expression.specs.Reading.{Gives};
ghost use Rattle.vf_item.specs.Reading.{ends_slot, filled_at, slot_at, named_conn_at, by_name_at, lone_from, places_from, by_place_from, by_place_at, conns_at, closed_conns, overrides_from, overrides_at, connected_from, inst_from, inst_at};

use crate::Front;
use crate::rows::{Piece, more, series};
use crate::shapes::value;
use sqlite_items::Items;
use std::alloc::Global;
use vf_base::Place;
use vf_expression::{Stop, after, is_sign, same, strip};
use vf_lex::{Token, TokenKind};
use vf_statement::name;
use vf_tree::{Conns, ConnsForm, Inst, Name, NamedConn, TreeExpr};

/// Whether a token ends a connection by place that is left empty.
fn ends_slot(kind: &TokenKind) -> bool
    ensures { result ≡ ends_slot kind.now }
{
    match kind {
        TokenKind::Sign(text) => {
            if same(text.bytes(), b",") {
                return true;
            }
            same(text.bytes(), b")")
        }
        TokenKind::Name(_)
        | TokenKind::System(_)
        | TokenKind::Word(_)
        | TokenKind::Number(_)
        | TokenKind::Quoted(_) => false,
    }
}

#[tactic(auto, unfolding(crate::specs::Reading::filled_at))]
fn filled(alloc: Global, tokens: &[Token]) -> Front<'_, Option<TreeExpr>>
    ensures { Gives (λ x. (x.0, x.1.now)) result (filled_at tokens.now) }
{
    let (tree, rest) = value(alloc, tokens)?;
    Ok((Some(tree), rest))
}

/// What a connection connects, which may be left out.
#[tactic(auto, unfolding(crate::specs::Reading::slot_at))]
fn slot(alloc: Global, tokens: &[Token]) -> Front<'_, Option<TreeExpr>>
    ensures { Gives (λ x. (x.0, x.1.now)) result (slot_at tokens.now) }
{
    match tokens {
        [first, ..] => {
            if ends_slot(&first.kind) {
                return Ok((None, tokens));
            }
            filled(alloc, tokens)
        }
        [] => Err(Stop::Unexpected(0)),
    }
}

impl Piece for Option<TreeExpr> {
    ghost reads = { slot_at };

    fn read(alloc: Global, tokens: &[Token]) -> Front<'_, Option<TreeExpr>> {
        slot(alloc, tokens)
    }
}

impl Piece for NamedConn {
    ghost reads = { named_conn_at };

    #[tactic(auto, unfolding(crate::specs::Reading::named_conn_at))]
    fn read(alloc: Global, tokens: &[Token]) -> Front<'_, NamedConn> {
        let rest = after(b".", tokens)?;
        let (name, rest) = name(rest)?;
        let rest = after(b"(", rest)?;
        let (value, rest) = slot(alloc, rest)?;
        let rest = after(b")", rest)?;
        Ok((NamedConn { name, value }, rest))
    }
}

/// Connections by name (clause 12.3.6).
#[tactic(auto, unfolding(crate::specs::Reading::by_name_at))]
fn by_name(alloc: Global, place: Place, tokens: &[Token]) -> Front<'_, Conns>
    ensures { Gives (λ x. (x.0, x.1.now)) result (by_name_at place tokens.now) }
{
    let (names, rest) = series(alloc, tokens)?;
    let form = ConnsForm::Names(names);
    Ok((Conns { place, form }, rest))
}

/// One connection by place, which may not be left empty.
fn lone(place: Place, first: Option<TreeExpr>, tokens: &[Token]) -> Front<'_, Conns>
    ensures { Gives (λ x. (x.0, x.1.now)) result (lone_from place first tokens.now) }
{
    match first {
        Some(tree) => {
            let form = ConnsForm::One(tree);
            Ok((Conns { place, form }, tokens))
        }
        None => Err(Stop::Unexpected(tokens.len())),
    }
}

/// Two connections by place or more, after the first one and its comma.
#[tactic(auto, unfolding(crate::specs::Reading::places_from))]
fn places(
    alloc: Global,
    place: Place,
    first: Option<TreeExpr>,
    tokens: &[Token],
) -> Front<'_, Conns>
    ensures { Gives (λ x. (x.0, x.1.now)) result (places_from place first tokens.now) }
{
    let (second, rest) = slot(alloc, tokens)?;
    let mut items = Items::new(alloc);
    items.push(first)?;
    items.push(second)?;
    let (items, rest) = more(alloc, items, rest)?;
    let form = ConnsForm::Places(items);
    Ok((Conns { place, form }, rest))
}

#[tactic(auto, unfolding(crate::specs::Reading::by_place_from))]
fn by_place_from(
    alloc: Global,
    place: Place,
    first: Option<TreeExpr>,
    tokens: &[Token],
) -> Front<'_, Conns>
    ensures { Gives (λ x. (x.0, x.1.now)) result (by_place_from place first tokens.now) }
{
    match strip(b",", tokens) {
        Some(rest) => places(alloc, place, first, rest),
        None => lone(place, first, tokens),
    }
}

/// Connections by place (clause 12.3.5).
#[tactic(auto, unfolding(crate::specs::Reading::by_place_at))]
fn by_place(alloc: Global, place: Place, tokens: &[Token]) -> Front<'_, Conns>
    ensures { Gives (λ x. (x.0, x.1.now)) result (by_place_at place tokens.now) }
{
    let (first, rest) = slot(alloc, tokens)?;
    by_place_from(alloc, place, first, rest)
}

/// Connections of ports, or overrides of parameters.
#[tactic(auto, unfolding(crate::specs::Reading::conns_at))]
fn conns(alloc: Global, tokens: &[Token]) -> Front<'_, Conns>
    ensures { Gives (λ x. (x.0, x.1.now)) result (conns_at tokens.now) }
{
    match tokens {
        [first, ..] => {
            if is_sign(b".", &first.kind) {
                return by_name(alloc, first.place, tokens);
            }
            by_place(alloc, first.place, tokens)
        }
        [] => Err(Stop::Unexpected(0)),
    }
}

#[tactic(auto, unfolding(crate::specs::Reading::closed_conns))]
fn closed_conns(alloc: Global, tokens: &[Token]) -> Front<'_, Conns>
    ensures { Gives (λ x. (x.0, x.1.now)) result (closed_conns tokens.now) }
{
    let (conns, rest) = conns(alloc, tokens)?;
    let rest = after(b")", rest)?;
    Ok((conns, rest))
}

#[tactic(auto, unfolding(crate::specs::Reading::overrides_from))]
fn overrides_from(alloc: Global, tokens: &[Token]) -> Front<'_, Option<Conns>>
    ensures { Gives (λ x. (x.0, x.1.now)) result (overrides_from tokens.now) }
{
    let rest = after(b"(", tokens)?;
    let (conns, rest) = closed_conns(alloc, rest)?;
    Ok((Some(conns), rest))
}

/// Overrides of parameters (clause 12.2.2), where they stand in front.
#[tactic(auto, unfolding(crate::specs::Reading::overrides_at))]
pub fn overrides(alloc: Global, tokens: &[Token]) -> Front<'_, Option<Conns>>
    ensures { Gives (λ x. (x.0, x.1.now)) result (overrides_at tokens.now) }
{
    match strip(b"#", tokens) {
        Some(rest) => overrides_from(alloc, rest),
        None => Ok((None, tokens)),
    }
}

#[tactic(auto, unfolding(crate::specs::Reading::connected_from))]
fn connected(alloc: Global, name: Name, tokens: &[Token]) -> Front<'_, Inst>
    ensures { Gives (λ x. (x.0, x.1.now)) result (connected_from name tokens.now) }
{
    let (tree, rest) = closed_conns(alloc, tokens)?;
    let place = name.place;
    let conns = Some(tree);
    Ok((Inst { place, name, conns }, rest))
}

/// An instance, after its `(`.
#[tactic(auto, unfolding(crate::specs::Reading::inst_from))]
fn inst_from(alloc: Global, name: Name, tokens: &[Token]) -> Front<'_, Inst>
    ensures { Gives (λ x. (x.0, x.1.now)) result (inst_from name tokens.now) }
{
    match strip(b")", tokens) {
        Some(rest) => {
            let place = name.place;
            let conns = None;
            Ok((Inst { place, name, conns }, rest))
        }
        None => connected(alloc, name, tokens),
    }
}

impl Piece for Inst {
    ghost reads = { inst_at };

    #[tactic(auto, unfolding(crate::specs::Reading::inst_at))]
    fn read(alloc: Global, tokens: &[Token]) -> Front<'_, Inst> {
        let (name, rest) = name(tokens)?;
        let rest = after(b"(", rest)?;
        inst_from(alloc, name, rest)
    }
}
