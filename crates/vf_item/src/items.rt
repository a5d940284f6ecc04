//! The items of a module.

ghost use Rattle.std.specs.Prelude.{◌≡◌};
ghost use Rattle.vf_expression.specs.Reading.{Gives};
ghost use Rattle.vf_item.specs.Reading.{listed, ports_item, nets_item, vars_item, regs_item, params_item, assigns_item, insts_item, initial_item, always_item, process_by, vars_by, params_by, nets_by, word_item, item_by, item_at};

use crate::Front;
use crate::instances::overrides;
use crate::rows::{Piece, series};
use crate::shapes::{PortShape, Shape, port_shape_from, read_shape};
use crate::words::{dir_of, net_of, param_of};
use sqlite_items::Items;
use std::alloc::Global;
use vf_base::{Place, Text};
use vf_expression::{MOST_DEPTH, Stop, after, same};
use vf_lex::{Token, TokenKind};
use vf_statement::stmt;
use vf_tree::{Dir, Item, ItemForm, Name, NetWord, ParamWord, VarType};

/// Items of a list and the `;` after them.
#[tactic(auto, unfolding(crate::specs::Reading::listed))]
fn listed<P: Piece>(alloc: Global, tokens: &[Token]) -> Front<'_, Items<P>>
    ensures { Gives (λ x. (x.0, x.1.now)) result (listed P.reads tokens.now) }
{
    let (items, rest) = series(alloc, tokens)?;
    let rest = after(b";", rest)?;
    Ok((items, rest))
}

/// Directions of ports (clause 12.3.3), after the word.
#[tactic(auto, unfolding(crate::specs::Reading::ports_item))]
fn ports_item(alloc: Global, dir: Dir, tokens: &[Token]) -> Front<'_, Item>
    ensures { Gives (λ x. (x.0, x.1.now)) result (ports_item dir tokens.now) }
{
    let place = dir.place;
    let (port, rest) = port_shape_from(alloc, dir, tokens)?;
    let (names, rest) = listed(alloc, rest)?;
    let PortShape { dir, kind, shape } = port;
    let Shape { signed, range } = shape;
    let form = ItemForm::Ports {
        dir,
        word: kind,
        signed,
        range,
        names,
    };
    Ok((Item { place, form }, rest))
}

/// Nets (clause 4.2.1), after the word.
#[tactic(auto, unfolding(crate::specs::Reading::nets_item))]
fn nets_item(alloc: Global, place: Place, word: NetWord, tokens: &[Token]) -> Front<'_, Item>
    ensures { Gives (λ x. (x.0, x.1.now)) result (nets_item place word tokens.now) }
{
    let (shape, rest) = read_shape(alloc, tokens)?;
    let (nets, rest) = listed(alloc, rest)?;
    let form = ItemForm::Nets {
        word,
        signed: shape.signed,
        range: shape.range,
        nets,
    };
    Ok((Item { place, form }, rest))
}

/// Variables of a type (clause 4.2.2), after it.
#[tactic(auto, unfolding(crate::specs::Reading::vars_item))]
fn vars_item(alloc: Global, place: Place, of: VarType, tokens: &[Token]) -> Front<'_, Item>
    ensures { Gives (λ x. (x.0, x.1.now)) result (vars_item place of tokens.now) }
{
    let (vars, rest) = listed(alloc, tokens)?;
    let form = ItemForm::Vars { of, vars };
    Ok((Item { place, form }, rest))
}

/// Variables, after the word `reg`.
#[tactic(auto, unfolding(crate::specs::Reading::regs_item))]
fn regs_item(alloc: Global, place: Place, tokens: &[Token]) -> Front<'_, Item>
    ensures { Gives (λ x. (x.0, x.1.now)) result (regs_item place tokens.now) }
{
    let (shape, rest) = read_shape(alloc, tokens)?;
    let of = VarType::Reg {
        signed: shape.signed,
        range: shape.range,
    };
    vars_item(alloc, place, of, rest)
}

/// Parameters (clause 4.10), after the word.
#[tactic(auto, unfolding(crate::specs::Reading::params_item))]
fn params_item(alloc: Global, place: Place, word: ParamWord, tokens: &[Token]) -> Front<'_, Item>
    ensures { Gives (λ x. (x.0, x.1.now)) result (params_item place word tokens.now) }
{
    let (shape, rest) = read_shape(alloc, tokens)?;
    let (params, rest) = listed(alloc, rest)?;
    let form = ItemForm::Params {
        word,
        signed: shape.signed,
        range: shape.range,
        params,
    };
    Ok((Item { place, form }, rest))
}

/// Continuous assignments (clause 6.1), after the word `assign`.
#[tactic(auto, unfolding(crate::specs::Reading::assigns_item))]
fn assigns_item(alloc: Global, place: Place, tokens: &[Token]) -> Front<'_, Item>
    ensures { Gives (λ x. (x.0, x.1.now)) result (assigns_item place tokens.now) }
{
    let (parts, rest) = listed(alloc, tokens)?;
    let form = ItemForm::Assign(parts);
    Ok((Item { place, form }, rest))
}

/// Instances of a module (clause 12.1.2), after its name.
#[tactic(auto, unfolding(crate::specs::Reading::insts_item))]
fn insts_item<'a>(alloc: Global, place: Place, name: &Text, tokens: &'a [Token]) -> Front<'a, Item>
    ensures { Gives (λ x. (x.0, x.1.now)) result (insts_item place name.now tokens.now) }
{
    let (overrides, rest) = overrides(alloc, tokens)?;
    let (insts, rest) = listed(alloc, rest)?;
    let module = Name {
        text: name.copy()?,
        place,
    };
    let form = ItemForm::Insts {
        module,
        overrides,
        insts,
    };
    Ok((Item { place, form }, rest))
}

/// A process that runs once (clause 9.9.1), after the word `initial`.
#[tactic(auto, unfolding(crate::specs::Reading::initial_item))]
fn initial_item(alloc: Global, place: Place, tokens: &[Token]) -> Front<'_, Item>
    ensures { Gives (λ x. (x.0, x.1.now)) result (initial_item place tokens.now) }
{
    let (body, _, rest) = stmt(alloc, MOST_DEPTH, tokens)?;
    let form = ItemForm::Initial(body);
    Ok((Item { place, form }, rest))
}

/// A process that runs again and again (clause 9.9.2), after the word `always`.
#[tactic(auto, unfolding(crate::specs::Reading::always_item))]
fn always_item(alloc: Global, place: Place, tokens: &[Token]) -> Front<'_, Item>
    ensures { Gives (λ x. (x.0, x.1.now)) result (always_item place tokens.now) }
{
    let (body, _, rest) = stmt(alloc, MOST_DEPTH, tokens)?;
    let form = ItemForm::Always(body);
    Ok((Item { place, form }, rest))
}

#[tactic(auto, unfolding(crate::specs::Reading::process_by))]
fn process_by<'a>(alloc: Global, place: Place, word: &[u8], tokens: &'a [Token]) -> Front<'a, Item>
    ensures { Gives (λ x. (x.0, x.1.now)) result (process_by place word.now tokens.now) }
{
    if same(word, b"assign") {
        return assigns_item(alloc, place, tokens);
    }
    if same(word, b"initial") {
        return initial_item(alloc, place, tokens);
    }
    if same(word, b"always") {
        return always_item(alloc, place, tokens);
    }
    Err(Stop::Unexpected(tokens.len() + 1))
}

#[tactic(auto, unfolding(crate::specs::Reading::vars_by))]
fn vars_by<'a>(alloc: Global, place: Place, word: &[u8], tokens: &'a [Token]) -> Front<'a, Item>
    ensures { Gives (λ x. (x.0, x.1.now)) result (vars_by place word.now tokens.now) }
{
    if same(word, b"reg") {
        return regs_item(alloc, place, tokens);
    }
    if same(word, b"integer") {
        return vars_item(alloc, place, VarType::Integer, tokens);
    }
    if same(word, b"time") {
        return vars_item(alloc, place, VarType::Time, tokens);
    }
    process_by(alloc, place, word, tokens)
}

#[tactic(auto, unfolding(crate::specs::Reading::params_by))]
fn params_by<'a>(alloc: Global, place: Place, word: &[u8], tokens: &'a [Token]) -> Front<'a, Item>
    ensures { Gives (λ x. (x.0, x.1.now)) result (params_by place word.now tokens.now) }
{
    match param_of(word) {
        Some(kind) => params_item(alloc, place, kind, tokens),
        None => vars_by(alloc, place, word, tokens),
    }
}

#[tactic(auto, unfolding(crate::specs::Reading::nets_by))]
fn nets_by<'a>(alloc: Global, place: Place, word: &[u8], tokens: &'a [Token]) -> Front<'a, Item>
    ensures { Gives (λ x. (x.0, x.1.now)) result (nets_by place word.now tokens.now) }
{
    match net_of(word) {
        Some(kind) => nets_item(alloc, place, kind, tokens),
        None => params_by(alloc, place, word, tokens),
    }
}

/// An item by the word at its front, after it.
#[tactic(auto, unfolding(crate::specs::Reading::word_item))]
fn word_item<'a>(alloc: Global, place: Place, word: &[u8], tokens: &'a [Token]) -> Front<'a, Item>
    ensures { Gives (λ x. (x.0, x.1.now)) result (word_item place word.now tokens.now) }
{
    match dir_of(word) {
        Some(word) => ports_item(alloc, Dir { place, word }, tokens),
        None => nets_by(alloc, place, word, tokens),
    }
}

/// An item that begins with a token, of which the tokens after it are given.
fn item_by<'a>(alloc: Global, first: &Token, rest: &'a [Token]) -> Front<'a, Item>
    ensures { Gives (λ x. (x.0, x.1.now)) result (item_by first.now.kind first.now.place rest.now) }
{
    match &first.kind {
        TokenKind::Word(text) => word_item(alloc, first.place, text.bytes(), rest),
        TokenKind::Name(text) => insts_item(alloc, first.place, text, rest),
        TokenKind::System(_) | TokenKind::Sign(_) | TokenKind::Number(_) | TokenKind::Quoted(_) =>
            Err(Stop::Unexpected(rest.len() + 1)),
    }
}

/// The item at the front (Annex A.1.4). `Unexpected` tells where it was seen that none is there.
#[tactic(auto, unfolding(crate::specs::Reading::item_at))]
pub fn item(alloc: Global, tokens: &[Token]) -> Front<'_, Item>
    ensures { Gives (λ x. (x.0, x.1.now)) result (item_at tokens.now) }
{
    match tokens {
        [first, rest @ ..] => item_by(alloc, first, rest),
        [] => Err(Stop::Unexpected(0)),
    }
}
