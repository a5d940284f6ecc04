//! Signs, ranges and directions of declarations.

ghost use Rattle.std.specs.Prelude.{◌≡◌, Some, None};
ghost use Rattle.vf_expression.specs.Reading.{Gives};
ghost use Rattle.vf_item.specs.Reading.{value_at, init_at, range_from, vector_from, range_or, shape_from, shape_at, port_shape_by, port_shape_from, port_shape_at};

use crate::Front;
use crate::words::{dir, kind, opening};
use std::alloc::Global;
use vf_base::Place;
use vf_expression::{MOST_DEPTH, Stop, after, expr};
use vf_lex::Token;
use vf_statement::strip_word;
use vf_tree::{Dir, NetOrReg, Range, TreeExpr};

/// The sign mark and the range of what is declared (clause 4.3).
#[derive(Drop)]
pub struct Shape {
    pub signed: bool,
    pub range: Option<Range>,
}

/// What a port is (clause 12.3.3).
#[derive(Drop)]
pub struct PortShape {
    pub dir: Dir,
    pub kind: Option<NetOrReg>,
    pub shape: Shape,
}

/// An expression.
#[tactic(auto, unfolding(crate::specs::Reading::value_at))]
pub fn value(alloc: Global, tokens: &[Token]) -> Front<'_, TreeExpr>
    ensures { Gives (λ x. (x.0, x.1.now)) result (value_at tokens.now) }
{
    let (tree, _, rest) = expr(alloc, MOST_DEPTH, 1, tokens)?;
    Ok((tree, rest))
}

/// `=` and an expression.
#[tactic(auto, unfolding(crate::specs::Reading::init_at))]
pub fn init(alloc: Global, tokens: &[Token]) -> Front<'_, TreeExpr>
    ensures { Gives (λ x. (x.0, x.1.now)) result (init_at tokens.now) }
{
    let rest = after(b"=", tokens)?;
    value(alloc, rest)
}

/// A range, after its `[`.
#[tactic(auto, unfolding(crate::specs::Reading::range_from))]
fn range_from(alloc: Global, place: Place, tokens: &[Token]) -> Front<'_, Range>
    ensures { Gives (λ x. (x.0, x.1.now)) result (range_from place tokens.now) }
{
    let (left, rest) = value(alloc, tokens)?;
    let rest = after(b":", rest)?;
    let (right, rest) = value(alloc, rest)?;
    let rest = after(b"]", rest)?;
    Ok((Range { place, left, right }, rest))
}

#[tactic(auto, unfolding(crate::specs::Reading::vector_from))]
fn vector_from(alloc: Global, place: Place, tokens: &[Token]) -> Front<'_, Option<Range>>
    ensures { Gives (λ x. (x.0, x.1.now)) result (vector_from place tokens.now) }
{
    let (range, rest) = range_from(alloc, place, tokens)?;
    Ok((Some(range), rest))
}

/// A range, where one stands in front.
#[tactic(auto, unfolding(crate::specs::Reading::range_or))]
pub fn range_or(alloc: Global, tokens: &[Token]) -> Front<'_, Option<Range>>
    ensures { Gives (λ x. (x.0, x.1.now)) result (range_or tokens.now) }
{
    match opening(tokens) {
        Some((place, rest)) => vector_from(alloc, place, rest),
        None => Ok((None, tokens)),
    }
}

#[tactic(auto, unfolding(crate::specs::Reading::shape_from))]
fn shape_from(alloc: Global, signed: bool, tokens: &[Token]) -> Front<'_, Shape>
    ensures { Gives (λ x. (x.0, x.1.now)) result (shape_from signed tokens.now) }
{
    let (range, rest) = range_or(alloc, tokens)?;
    Ok((Shape { signed, range }, rest))
}

/// A sign mark and a range, each where it stands in front.
#[tactic(auto, unfolding(crate::specs::Reading::shape_at))]
pub fn read_shape(alloc: Global, tokens: &[Token]) -> Front<'_, Shape>
    ensures { Gives (λ x. (x.0, x.1.now)) result (shape_at tokens.now) }
{
    match strip_word(b"signed", tokens) {
        Some(rest) => shape_from(alloc, true, rest),
        None => shape_from(alloc, false, tokens),
    }
}

#[tactic(auto, unfolding(crate::specs::Reading::port_shape_by))]
fn port_shape_by(
    alloc: Global,
    dir: Dir,
    kind: Option<NetOrReg>,
    tokens: &[Token],
) -> Front<'_, PortShape>
    ensures { Gives (λ x. (x.0, x.1.now)) result (port_shape_by dir kind tokens.now) }
{
    let (shape, rest) = read_shape(alloc, tokens)?;
    Ok((PortShape { dir, kind, shape }, rest))
}

/// What a port is, after its direction.
#[tactic(auto, unfolding(crate::specs::Reading::port_shape_from))]
pub fn port_shape_from(alloc: Global, dir: Dir, tokens: &[Token]) -> Front<'_, PortShape>
    ensures { Gives (λ x. (x.0, x.1.now)) result (port_shape_from dir tokens.now) }
{
    match kind(tokens) {
        Some((kind, rest)) => port_shape_by(alloc, dir, Some(kind), rest),
        None => port_shape_by(alloc, dir, None, tokens),
    }
}

/// What a port is.
#[tactic(auto, unfolding(crate::specs::Reading::port_shape_at))]
pub fn port_shape(alloc: Global, tokens: &[Token]) -> Front<'_, PortShape>
    ensures { Gives (λ x. (x.0, x.1.now)) result (port_shape_at tokens.now) }
{
    match dir(tokens) {
        Some((dir, rest)) => port_shape_from(alloc, dir, rest),
        None => Err(Stop::Unexpected(tokens.len())),
    }
}
