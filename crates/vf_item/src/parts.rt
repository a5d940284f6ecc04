//! Nets, variables, parameters and continuous assignments of a declaration.

ghost use Rattle.std.specs.Prelude.{◌≡◌, Some, None};
ghost use Rattle.vf_expression.specs.Reading.{Gives};
ghost use Rattle.vf_item.specs.Reading.{driven_from, net_from, net_at, set_from, plain_from, var_from, var_at, param_part_at, assign_at};

use crate::Front;
use crate::rows::Piece;
use crate::shapes::{init, range_or, value};
use std::alloc::Global;
use vf_expression::{MOST_DEPTH, strip};
use vf_lex::Token;
use vf_statement::{assign_part, name};
use vf_tree::{AssignPart, Name, Net, ParamPart, Var, VarForm};

/// A net, after its name and `=`.
#[tactic(auto, unfolding(crate::specs::Reading::driven_from))]
fn driven_from(alloc: Global, name: Name, tokens: &[Token]) -> Front<'_, Net>
    ensures { Gives (λ x. (x.0, x.1.now)) result (driven_from name tokens.now) }
{
    let (tree, rest) = value(alloc, tokens)?;
    let place = name.place;
    let value = Some(tree);
    Ok((Net { place, name, value }, rest))
}

#[tactic(auto, unfolding(crate::specs::Reading::net_from))]
fn net_from(alloc: Global, name: Name, tokens: &[Token]) -> Front<'_, Net>
    ensures { Gives (λ x. (x.0, x.1.now)) result (net_from name tokens.now) }
{
    match strip(b"=", tokens) {
        Some(rest) => driven_from(alloc, name, rest),
        None => {
            let place = name.place;
            let value = None;
            Ok((Net { place, name, value }, tokens))
        }
    }
}

impl Piece for Net {
    ghost reads = { net_at };

    #[tactic(auto, unfolding(crate::specs::Reading::net_at))]
    fn read(alloc: Global, tokens: &[Token]) -> Front<'_, Net> {
        let (name, rest) = name(tokens)?;
        net_from(alloc, name, rest)
    }
}

/// A variable, after its name and `=`.
#[tactic(auto, unfolding(crate::specs::Reading::set_from))]
fn set_from(alloc: Global, name: Name, tokens: &[Token]) -> Front<'_, Var>
    ensures { Gives (λ x. (x.0, x.1.now)) result (set_from name tokens.now) }
{
    let (value, rest) = value(alloc, tokens)?;
    let place = name.place;
    let form = VarForm::Set { name, value };
    Ok((Var { place, form }, rest))
}

/// A variable or a memory, after its name.
#[tactic(auto, unfolding(crate::specs::Reading::plain_from))]
fn plain_from(alloc: Global, name: Name, tokens: &[Token]) -> Front<'_, Var>
    ensures { Gives (λ x. (x.0, x.1.now)) result (plain_from name tokens.now) }
{
    let (range, rest) = range_or(alloc, tokens)?;
    let place = name.place;
    let form = VarForm::Plain { name, range };
    Ok((Var { place, form }, rest))
}

#[tactic(auto, unfolding(crate::specs::Reading::var_from))]
fn var_from(alloc: Global, name: Name, tokens: &[Token]) -> Front<'_, Var>
    ensures { Gives (λ x. (x.0, x.1.now)) result (var_from name tokens.now) }
{
    match strip(b"=", tokens) {
        Some(rest) => set_from(alloc, name, rest),
        None => plain_from(alloc, name, tokens),
    }
}

impl Piece for Var {
    ghost reads = { var_at };

    #[tactic(auto, unfolding(crate::specs::Reading::var_at))]
    fn read(alloc: Global, tokens: &[Token]) -> Front<'_, Var> {
        let (name, rest) = name(tokens)?;
        var_from(alloc, name, rest)
    }
}

impl Piece for ParamPart {
    ghost reads = { param_part_at };

    #[tactic(auto, unfolding(crate::specs::Reading::param_part_at))]
    fn read(alloc: Global, tokens: &[Token]) -> Front<'_, ParamPart> {
        let (name, rest) = name(tokens)?;
        let (value, rest) = init(alloc, rest)?;
        Ok((ParamPart { name, value }, rest))
    }
}

impl Piece for AssignPart {
    ghost reads = { assign_at };

    #[tactic(auto, unfolding(crate::specs::Reading::assign_at))]
    fn read(alloc: Global, tokens: &[Token]) -> Front<'_, AssignPart> {
        let (part, _, rest) = assign_part(alloc, MOST_DEPTH, tokens)?;
        Ok((part, rest))
    }
}
