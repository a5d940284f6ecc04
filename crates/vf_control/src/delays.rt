//! Delays. In this module `depth` is the greatest depth of the expression in a delay.

ghost use Rattle.std.specs.Prelude.{◌≡◌, ◌≤◌, IfOk};
ghost use Rattle.vf_expression.specs.Reading.{Gives, expr_at};
ghost use Rattle.vf_control.specs.Reading.{delay_expr, delay_by, delay_after, delay_at};

use std::alloc::Global;
use vf_base::Place;
use vf_expression::{Read, Stop, closed, is_sign, same};
use vf_lex::{Token, TokenKind};
use vf_tree::{Delay, DelayForm, Name, Number};

/// A delay of an expression, after its `(`.
#[tactic(auto, unfolding(crate::specs::Reading::delay_expr))]
fn delay_expr<'a>(alloc: Global, depth: u32, place: Place, tokens: &'a [Token]) -> Read<'a, Delay>
    requires { depth ≤ 200 }
    ensures value { Gives (λ x. (x.0, x.1, x.2.now)) result (delay_expr (expr_at depth) place tokens.now) }
    ensures small { IfOk result (λ x. x.1 ≤ depth) }
{
    let (tree, deep, rest) = closed(alloc, depth, tokens)?;
    let form = DelayForm::Expr(tree);
    Ok((Delay { place, form }, deep, rest))
}

/// A delay whose `#` stands at the place, by the token after that.
fn delay_by<'a>(
    alloc: Global,
    depth: u32,
    place: Place,
    first: &Token,
    rest: &'a [Token],
) -> Read<'a, Delay>
    requires { depth ≤ 200 }
    ensures value { Gives (λ x. (x.0, x.1, x.2.now)) result (delay_by (expr_at depth) place first.now.kind first.now.place rest.now) }
    ensures small { IfOk result (λ x. x.1 ≤ depth) }
{
    match &first.kind {
        TokenKind::Number(value) => {
            let form = DelayForm::Number(Number {
                value: *value,
                place: first.place,
            });
            Ok((Delay { place, form }, 0, rest))
        }
        TokenKind::Name(text) => {
            let form = DelayForm::Name(Name {
                text: text.copy()?,
                place: first.place,
            });
            Ok((Delay { place, form }, 0, rest))
        }
        TokenKind::Sign(text) => {
            if same(text.bytes(), b"(") {
                return delay_expr(alloc, depth, place, rest);
            }
            Err(Stop::Unexpected(rest.len() + 1))
        }
        TokenKind::System(_) | TokenKind::Word(_) | TokenKind::Quoted(_) => {
            Err(Stop::Unexpected(rest.len() + 1))
        }
    }
}

/// A delay after its `#`.
#[tactic(auto, unfolding(crate::specs::Reading::delay_after))]
fn delay_after<'a>(alloc: Global, depth: u32, place: Place, tokens: &'a [Token]) -> Read<'a, Delay>
    requires { depth ≤ 200 }
    ensures value { Gives (λ x. (x.0, x.1, x.2.now)) result (delay_after (expr_at depth) place tokens.now) }
    ensures small { IfOk result (λ x. x.1 ≤ depth) }
{
    match tokens {
        [first, rest @ ..] => delay_by(alloc, depth, place, first, rest),
        [] => Err(Stop::Unexpected(0)),
    }
}

/// The delay at the front (clause 9.7.1): `#` and a number, a name, or an expression of that depth at most in parentheses.
/// `Unexpected` tells where it was seen that none is there.
#[tactic(auto, unfolding(crate::specs::Reading::delay_at))]
pub fn delay<'a>(alloc: Global, depth: u32, tokens: &'a [Token]) -> Read<'a, Delay>
    requires { depth ≤ 200 }
    ensures value { Gives (λ x. (x.0, x.1, x.2.now)) result (delay_at (expr_at depth) tokens.now) }
    ensures small { IfOk result (λ x. x.1 ≤ depth) }
{
    match tokens {
        [first, rest @ ..] => {
            if is_sign(b"#", &first.kind) {
                return delay_after(alloc, depth, first.place, rest);
            }
            Err(Stop::Unexpected(tokens.len()))
        }
        [] => Err(Stop::Unexpected(0)),
    }
}
