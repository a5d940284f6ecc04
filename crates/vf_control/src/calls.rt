//! Calls of system tasks. In this module `depth` is the greatest depth of the expressions in them.

ghost use Rattle.std.specs.Prelude.{◌≡◌, ◌≤◌, Some, [], ◌∷◌, length, IfOk, codes};
ghost use Rattle.vf_expression.specs.Reading.{Gives, expr_at, after};
ghost use Rattle.vf_control.specs.Lists.{many_from, list_at};
ghost use Rattle.vf_control.specs.Reading.{string_at, arg_value, arg_at, show_args, show_from, save_from, end_number, end_from, ended_by, saved_by, called_by, task_by, task_at};

use crate::words::{end_of, save_of, show_of, string};
use sqlite_items::Items;
use std::alloc::Global;
use vf_base::{Place, Text};
use vf_expression::{Read, Stop, after, closed, expr, strip};
use vf_lex::{Token, TokenKind};
use vf_tree::{Arg, ArgForm, EndWord, Quoted, SaveWord, ShowWord, Task, TaskForm};

/// An argument that is an expression.
#[tactic(auto, unfolding(crate::specs::Reading::arg_value))]
fn arg_value<'a>(alloc: Global, depth: u32, tokens: &'a [Token]) -> Read<'a, Arg>
    requires { depth ≤ 200 }
    ensures value { Gives (λ x. (x.0, x.1, x.2.now)) result (arg_value (expr_at depth) tokens.now) }
    ensures small { IfOk result (λ x. x.1 ≤ depth) }
{
    let (tree, deep, rest) = expr(alloc, depth, 1, tokens)?;
    let place = tree.place;
    let form = ArgForm::Expr(tree);
    Ok((Arg { place, form }, deep, rest))
}

/// An argument of a task that prints.
#[tactic(auto, unfolding(crate::specs::Reading::arg_at))]
fn arg<'a>(alloc: Global, depth: u32, tokens: &'a [Token]) -> Read<'a, Arg>
    requires { depth ≤ 200 }
    ensures value { Gives (λ x. (x.0, x.1, x.2.now)) result (arg_at (expr_at depth) tokens.now) }
    ensures small { IfOk result (λ x. x.1 ≤ depth) }
{
    match string(tokens) {
        Some((text, place, rest)) => {
            let form = ArgForm::Quoted(Quoted {
                text: text.copy()?,
                place,
            });
            Ok((Arg { place, form }, 0, rest))
        }
        None => arg_value(alloc, depth, tokens),
    }
}

/// The further arguments, each after a comma.
#[tactic(auto, unfolding(crate::specs::Lists::many_from))]
fn more<'a>(
    alloc: Global,
    depth: u32,
    first: Arg,
    deep: u32,
    tokens: &'a [Token],
) -> Read<'a, Items<Arg>>
    requires small { depth ≤ 200 }
    requires first_small { deep ≤ depth }
    ensures value { Gives (λ x. (x.0, x.1, x.2.now)) result (many_from (after (codes ",")) (arg_at (expr_at depth)) (length tokens.now) (first ∷ []) deep tokens.now) }
    ensures small { IfOk result (λ x. x.1 ≤ depth) }
{
    let mut items = Items::new(alloc);
    items.push(first)?;
    let mut deepest = deep;
    let mut rest = tokens;
    for _ in 0..tokens.len() {
        let Some(next) = strip(b",", rest) else {
            return Ok((items, deepest, rest));
        };
        let (item, deep, following) = arg(alloc, depth, next)?;
        items.push(item)?;
        deepest = deepest.max(deep);
        rest = following;
    }
    Ok((items, deepest, rest))
}

/// Arguments with commas between them.
#[tactic(auto, unfolding(crate::specs::Lists::list_at))]
fn args<'a>(alloc: Global, depth: u32, tokens: &'a [Token]) -> Read<'a, Items<Arg>>
    requires { depth ≤ 200 }
    ensures value { Gives (λ x. (x.0, x.1, x.2.now)) result (list_at (arg_at (expr_at depth)) tokens.now) }
    ensures small { IfOk result (λ x. x.1 ≤ depth) }
{
    let (first, deep, rest) = arg(alloc, depth, tokens)?;
    more(alloc, depth, first, deep, rest)
}

/// A task that prints its arguments, after its `(`.
#[tactic(auto, unfolding(crate::specs::Reading::show_args))]
fn show_args<'a>(
    alloc: Global,
    depth: u32,
    place: Place,
    task: ShowWord,
    tokens: &'a [Token],
) -> Read<'a, Task>
    requires { depth ≤ 200 }
    ensures value { Gives (λ x. (x.0, x.1, x.2.now)) result (show_args (expr_at depth) place task tokens.now) }
    ensures small { IfOk result (λ x. x.1 ≤ depth) }
{
    let (args, deep, rest) = args(alloc, depth, tokens)?;
    let rest = after(b")", rest)?;
    let args = Some(args);
    let form = TaskForm::Show { task, args };
    Ok((Task { place, form }, deep, rest))
}

/// A task that prints, after its name.
#[tactic(auto, unfolding(crate::specs::Reading::show_from))]
fn show_from<'a>(
    alloc: Global,
    depth: u32,
    place: Place,
    task: ShowWord,
    tokens: &'a [Token],
) -> Read<'a, Task>
    requires { depth ≤ 200 }
    ensures value { Gives (λ x. (x.0, x.1, x.2.now)) result (show_from (expr_at depth) place task tokens.now) }
    ensures small { IfOk result (λ x. x.1 ≤ depth) }
{
    match strip(b"(", tokens) {
        Some(inside) => show_args(alloc, depth, place, task, inside),
        None => {
            let form = TaskForm::Show { task, args: None };
            Ok((Task { place, form }, 0, tokens))
        }
    }
}

/// The string at the front.
fn name<'a>(tokens: &'a [Token]) -> Result<(Quoted, &'a [Token]), Stop>
    ensures { Gives (λ x. (x.0.text, x.0.place, x.1.now)) result (string_at tokens.now) }
{
    match string(tokens) {
        Some((text, place, rest)) => {
            let name = Quoted {
                text: text.copy()?,
                place,
            };
            Ok((name, rest))
        }
        None => Err(Stop::Unexpected(tokens.len())),
    }
}

/// A task that saves the state, after its name.
#[tactic(auto, unfolding(crate::specs::Reading::save_from))]
fn save_from(place: Place, task: SaveWord, tokens: &[Token]) -> Read<'_, Task>
    ensures value { Gives (λ x. (x.0, x.1, x.2.now)) result (save_from place task tokens.now) }
    ensures small { IfOk result (λ x. x.1 ≡ 0) }
{
    let rest = after(b"(", tokens)?;
    let (name, rest) = name(rest)?;
    let rest = after(b")", rest)?;
    let form = TaskForm::Save { task, name };
    Ok((Task { place, form }, 0, rest))
}

/// A task that ends the run with a number, after its `(`.
#[tactic(auto, unfolding(crate::specs::Reading::end_number))]
fn end_number<'a>(
    alloc: Global,
    depth: u32,
    place: Place,
    task: EndWord,
    tokens: &'a [Token],
) -> Read<'a, Task>
    requires { depth ≤ 200 }
    ensures value { Gives (λ x. (x.0, x.1, x.2.now)) result (end_number (expr_at depth) place task tokens.now) }
    ensures small { IfOk result (λ x. x.1 ≤ depth) }
{
    let (tree, deep, rest) = closed(alloc, depth, tokens)?;
    let number = Some(tree);
    let form = TaskForm::End { task, number };
    Ok((Task { place, form }, deep, rest))
}

/// A task that ends the run, after its name.
#[tactic(auto, unfolding(crate::specs::Reading::end_from))]
fn end_from<'a>(
    alloc: Global,
    depth: u32,
    place: Place,
    task: EndWord,
    tokens: &'a [Token],
) -> Read<'a, Task>
    requires { depth ≤ 200 }
    ensures value { Gives (λ x. (x.0, x.1, x.2.now)) result (end_from (expr_at depth) place task tokens.now) }
    ensures small { IfOk result (λ x. x.1 ≤ depth) }
{
    match strip(b"(", tokens) {
        Some(inside) => end_number(alloc, depth, place, task, inside),
        None => {
            let form = TaskForm::End { task, number: None };
            Ok((Task { place, form }, 0, tokens))
        }
    }
}

/// A call of a task that neither prints nor saves, after its name.
#[tactic(auto, unfolding(crate::specs::Reading::ended_by))]
fn ended_by<'a>(
    alloc: Global,
    depth: u32,
    place: Place,
    name: &[u8],
    tokens: &'a [Token],
) -> Read<'a, Task>
    requires { depth ≤ 200 }
    ensures value { Gives (λ x. (x.0, x.1, x.2.now)) result (ended_by (expr_at depth) place name.now tokens.now) }
    ensures small { IfOk result (λ x. x.1 ≤ depth) }
{
    match end_of(name) {
        Some(task) => end_from(alloc, depth, place, task, tokens),
        None => Err(Stop::Unexpected(tokens.len() + 1)),
    }
}

/// A call of a task that does not print, after its name.
#[tactic(auto, unfolding(crate::specs::Reading::saved_by))]
fn saved_by<'a>(
    alloc: Global,
    depth: u32,
    place: Place,
    name: &[u8],
    tokens: &'a [Token],
) -> Read<'a, Task>
    requires { depth ≤ 200 }
    ensures value { Gives (λ x. (x.0, x.1, x.2.now)) result (saved_by (expr_at depth) place name.now tokens.now) }
    ensures small { IfOk result (λ x. x.1 ≤ depth) }
{
    match save_of(name) {
        Some(task) => save_from(place, task, tokens),
        None => ended_by(alloc, depth, place, name, tokens),
    }
}

/// A call of a system task, after its name.
#[tactic(auto, unfolding(crate::specs::Reading::called_by))]
fn called_by<'a>(
    alloc: Global,
    depth: u32,
    place: Place,
    name: &[u8],
    tokens: &'a [Token],
) -> Read<'a, Task>
    requires { depth ≤ 200 }
    ensures value { Gives (λ x. (x.0, x.1, x.2.now)) result (called_by (expr_at depth) place name.now tokens.now) }
    ensures small { IfOk result (λ x. x.1 ≤ depth) }
{
    match show_of(name) {
        Some(task) => show_from(alloc, depth, place, task, tokens),
        None => saved_by(alloc, depth, place, name, tokens),
    }
}

/// A call that begins with a token, of which the tokens after it are given.
fn task_by<'a>(alloc: Global, depth: u32, first: &Token, rest: &'a [Token]) -> Read<'a, Task>
    requires { depth ≤ 200 }
    ensures value { Gives (λ x. (x.0, x.1, x.2.now)) result (task_by (expr_at depth) first.now.kind first.now.place rest.now) }
    ensures small { IfOk result (λ x. x.1 ≤ depth) }
{
    match &first.kind {
        TokenKind::System(text) => called_by(alloc, depth, first.place, text.bytes(), rest),
        TokenKind::Name(_)
        | TokenKind::Word(_)
        | TokenKind::Sign(_)
        | TokenKind::Number(_)
        | TokenKind::Quoted(_) => Err(Stop::Unexpected(rest.len() + 1)),
    }
}

/// The call of a system task at the front (clause 17; Annex C.8), without its `;`. The expressions in it have that depth at most.
/// `Unexpected` tells where it was seen that none is there.
#[tactic(auto, unfolding(crate::specs::Reading::task_at))]
pub fn task<'a>(alloc: Global, depth: u32, tokens: &'a [Token]) -> Read<'a, Task>
    requires { depth ≤ 200 }
    ensures value { Gives (λ x. (x.0, x.1, x.2.now)) result (task_at (expr_at depth) tokens.now) }
    ensures small { IfOk result (λ x. x.1 ≤ depth) }
{
    match tokens {
        [first, rest @ ..] => task_by(alloc, depth, first, rest),
        [] => Err(Stop::Unexpected(0)),
    }
}
