//! Statements without a statement in them. In this module `depth` is the greatest depth of the expressions in a statement.

ghost use Rattle.std.specs.Prelude.{◌≡◌, ◌+◌, ◌≤◌, Some, None, IfOk};
ghost use Rattle.vf_expression.specs.Reading.{Gives};
ghost use Rattle.vf_statement.specs.Reading.{made, assign_part_at, getc_from, value_from, blocking_from, late_at, nonblocking_from, assignment_at, call_at, for_head_at, for_form};

use crate::words::strip_system;
use sqlite_items::Boxed;
use std::alloc::Global;
use vf_base::Place;
use vf_control::{delay, target, task};
use vf_expression::{Read, after, argument, expr, strip};
use vf_lex::Token;
use vf_tree::{AssignPart, Delay, Stmt, StmtForm, Target, TreeExpr};

/// A statement at the place, 1 deeper than the deepest in it, and the tokens after it.
pub fn made<'a>(
    alloc: Global,
    place: Place,
    form: StmtForm,
    deep: u32,
    rest: &'a [Token],
) -> Read<'a, Stmt>
    requires { deep ≤ 200 }
    ensures value { Gives (λ x. (x.0, x.1, x.2.now)) result (made place form deep rest.now) }
    ensures small { IfOk result (λ x. x.1 ≡ deep + 1) }
{
    let form = Boxed::new(alloc, form)?;
    Ok((Stmt { place, form }, deep + 1, rest))
}

/// A target, `=` and an expression, as an assignment begins (clause 9.2.1) and a continuous one is (clause 6.1.2).
#[tactic(auto, unfolding(crate::specs::Reading::assign_part_at))]
pub fn assign_part<'a>(alloc: Global, depth: u32, tokens: &'a [Token]) -> Read<'a, AssignPart>
    requires { depth ≤ 200 }
    ensures value { Gives (λ x. (x.0, x.1, x.2.now)) result (assign_part_at depth tokens.now) }
    ensures small { IfOk result (λ x. x.1 ≤ depth) }
{
    let (target, deep, rest) = target(alloc, depth, tokens)?;
    let rest = after(b"=", rest)?;
    let (value, other, rest) = expr(alloc, depth, 1, rest)?;
    Ok((AssignPart { target, value }, deep.max(other), rest))
}

/// A blocking assignment after its `=` and `$fgetc` (clause 17.2.4.1).
#[tactic(auto, unfolding(crate::specs::Reading::getc_from))]
fn getc<'a>(
    alloc: Global,
    depth: u32,
    place: Place,
    target: Target,
    deep: u32,
    tokens: &'a [Token],
) -> Read<'a, Stmt>
    requires small { depth ≤ 200 }
    requires target_small { deep ≤ depth }
    ensures value { Gives (λ x. (x.0, x.1, x.2.now)) result (getc_from depth place target deep tokens.now) }
    ensures small { IfOk result (λ x. x.1 ≤ depth + 1) }
{
    let (descriptor, other, rest) = argument(alloc, depth, tokens)?;
    let rest = after(b";", rest)?;
    let form = StmtForm::Getc { target, descriptor };
    made(alloc, place, form, deep.max(other), rest)
}

/// A blocking assignment of an expression after its `=` (clause 9.2.1).
#[tactic(auto, unfolding(crate::specs::Reading::value_from))]
fn value<'a>(
    alloc: Global,
    depth: u32,
    place: Place,
    target: Target,
    deep: u32,
    tokens: &'a [Token],
) -> Read<'a, Stmt>
    requires small { depth ≤ 200 }
    requires target_small { deep ≤ depth }
    ensures value { Gives (λ x. (x.0, x.1, x.2.now)) result (value_from depth place target deep tokens.now) }
    ensures small { IfOk result (λ x. x.1 ≤ depth + 1) }
{
    let (value, other, rest) = expr(alloc, depth, 1, tokens)?;
    let rest = after(b";", rest)?;
    let form = StmtForm::Assign { target, value };
    made(alloc, place, form, deep.max(other), rest)
}

/// A blocking assignment after its `=`.
#[tactic(auto, unfolding(crate::specs::Reading::blocking_from))]
fn blocking<'a>(
    alloc: Global,
    depth: u32,
    place: Place,
    target: Target,
    deep: u32,
    tokens: &'a [Token],
) -> Read<'a, Stmt>
    requires small { depth ≤ 200 }
    requires target_small { deep ≤ depth }
    ensures value { Gives (λ x. (x.0, x.1, x.2.now)) result (blocking_from depth place target deep tokens.now) }
    ensures small { IfOk result (λ x. x.1 ≤ depth + 1) }
{
    match strip_system(b"$fgetc", tokens) {
        Some(rest) => getc(alloc, depth, place, target, deep, rest),
        None => value(alloc, depth, place, target, deep, tokens),
    }
}

/// The delay in front, where there is one.
#[tactic(auto, unfolding(crate::specs::Reading::late_at))]
fn late<'a>(alloc: Global, depth: u32, tokens: &'a [Token]) -> Read<'a, Option<Delay>>
    requires { depth ≤ 200 }
    ensures value { Gives (λ x. (x.0, x.1, x.2.now)) result (late_at depth tokens.now) }
    ensures small { IfOk result (λ x. x.1 ≤ depth) }
{
    match strip(b"#", tokens) {
        Some(_) => {
            let (delay, deep, rest) = delay(alloc, depth, tokens)?;
            Ok((Some(delay), deep, rest))
        }
        None => Ok((None, 0, tokens)),
    }
}

/// A nonblocking assignment after its target (clause 9.2.2).
#[tactic(auto, unfolding(crate::specs::Reading::nonblocking_from))]
fn nonblocking<'a>(
    alloc: Global,
    depth: u32,
    place: Place,
    target: Target,
    deep: u32,
    tokens: &'a [Token],
) -> Read<'a, Stmt>
    requires small { depth ≤ 200 }
    requires target_small { deep ≤ depth }
    ensures value { Gives (λ x. (x.0, x.1, x.2.now)) result (nonblocking_from depth place target deep tokens.now) }
    ensures small { IfOk result (λ x. x.1 ≤ depth + 1) }
{
    let rest = after(b"<=", tokens)?;
    let (delay, other, rest) = late(alloc, depth, rest)?;
    let (value, another, rest) = expr(alloc, depth, 1, rest)?;
    let rest = after(b";", rest)?;
    let form = StmtForm::Post {
        target,
        delay,
        value,
    };
    made(alloc, place, form, deep.max(other.max(another)), rest)
}

/// An assignment (clause 9.2).
#[tactic(auto, unfolding(crate::specs::Reading::assignment_at))]
pub fn assignment<'a>(
    alloc: Global,
    depth: u32,
    place: Place,
    tokens: &'a [Token],
) -> Read<'a, Stmt>
    requires { depth ≤ 200 }
    ensures value { Gives (λ x. (x.0, x.1, x.2.now)) result (assignment_at depth place tokens.now) }
    ensures small { IfOk result (λ x. x.1 ≤ depth + 1) }
{
    let (target, deep, rest) = target(alloc, depth, tokens)?;
    match strip(b"=", rest) {
        Some(following) => blocking(alloc, depth, place, target, deep, following),
        None => nonblocking(alloc, depth, place, target, deep, rest),
    }
}

/// A call of a system task (clause 17).
#[tactic(auto, unfolding(crate::specs::Reading::call_at))]
pub fn call<'a>(alloc: Global, depth: u32, place: Place, tokens: &'a [Token]) -> Read<'a, Stmt>
    requires { depth ≤ 200 }
    ensures value { Gives (λ x. (x.0, x.1, x.2.now)) result (call_at depth place tokens.now) }
    ensures small { IfOk result (λ x. x.1 ≤ depth + 1) }
{
    let (task, deep, rest) = task(alloc, depth, tokens)?;
    let rest = after(b";", rest)?;
    made(alloc, place, StmtForm::Task(task), deep, rest)
}

/// What stands in the parentheses of a `for` (clause 9.6).
#[derive(Drop)]
pub struct ForHead {
    pub start: AssignPart,
    pub cond: TreeExpr,
    pub step: AssignPart,
}

/// The parentheses of a `for`.
#[tactic(auto, unfolding(crate::specs::Reading::for_head_at))]
pub fn for_head<'a>(alloc: Global, depth: u32, tokens: &'a [Token]) -> Read<'a, ForHead>
    requires { depth ≤ 200 }
    ensures value { Gives (λ x. (x.0, x.1, x.2.now)) result (for_head_at depth tokens.now) }
    ensures small { IfOk result (λ x. x.1 ≤ depth) }
{
    let rest = after(b"(", tokens)?;
    let (start, deep, rest) = assign_part(alloc, depth, rest)?;
    let rest = after(b";", rest)?;
    let (cond, other, rest) = expr(alloc, depth, 1, rest)?;
    let rest = after(b";", rest)?;
    let (step, another, rest) = assign_part(alloc, depth, rest)?;
    let rest = after(b")", rest)?;
    Ok((
        ForHead { start, cond, step },
        deep.max(other.max(another)),
        rest,
    ))
}

/// The form of a `for` with its statement.
pub fn for_form(head: ForHead, body: Stmt) -> StmtForm
    ensures { result ≡ for_form head body }
{
    StmtForm::For {
        start: head.start.target,
        first: head.start.value,
        cond: head.cond,
        step: head.step.target,
        next: head.step.value,
        body,
    }
}
