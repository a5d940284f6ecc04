//! The reader of expressions. In this module `depth` is the greatest depth of the expressions inside the one that is read.

ghost use Rattle.std.specs.Prelude.{◌≡◌, ◌+◌, ◌≤◌, Some, None, [], ◌∷◌, length, IfOk, OnSome};
ghost use Rattle.std.specs.Option.{option_map};
ghost use Rattle.vf_expression.specs.Grammar.{plain, one, two, pick};
ghost use Rattle.vf_expression.specs.Reading.{Gives, part_form, node, more_from, exprs_at, part_from, select_from, second_select, selects_at, named_at, closed_at, paren_at, argument_at, feof_at, sign_call_at, system_at, repeat_from, concat_from, braces_at, prefixed_at, opened_at, signed_at, operand_by, operand_at, link_at, chain_at, arms_at, pick_at, chained_at, expr_over, expr_at};

use crate::Stop;
use crate::levels::left_at;
use crate::signs::{after, level_of, opening, operator, part, same, strip, unary_of};
use sqlite_items::{Boxed, Items};
use std::alloc::Global;
use vf_base::{Place, Text};
use vf_fours::{BinaryOp, UnaryOp};
use vf_lex::{Token, TokenKind};
use vf_tree::{
    ExprForm, Name, Number, Primary, PrimaryForm, Select, SelectForm, SignCall, TreeExpr,
};

/// What was read, its depth, and the tokens after it.
pub type Read<'a, T> = Result<(T, u32, &'a [Token]), Stop>;

/// What stands between the two expressions of a select (clause 5.2.1).
#[derive(Clone, Copy, Debug, PartialEq, Eq)]
pub enum Part {
    Range,
    Up,
    Down,
}

fn part_form(part: Part, left: TreeExpr, right: TreeExpr) -> SelectForm
    ensures { result ≡ part_form part left right }
{
    match part {
        Part::Range => SelectForm::Part { left, right },
        Part::Up => SelectForm::Up {
            base: left,
            width: right,
        },
        Part::Down => SelectForm::Down {
            base: left,
            width: right,
        },
    }
}

/// An expression that is an operand alone.
fn plain(alloc: Global, place: Place, form: PrimaryForm) -> Result<TreeExpr, Stop>
    ensures { Gives (λ tree. tree) result (Some (plain place form)) }
{
    let form = Boxed::new(alloc, ExprForm::Plain(Primary { place, form }))?;
    Ok(TreeExpr { place, form })
}

fn one(alloc: Global, place: Place, op: UnaryOp, of: TreeExpr) -> Result<TreeExpr, Stop>
    ensures { Gives (λ tree. tree) result (Some (one place op of)) }
{
    let form = Boxed::new(alloc, ExprForm::One { op, of })?;
    Ok(TreeExpr { place, form })
}

fn two(alloc: Global, op: BinaryOp, left: TreeExpr, right: TreeExpr) -> Result<TreeExpr, Stop>
    ensures { Gives (λ tree. tree) result (Some (two op left right)) }
{
    let place = left.place;
    let form = Boxed::new(alloc, ExprForm::Two { op, left, right })?;
    Ok(TreeExpr { place, form })
}

fn pick(alloc: Global, cond: TreeExpr, yes: TreeExpr, no: TreeExpr) -> Result<TreeExpr, Stop>
    ensures { Gives (λ tree. tree) result (Some (pick cond yes no)) }
{
    let place = cond.place;
    let form = Boxed::new(alloc, ExprForm::Pick { cond, yes, no })?;
    Ok(TreeExpr { place, form })
}

/// A tree of that depth, where it is not too deep.
#[tactic(auto, unfolding(crate::specs::Reading::node))]
fn node(depth: u32, tree: TreeExpr, deep: u32, rest: &[Token]) -> Read<'_, TreeExpr>
    requires { depth ≤ 200 }
    ensures value { Gives (λ x. (x.0, x.1, x.2.now)) result (node depth tree deep rest.now) }
    ensures small { IfOk result (λ x. x.1 ≤ depth + 1) }
{
    if deep > depth + 1 {
        return Err(Stop::Unexpected(rest.len()));
    }
    Ok((tree, deep, rest))
}

/// The further expressions, each after a comma.
#[cycle(expressions)]
#[tactic(auto, unfolding(crate::specs::Reading::more_from))]
fn more<'a>(
    alloc: Global,
    depth: u32,
    first: TreeExpr,
    deep: u32,
    tokens: &'a [Token],
) -> Read<'a, Items<TreeExpr>>
    requires small { depth ≤ 200 }
    requires first_small { deep ≤ depth }
    ensures value { Gives (λ x. (x.0, x.1, x.2.now)) result (more_from (expr_at depth) (length tokens.now) (first ∷ []) deep tokens.now) }
    ensures small { IfOk result (λ x. x.1 ≤ depth) }
{
    let mut items = Items::new(alloc);
    items.push(first)?;
    let mut deepest = deep;
    let mut rest = tokens;
    for _ in 0..tokens.len() {
        let Some(next) = strip(b",", rest) else {
            return Ok((items, deepest, rest));
        };
        let (item, deep, following) = expr(alloc, depth, 1, next)?;
        items.push(item)?;
        deepest = deepest.max(deep);
        rest = following;
    }
    Ok((items, deepest, rest))
}

/// Expressions with commas between them.
#[cycle(expressions)]
#[tactic(auto, unfolding(crate::specs::Reading::exprs_at))]
pub fn exprs<'a>(alloc: Global, depth: u32, tokens: &'a [Token]) -> Read<'a, Items<TreeExpr>>
    requires { depth ≤ 200 }
    ensures value { Gives (λ x. (x.0, x.1, x.2.now)) result (exprs_at (expr_at depth) tokens.now) }
    ensures small { IfOk result (λ x. x.1 ≤ depth) }
{
    let (first, deep, rest) = expr(alloc, depth, 1, tokens)?;
    more(alloc, depth, first, deep, rest)
}

/// The rest of a select of two expressions.
#[cycle(expressions)]
#[tactic(auto, unfolding(crate::specs::Reading::part_from))]
fn part_select<'a>(
    alloc: Global,
    depth: u32,
    place: Place,
    left: TreeExpr,
    deep: u32,
    tokens: &'a [Token],
) -> Read<'a, Select>
    requires small { depth ≤ 200 }
    requires first_small { deep ≤ depth }
    ensures value { Gives (λ x. (x.0, x.1, x.2.now)) result (part_from (expr_at depth) place left deep tokens.now) }
    ensures small { IfOk result (λ x. x.1 ≤ depth) }
{
    let (part, rest) = part(tokens)?;
    let (right, other, rest) = expr(alloc, depth, 1, rest)?;
    let rest = after(b"]", rest)?;
    let form = part_form(part, left, right);
    Ok((Select { place, form }, deep.max(other), rest))
}

/// A select after its `[`.
#[cycle(expressions)]
#[tactic(auto, unfolding(crate::specs::Reading::select_from))]
fn select<'a>(alloc: Global, depth: u32, place: Place, tokens: &'a [Token]) -> Read<'a, Select>
    requires { depth ≤ 200 }
    ensures value { Gives (λ x. (x.0, x.1, x.2.now)) result (select_from (expr_at depth) place tokens.now) }
    ensures small { IfOk result (λ x. x.1 ≤ depth) }
{
    let (index, deep, rest) = expr(alloc, depth, 1, tokens)?;
    match strip(b"]", rest) {
        Some(rest) => {
            let form = SelectForm::One(index);
            Ok((Select { place, form }, deep, rest))
        }
        None => part_select(alloc, depth, place, index, deep, rest),
    }
}

/// A second select, where one stands in front.
#[cycle(expressions)]
#[tactic(auto, unfolding(crate::specs::Reading::second_select))]
fn second_select<'a>(
    alloc: Global,
    depth: u32,
    first: Select,
    deep: u32,
    tokens: &'a [Token],
) -> Read<'a, Items<Select>>
    requires small { depth ≤ 200 }
    requires first_small { deep ≤ depth }
    ensures value { Gives (λ x. (x.0, x.1, x.2.now)) result (second_select (expr_at depth) first deep tokens.now) }
    ensures small { IfOk result (λ x. x.1 ≤ depth) }
{
    let mut items = Items::new(alloc);
    items.push(first)?;
    match opening(tokens) {
        None => Ok((items, deep, tokens)),
        Some((place, rest)) => {
            let (second, other, rest) = select(alloc, depth, place, rest)?;
            items.push(second)?;
            Ok((items, deep.max(other), rest))
        }
    }
}

/// The selects in front, two at most.
#[cycle(expressions)]
#[tactic(auto, unfolding(crate::specs::Reading::selects_at))]
pub fn selects<'a>(alloc: Global, depth: u32, tokens: &'a [Token]) -> Read<'a, Items<Select>>
    requires { depth ≤ 200 }
    ensures value { Gives (λ x. (x.0, x.1, x.2.now)) result (selects_at (expr_at depth) tokens.now) }
    ensures small { IfOk result (λ x. x.1 ≤ depth) }
{
    match opening(tokens) {
        None => Ok((Items::new(alloc), 0, tokens)),
        Some((place, rest)) => {
            let (first, deep, rest) = select(alloc, depth, place, rest)?;
            second_select(alloc, depth, first, deep, rest)
        }
    }
}

/// A name and its selects.
#[cycle(expressions)]
#[tactic(auto, unfolding(crate::specs::Reading::named_at))]
fn named<'a>(
    alloc: Global,
    depth: u32,
    place: Place,
    text: &Text,
    tokens: &'a [Token],
) -> Read<'a, TreeExpr>
    requires { depth ≤ 200 }
    ensures value { Gives (λ x. (x.0, x.1, x.2.now)) result (named_at (expr_at depth) depth place text.now tokens.now) }
    ensures small { IfOk result (λ x. x.1 ≤ depth + 1) }
{
    let (selects, deep, rest) = selects(alloc, depth, tokens)?;
    let name = Name {
        text: text.copy()?,
        place,
    };
    let tree = plain(alloc, place, PrimaryForm::Name { name, selects })?;
    node(depth, tree, deep + 1, rest)
}

/// An expression in parentheses, after its `(`.
#[cycle(expressions)]
#[tactic(auto, unfolding(crate::specs::Reading::closed_at))]
pub fn closed<'a>(alloc: Global, depth: u32, tokens: &'a [Token]) -> Read<'a, TreeExpr>
    requires { depth ≤ 200 }
    ensures value { Gives (λ x. (x.0, x.1, x.2.now)) result (closed_at (expr_at depth) tokens.now) }
    ensures small { IfOk result (λ x. x.1 ≤ depth) }
{
    let (tree, deep, rest) = expr(alloc, depth, 1, tokens)?;
    let rest = after(b")", rest)?;
    Ok((tree, deep, rest))
}

#[cycle(expressions)]
#[tactic(auto, unfolding(crate::specs::Reading::paren_at))]
fn paren<'a>(alloc: Global, depth: u32, place: Place, tokens: &'a [Token]) -> Read<'a, TreeExpr>
    requires { depth ≤ 200 }
    ensures value { Gives (λ x. (x.0, x.1, x.2.now)) result (paren_at (expr_at depth) depth place tokens.now) }
    ensures small { IfOk result (λ x. x.1 ≤ depth + 1) }
{
    let (of, deep, rest) = closed(alloc, depth, tokens)?;
    let tree = plain(alloc, place, PrimaryForm::Paren(of))?;
    node(depth, tree, deep + 1, rest)
}

/// The argument of a system function, with its parentheses.
#[cycle(expressions)]
#[tactic(auto, unfolding(crate::specs::Reading::argument_at))]
pub fn argument<'a>(alloc: Global, depth: u32, tokens: &'a [Token]) -> Read<'a, TreeExpr>
    requires { depth ≤ 200 }
    ensures value { Gives (λ x. (x.0, x.1, x.2.now)) result (argument_at (expr_at depth) tokens.now) }
    ensures small { IfOk result (λ x. x.1 ≤ depth) }
{
    let rest = after(b"(", tokens)?;
    closed(alloc, depth, rest)
}

#[cycle(expressions)]
#[tactic(auto, unfolding(crate::specs::Reading::feof_at))]
fn feof<'a>(alloc: Global, depth: u32, place: Place, tokens: &'a [Token]) -> Read<'a, TreeExpr>
    requires { depth ≤ 200 }
    ensures value { Gives (λ x. (x.0, x.1, x.2.now)) result (feof_at (expr_at depth) depth place tokens.now) }
    ensures small { IfOk result (λ x. x.1 ≤ depth + 1) }
{
    let (of, deep, rest) = argument(alloc, depth, tokens)?;
    let tree = plain(alloc, place, PrimaryForm::Feof(of))?;
    node(depth, tree, deep + 1, rest)
}

#[cycle(expressions)]
#[tactic(auto, unfolding(crate::specs::Reading::sign_call_at))]
fn sign_call<'a>(
    alloc: Global,
    depth: u32,
    place: Place,
    call: SignCall,
    tokens: &'a [Token],
) -> Read<'a, TreeExpr>
    requires { depth ≤ 200 }
    ensures value { Gives (λ x. (x.0, x.1, x.2.now)) result (sign_call_at (expr_at depth) depth place call tokens.now) }
    ensures small { IfOk result (λ x. x.1 ≤ depth + 1) }
{
    let (of, deep, rest) = argument(alloc, depth, tokens)?;
    let tree = plain(alloc, place, PrimaryForm::Sign { call, of })?;
    node(depth, tree, deep + 1, rest)
}

/// A call of a system function.
#[cycle(expressions)]
#[tactic(auto, unfolding(crate::specs::Reading::system_at))]
fn system<'a>(
    alloc: Global,
    depth: u32,
    place: Place,
    text: &Text,
    tokens: &'a [Token],
) -> Read<'a, TreeExpr>
    requires { depth ≤ 200 }
    ensures value { Gives (λ x. (x.0, x.1, x.2.now)) result (system_at (expr_at depth) depth place text.now tokens.now) }
    ensures small { IfOk result (λ x. x.1 ≤ depth + 1) }
{
    let text = text.bytes();
    if same(text, b"$time") {
        let tree = plain(alloc, place, PrimaryForm::Time)?;
        return node(depth, tree, 1, tokens);
    }
    if same(text, b"$feof") {
        return feof(alloc, depth, place, tokens);
    }
    if same(text, b"$signed") {
        return sign_call(alloc, depth, place, SignCall::Signed, tokens);
    }
    if same(text, b"$unsigned") {
        return sign_call(alloc, depth, place, SignCall::Unsigned, tokens);
    }
    Err(Stop::Unexpected(tokens.len() + 1))
}

/// A replication after its count and the second `{`.
#[cycle(expressions)]
#[tactic(auto, unfolding(crate::specs::Reading::repeat_from))]
fn repeat<'a>(
    alloc: Global,
    depth: u32,
    place: Place,
    count: TreeExpr,
    deep: u32,
    tokens: &'a [Token],
) -> Read<'a, TreeExpr>
    requires small { depth ≤ 200 }
    requires first_small { deep ≤ depth }
    ensures value { Gives (λ x. (x.0, x.1, x.2.now)) result (repeat_from (expr_at depth) depth place count deep tokens.now) }
    ensures small { IfOk result (λ x. x.1 ≤ depth + 1) }
{
    let (parts, other, rest) = exprs(alloc, depth, tokens)?;
    let rest = after(b"}", rest)?;
    let rest = after(b"}", rest)?;
    let tree = plain(alloc, place, PrimaryForm::Repeat { count, parts })?;
    node(depth, tree, deep.max(other) + 1, rest)
}

/// A concatenation after its first part.
#[cycle(expressions)]
#[tactic(auto, unfolding(crate::specs::Reading::concat_from))]
fn concat<'a>(
    alloc: Global,
    depth: u32,
    place: Place,
    first: TreeExpr,
    deep: u32,
    tokens: &'a [Token],
) -> Read<'a, TreeExpr>
    requires small { depth ≤ 200 }
    requires first_small { deep ≤ depth }
    ensures value { Gives (λ x. (x.0, x.1, x.2.now)) result (concat_from (expr_at depth) depth place first deep tokens.now) }
    ensures small { IfOk result (λ x. x.1 ≤ depth + 1) }
{
    let (parts, deep, rest) = more(alloc, depth, first, deep, tokens)?;
    let rest = after(b"}", rest)?;
    let tree = plain(alloc, place, PrimaryForm::Concat(parts))?;
    node(depth, tree, deep + 1, rest)
}

/// A concatenation or a replication after its `{`.
#[cycle(expressions)]
#[tactic(auto, unfolding(crate::specs::Reading::braces_at))]
fn braces<'a>(alloc: Global, depth: u32, place: Place, tokens: &'a [Token]) -> Read<'a, TreeExpr>
    requires { depth ≤ 200 }
    ensures value { Gives (λ x. (x.0, x.1, x.2.now)) result (braces_at (expr_at depth) depth place tokens.now) }
    ensures small { IfOk result (λ x. x.1 ≤ depth + 1) }
{
    let (first, deep, rest) = expr(alloc, depth, 1, tokens)?;
    match strip(b"{", rest) {
        Some(inside) => repeat(alloc, depth, place, first, deep, inside),
        None => concat(alloc, depth, place, first, deep, rest),
    }
}

/// A unary operator and its operand.
#[cycle(expressions)]
#[tactic(auto, unfolding(crate::specs::Reading::prefixed_at))]
fn prefixed<'a>(
    alloc: Global,
    depth: u32,
    place: Place,
    op: UnaryOp,
    tokens: &'a [Token],
) -> Read<'a, TreeExpr>
    requires { depth ≤ 200 }
    ensures value { Gives (λ x. (x.0, x.1, x.2.now)) result (prefixed_at (expr_at depth) depth place op tokens.now) }
    ensures small { IfOk result (λ x. x.1 ≤ depth + 1) }
{
    let (of, deep, rest) = expr(alloc, depth, 12, tokens)?;
    let tree = one(alloc, place, op, of)?;
    node(depth, tree, deep + 1, rest)
}

/// An operand that begins with a bracket.
#[cycle(expressions)]
#[tactic(auto, unfolding(crate::specs::Reading::opened_at))]
fn opened<'a>(
    alloc: Global,
    depth: u32,
    place: Place,
    sign: &[u8],
    tokens: &'a [Token],
) -> Read<'a, TreeExpr>
    requires { depth ≤ 200 }
    ensures value { Gives (λ x. (x.0, x.1, x.2.now)) result (opened_at (expr_at depth) depth place sign.now tokens.now) }
    ensures small { IfOk result (λ x. x.1 ≤ depth + 1) }
{
    if same(sign, b"(") {
        return paren(alloc, depth, place, tokens);
    }
    if same(sign, b"{") {
        return braces(alloc, depth, place, tokens);
    }
    Err(Stop::Unexpected(tokens.len() + 1))
}

/// An operand that begins with a sign.
#[cycle(expressions)]
#[tactic(auto, unfolding(crate::specs::Reading::signed_at))]
fn signed<'a>(
    alloc: Global,
    depth: u32,
    place: Place,
    sign: &[u8],
    tokens: &'a [Token],
) -> Read<'a, TreeExpr>
    requires { depth ≤ 200 }
    ensures value { Gives (λ x. (x.0, x.1, x.2.now)) result (signed_at (expr_at depth) depth place sign.now tokens.now) }
    ensures small { IfOk result (λ x. x.1 ≤ depth + 1) }
{
    match unary_of(sign) {
        Some(op) => prefixed(alloc, depth, place, op, tokens),
        None => opened(alloc, depth, place, sign, tokens),
    }
}

/// An operand that begins with a token, of which the tokens after it are given.
#[cycle(expressions)]
fn operand_by<'a>(alloc: Global, depth: u32, first: &Token, rest: &'a [Token]) -> Read<'a, TreeExpr>
    requires { depth ≤ 200 }
    ensures value { Gives (λ x. (x.0, x.1, x.2.now)) result (operand_by (expr_at depth) depth first.now.kind first.now.place rest.now) }
    ensures small { IfOk result (λ x. x.1 ≤ depth + 1) }
{
    let place = first.place;
    match &first.kind {
        TokenKind::Number(value) => {
            let number = Number {
                value: *value,
                place,
            };
            let tree = plain(alloc, place, PrimaryForm::Number(number))?;
            node(depth, tree, 1, rest)
        }
        TokenKind::Name(text) => named(alloc, depth, place, text, rest),
        TokenKind::System(text) => system(alloc, depth, place, text, rest),
        TokenKind::Sign(text) => signed(alloc, depth, place, text.bytes(), rest),
        TokenKind::Word(_) | TokenKind::Quoted(_) => Err(Stop::Unexpected(rest.len() + 1)),
    }
}

/// An operand with its unary operators.
#[cycle(expressions)]
#[tactic(auto, unfolding(crate::specs::Reading::operand_at))]
fn operand<'a>(alloc: Global, depth: u32, tokens: &'a [Token]) -> Read<'a, TreeExpr>
    requires { depth ≤ 200 }
    ensures value { Gives (λ x. (x.0, x.1, x.2.now)) result (operand_at (expr_at depth) depth tokens.now) }
    ensures small { IfOk result (λ x. x.1 ≤ depth + 1) }
{
    match tokens {
        [first, rest @ ..] => operand_by(alloc, depth, first, rest),
        [] => Err(Stop::Unexpected(0)),
    }
}

/// A binary operator with its right operand, after its left one, with which the tokens `whole` begin.
#[cycle(expressions)]
#[tactic(auto, unfolding(crate::specs::Reading::link_at), using(crate::proofs::Depth::link_never))]
fn link<'a>(
    alloc: Global,
    depth: u32,
    op: BinaryOp,
    left: TreeExpr,
    deep: u32,
    whole: &[Token],
    tokens: &'a [Token],
) -> Read<'a, TreeExpr>
    requires small { depth ≤ 200 }
    requires left_small { deep ≤ depth + 1 }
    ensures value { Gives (λ x. (x.0, x.1, x.2.now)) result (link_at (expr_at depth) depth op left deep tokens.now) }
    ensures small { IfOk result (λ x. x.1 ≤ depth + 1) }
{
    if deep > depth {
        return Err(Stop::Unexpected(left_at(depth, &left, whole)));
    }
    let (right, other, rest) = expr(alloc, depth, level_of(op) + 1, tokens)?;
    let tree = two(alloc, op, left, right)?;
    node(depth, tree, deep.max(other) + 1, rest)
}

/// The operators of the level or tighter that follow an operand, each with its right operand. Each makes the tree deeper. The
/// tokens `whole` begin with the operand.
#[cycle(expressions)]
#[tactic(auto, unfolding(crate::specs::Reading::chain_at))]
fn chain<'a>(
    alloc: Global,
    depth: u32,
    level: u32,
    first: TreeExpr,
    deep: u32,
    whole: &[Token],
    tokens: &'a [Token],
) -> Read<'a, TreeExpr>
    requires small { depth ≤ 200 }
    requires left_small { deep ≤ depth + 1 }
    ensures value { Gives (λ x. (x.0, x.1, x.2.now)) result (chain_at (expr_at depth) depth (depth + 1) level first deep tokens.now) }
    ensures small { IfOk result (λ x. x.1 ≤ depth + 1) }
{
    let mut left = first;
    let mut deepest = deep;
    let mut rest = tokens;
    for _ in 0..depth + 1 {
        let Some((op, following)) = operator(level, rest) else {
            return Ok((left, deepest, rest));
        };
        (left, deepest, rest) = link(alloc, depth, op, left, deepest, whole, following)?;
    }
    Err(Stop::Unexpected(tokens.len()))
}

/// The arms of a conditional expression, after its `?`. The tokens `whole` begin with its condition.
#[cycle(expressions)]
#[tactic(auto, unfolding(crate::specs::Reading::arms_at), using(crate::proofs::Depth::arms_never))]
fn arms<'a>(
    alloc: Global,
    depth: u32,
    cond: TreeExpr,
    deep: u32,
    whole: &[Token],
    tokens: &'a [Token],
) -> Read<'a, TreeExpr>
    requires small { depth ≤ 200 }
    requires cond_small { deep ≤ depth + 1 }
    ensures value { Gives (λ x. (x.0, x.1, x.2.now)) result (arms_at (expr_at depth) depth cond deep tokens.now) }
    ensures small { IfOk result (λ x. x.1 ≤ depth + 1) }
{
    if deep > depth {
        return Err(Stop::Unexpected(left_at(depth, &cond, whole)));
    }
    let (yes, other, rest) = expr(alloc, depth, 1, tokens)?;
    let rest = after(b":", rest)?;
    let (no, another, rest) = expr(alloc, depth, 1, rest)?;
    let tree = pick(alloc, cond, yes, no)?;
    node(depth, tree, deep.max(other.max(another)) + 1, rest)
}

/// The arms of a conditional expression, where a `?` follows its condition, with which the tokens `whole` begin.
#[cycle(expressions)]
#[tactic(auto, unfolding(crate::specs::Reading::pick_at))]
fn picked<'a>(
    alloc: Global,
    depth: u32,
    cond: TreeExpr,
    deep: u32,
    whole: &[Token],
    tokens: &'a [Token],
) -> Read<'a, TreeExpr>
    requires small { depth ≤ 200 }
    requires cond_small { deep ≤ depth + 1 }
    ensures value { Gives (λ x. (x.0, x.1, x.2.now)) result (pick_at (expr_at depth) depth cond deep tokens.now) }
    ensures small { IfOk result (λ x. x.1 ≤ depth + 1) }
{
    match strip(b"?", tokens) {
        Some(inside) => arms(alloc, depth, cond, deep, whole, inside),
        None => Ok((cond, deep, tokens)),
    }
}

/// Operands with binary operators between them.
#[cycle(expressions)]
#[tactic(auto, unfolding(crate::specs::Reading::chained_at))]
fn chained<'a>(alloc: Global, depth: u32, level: u32, tokens: &'a [Token]) -> Read<'a, TreeExpr>
    requires { depth ≤ 200 }
    ensures value { Gives (λ x. (x.0, x.1, x.2.now)) result (chained_at (expr_at depth) depth level tokens.now) }
    ensures small { IfOk result (λ x. x.1 ≤ depth + 1) }
{
    let (first, deep, rest) = operand(alloc, depth, tokens)?;
    chain(alloc, depth, level, first, deep, tokens, rest)
}

/// An expression of the level, of depth 1 more than `depth` at most.
#[cycle(expressions)]
#[tactic(auto, unfolding(crate::specs::Reading::expr_over))]
fn expr_over<'a>(alloc: Global, depth: u32, level: u32, tokens: &'a [Token]) -> Read<'a, TreeExpr>
    requires { depth ≤ 200 }
    ensures value { Gives (λ x. (x.0, x.1, x.2.now)) result (expr_over (expr_at depth) depth level tokens.now) }
    ensures small { IfOk result (λ x. x.1 ≤ depth + 1) }
{
    let (tree, deep, rest) = chained(alloc, depth, level, tokens)?;
    if level == 1 {
        return picked(alloc, depth, tree, deep, tokens, rest);
    }
    Ok((tree, deep, rest))
}

/// An expression of the level, of that depth at most.
#[cycle(expressions)]
#[tactic(auto, using(crate::proofs::Depth::expr_never, crate::proofs::Depth::expr_deeper))]
pub fn expr<'a>(alloc: Global, depth: u32, level: u32, tokens: &'a [Token]) -> Read<'a, TreeExpr>
    requires { depth ≤ 200 }
    ensures value { Gives (λ x. (x.0, x.1, x.2.now)) result (expr_at depth level tokens.now) }
    ensures small { IfOk result (λ x. x.1 ≤ depth) }
{
    if depth == 0 {
        return Err(Stop::Unexpected(tokens.len()));
    }
    expr_over(alloc, depth - 1, level, tokens)
}
