//! The reader of statements. In this module `depth` is the greatest depth of what stands directly in the statement that is read.

ghost use Rattle.std.specs.Prelude.{◌≡◌, ◌+◌, ◌≤◌, Some, None, [], ◌∷◌, length, Bool, IfOk, false};
ghost use Rattle.vf_expression.specs.Reading.{Gives};
ghost use Rattle.vf_statement.specs.Reading.{made, stmts_from, block_from, else_from, if_from, guarded_from, forever_from, for_from, delayed_at, on_from, default_from, labelled_at, citem_at, citems_from, citems_at, case_from, choice_by, stmt_by_word, stmt_by_sign, stmt_by, stmt_over, stmt_at};

use crate::simple::{assignment, call, for_form, for_head, made};
use crate::words::{Guard, case_of, guard_of, guarded, is_word, label, strip_word};
use sqlite_items::Items;
use std::alloc::Global;
use vf_base::Place;
use vf_control::{delay, events};
use vf_expression::{Read, Stop, after, argument, exprs, same, strip};
use vf_lex::{Token, TokenKind};
use vf_tree::{CaseWord, Citem, CitemForm, Stmt, StmtForm, TreeExpr};

/// An item of a `case`, whether a default was seen so far, its depth, and the tokens after it.
type ReadItem<'a> = Result<(Citem, bool, u32, &'a [Token]), Stop>;

/// The statements up to `end`, each of which takes at least one token.
#[cycle(statements)]
#[tactic(auto, unfolding(crate::specs::Reading::stmts_from))]
fn stmts<'a>(alloc: Global, depth: u32, tokens: &'a [Token]) -> Read<'a, Items<Stmt>>
    requires { depth ≤ 200 }
    ensures value { Gives (λ x. (x.0, x.1, x.2.now)) result (stmts_from depth (stmt_at depth) (length tokens.now) [] 0 tokens.now) }
    ensures small { IfOk result (λ x. x.1 ≤ depth) }
{
    let mut items = Items::new(alloc);
    let mut deepest = 0;
    let mut rest = tokens;
    for _ in 0..tokens.len() {
        if let Some(following) = strip_word(b"end", rest) {
            return Ok((items, deepest, following));
        }
        let (item, deep, following) = stmt(alloc, depth, rest)?;
        items.push(item)?;
        deepest = deepest.max(deep);
        rest = following;
    }
    Err(Stop::Unexpected(rest.len()))
}

/// A block after its `begin` (clause 9.8.1).
#[cycle(statements)]
#[tactic(auto, unfolding(crate::specs::Reading::block_from))]
fn block<'a>(alloc: Global, depth: u32, place: Place, tokens: &'a [Token]) -> Read<'a, Stmt>
    requires { depth ≤ 200 }
    ensures value { Gives (λ x. (x.0, x.1, x.2.now)) result (block_from depth (stmt_at depth) place tokens.now) }
    ensures small { IfOk result (λ x. x.1 ≤ depth + 1) }
{
    let (name, rest) = label(tokens)?;
    let (body, deep, rest) = stmts(alloc, depth, rest)?;
    made(alloc, place, StmtForm::Block { name, body }, deep, rest)
}

/// An `if` after its first statement.
#[cycle(statements)]
#[tactic(auto, unfolding(crate::specs::Reading::else_from))]
fn otherwise<'a>(
    alloc: Global,
    depth: u32,
    place: Place,
    cond: TreeExpr,
    first: Stmt,
    deep: u32,
    tokens: &'a [Token],
) -> Read<'a, Stmt>
    requires small { depth ≤ 200 }
    requires first_small { deep ≤ depth }
    ensures value { Gives (λ x. (x.0, x.1, x.2.now)) result (else_from depth (stmt_at depth) place cond first deep tokens.now) }
    ensures small { IfOk result (λ x. x.1 ≤ depth + 1) }
{
    match strip_word(b"else", tokens) {
        Some(inside) => {
            let (second, other, rest) = stmt(alloc, depth, inside)?;
            let form = StmtForm::If {
                cond,
                yes: first,
                no: Some(second),
            };
            made(alloc, place, form, deep.max(other), rest)
        }
        None => {
            let form = StmtForm::If {
                cond,
                yes: first,
                no: None,
            };
            made(alloc, place, form, deep, tokens)
        }
    }
}

/// A conditional statement after its `if` (clause 9.4).
#[cycle(statements)]
#[tactic(auto, unfolding(crate::specs::Reading::if_from))]
fn conditional<'a>(alloc: Global, depth: u32, place: Place, tokens: &'a [Token]) -> Read<'a, Stmt>
    requires { depth ≤ 200 }
    ensures value { Gives (λ x. (x.0, x.1, x.2.now)) result (if_from depth (stmt_at depth) place tokens.now) }
    ensures small { IfOk result (λ x. x.1 ≤ depth + 1) }
{
    let (cond, deep, rest) = argument(alloc, depth, tokens)?;
    let (first, other, rest) = stmt(alloc, depth, rest)?;
    otherwise(alloc, depth, place, cond, first, deep.max(other), rest)
}

/// A statement after an expression in parentheses, after the word before these.
#[cycle(statements)]
#[tactic(auto, unfolding(crate::specs::Reading::guarded_from))]
fn guarded_stmt<'a>(
    alloc: Global,
    depth: u32,
    place: Place,
    guard: Guard,
    tokens: &'a [Token],
) -> Read<'a, Stmt>
    requires { depth ≤ 200 }
    ensures value { Gives (λ x. (x.0, x.1, x.2.now)) result (guarded_from depth (stmt_at depth) place guard tokens.now) }
    ensures small { IfOk result (λ x. x.1 ≤ depth + 1) }
{
    let (cond, deep, rest) = argument(alloc, depth, tokens)?;
    let (body, other, rest) = stmt(alloc, depth, rest)?;
    let form = guarded(guard, cond, body);
    made(alloc, place, form, deep.max(other), rest)
}

/// A loop without an end, after its `forever` (clause 9.6).
#[cycle(statements)]
#[tactic(auto, unfolding(crate::specs::Reading::forever_from))]
fn forever<'a>(alloc: Global, depth: u32, place: Place, tokens: &'a [Token]) -> Read<'a, Stmt>
    requires { depth ≤ 200 }
    ensures value { Gives (λ x. (x.0, x.1, x.2.now)) result (forever_from depth (stmt_at depth) place tokens.now) }
    ensures small { IfOk result (λ x. x.1 ≤ depth + 1) }
{
    let (body, deep, rest) = stmt(alloc, depth, tokens)?;
    made(alloc, place, StmtForm::Forever(body), deep, rest)
}

/// A loop after its `for` (clause 9.6).
#[cycle(statements)]
#[tactic(auto, unfolding(crate::specs::Reading::for_from))]
fn for_stmt<'a>(alloc: Global, depth: u32, place: Place, tokens: &'a [Token]) -> Read<'a, Stmt>
    requires { depth ≤ 200 }
    ensures value { Gives (λ x. (x.0, x.1, x.2.now)) result (for_from depth (stmt_at depth) place tokens.now) }
    ensures small { IfOk result (λ x. x.1 ≤ depth + 1) }
{
    let (head, deep, rest) = for_head(alloc, depth, tokens)?;
    let (body, other, rest) = stmt(alloc, depth, rest)?;
    let form = for_form(head, body);
    made(alloc, place, form, deep.max(other), rest)
}

/// A statement after a delay (clause 9.7.1).
#[cycle(statements)]
#[tactic(auto, unfolding(crate::specs::Reading::delayed_at))]
fn delayed<'a>(alloc: Global, depth: u32, place: Place, tokens: &'a [Token]) -> Read<'a, Stmt>
    requires { depth ≤ 200 }
    ensures value { Gives (λ x. (x.0, x.1, x.2.now)) result (delayed_at depth (stmt_at depth) place tokens.now) }
    ensures small { IfOk result (λ x. x.1 ≤ depth + 1) }
{
    let (delay, deep, rest) = delay(alloc, depth, tokens)?;
    let (body, other, rest) = stmt(alloc, depth, rest)?;
    made(
        alloc,
        place,
        StmtForm::Delayed { delay, body },
        deep.max(other),
        rest,
    )
}

/// A statement after an event control, after its `@` (clause 9.7.2).
#[cycle(statements)]
#[tactic(auto, unfolding(crate::specs::Reading::on_from))]
fn on<'a>(alloc: Global, depth: u32, place: Place, tokens: &'a [Token]) -> Read<'a, Stmt>
    requires { depth ≤ 200 }
    ensures value { Gives (λ x. (x.0, x.1, x.2.now)) result (on_from depth (stmt_at depth) place tokens.now) }
    ensures small { IfOk result (λ x. x.1 ≤ depth + 1) }
{
    let (events, deep, rest) = events(alloc, depth, tokens)?;
    let (body, other, rest) = stmt(alloc, depth, rest)?;
    made(
        alloc,
        place,
        StmtForm::On { events, body },
        deep.max(other),
        rest,
    )
}

/// The default of a `case` after its word.
#[cycle(statements)]
#[tactic(auto, unfolding(crate::specs::Reading::default_from))]
fn default_item<'a>(alloc: Global, depth: u32, place: Place, tokens: &'a [Token]) -> ReadItem<'a>
    requires { depth ≤ 200 }
    ensures value { Gives (λ x. (x.0, x.1, x.2, x.3.now)) result (default_from depth (stmt_at depth) place tokens.now) }
    ensures small { IfOk result (λ x. x.2 ≤ depth) }
{
    match strip(b":", tokens) {
        Some(following) => {
            let (body, deep, rest) = stmt(alloc, depth, following)?;
            let form = CitemForm::Default { colon: true, body };
            Ok((Citem { place, form }, true, deep, rest))
        }
        None => {
            let (body, deep, rest) = stmt(alloc, depth, tokens)?;
            let form = CitemForm::Default { colon: false, body };
            Ok((Citem { place, form }, true, deep, rest))
        }
    }
}

/// An item of a `case` with its expressions.
#[cycle(statements)]
#[tactic(auto, unfolding(crate::specs::Reading::labelled_at))]
fn labelled<'a>(
    alloc: Global,
    depth: u32,
    place: Place,
    seen: bool,
    tokens: &'a [Token],
) -> ReadItem<'a>
    requires { depth ≤ 200 }
    ensures value { Gives (λ x. (x.0, x.1, x.2, x.3.now)) result (labelled_at depth (stmt_at depth) place seen tokens.now) }
    ensures small { IfOk result (λ x. x.2 ≤ depth) }
{
    let (labels, deep, rest) = exprs(alloc, depth, tokens)?;
    let rest = after(b":", rest)?;
    let (body, other, rest) = stmt(alloc, depth, rest)?;
    let form = CitemForm::Labels { labels, body };
    Ok((Citem { place, form }, seen, deep.max(other), rest))
}

/// An item of a `case`, which is no default where one was seen (clause 9.5).
#[cycle(statements)]
#[tactic(auto, unfolding(crate::specs::Reading::citem_at))]
fn citem<'a>(alloc: Global, depth: u32, seen: bool, tokens: &'a [Token]) -> ReadItem<'a>
    requires { depth ≤ 200 }
    ensures value { Gives (λ x. (x.0, x.1, x.2, x.3.now)) result (citem_at depth (stmt_at depth) seen tokens.now) }
    ensures small { IfOk result (λ x. x.2 ≤ depth) }
{
    match tokens {
        [first, rest @ ..] => {
            if is_word(b"default", &first.kind) {
                if seen {
                    return Err(Stop::Unexpected(tokens.len()));
                }
                return default_item(alloc, depth, first.place, rest);
            }
            labelled(alloc, depth, first.place, seen, tokens)
        }
        [] => Err(Stop::Unexpected(0)),
    }
}

/// The items of a `case` from the second one up to `endcase`, each of which takes at least one token.
#[cycle(statements)]
#[tactic(auto, unfolding(crate::specs::Reading::citems_from))]
fn more_citems<'a>(
    alloc: Global,
    depth: u32,
    first: Citem,
    default: bool,
    deep: u32,
    tokens: &'a [Token],
) -> Read<'a, Items<Citem>>
    requires small { depth ≤ 200 }
    requires first_small { deep ≤ depth }
    ensures value { Gives (λ x. (x.0, x.1, x.2.now)) result (citems_from depth (stmt_at depth) (length tokens.now) default (first ∷ []) deep tokens.now) }
    ensures small { IfOk result (λ x. x.1 ≤ depth) }
{
    let mut items = Items::new(alloc);
    items.push(first)?;
    let mut seen = default;
    let mut deepest = deep;
    let mut rest = tokens;
    for _ in 0..tokens.len() {
        if let Some(following) = strip_word(b"endcase", rest) {
            return Ok((items, deepest, following));
        }
        let (item, now, deep, following) = citem(alloc, depth, seen, rest)?;
        items.push(item)?;
        seen = now;
        deepest = deepest.max(deep);
        rest = following;
    }
    Err(Stop::Unexpected(rest.len()))
}

/// The items of a `case`, one or more, and its `endcase`.
#[cycle(statements)]
#[tactic(auto, unfolding(crate::specs::Reading::citems_at))]
fn citems<'a>(alloc: Global, depth: u32, tokens: &'a [Token]) -> Read<'a, Items<Citem>>
    requires { depth ≤ 200 }
    ensures value { Gives (λ x. (x.0, x.1, x.2.now)) result (citems_at depth (stmt_at depth) tokens.now) }
    ensures small { IfOk result (λ x. x.1 ≤ depth) }
{
    let (first, default, deep, rest) = citem(alloc, depth, false, tokens)?;
    more_citems(alloc, depth, first, default, deep, rest)
}

/// A `case` after its word (clause 9.5).
#[cycle(statements)]
#[tactic(auto, unfolding(crate::specs::Reading::case_from))]
fn case<'a>(
    alloc: Global,
    depth: u32,
    place: Place,
    word: CaseWord,
    tokens: &'a [Token],
) -> Read<'a, Stmt>
    requires { depth ≤ 200 }
    ensures value { Gives (λ x. (x.0, x.1, x.2.now)) result (case_from depth (stmt_at depth) place word tokens.now) }
    ensures small { IfOk result (λ x. x.1 ≤ depth + 1) }
{
    let (of, deep, rest) = argument(alloc, depth, tokens)?;
    let (items, other, rest) = citems(alloc, depth, rest)?;
    let form = StmtForm::Case { word, of, items };
    made(alloc, place, form, deep.max(other), rest)
}

/// A statement that begins with an expression in parentheses after a word.
#[cycle(statements)]
#[tactic(auto, unfolding(crate::specs::Reading::choice_by))]
fn choice<'a>(
    alloc: Global,
    depth: u32,
    place: Place,
    text: &[u8],
    rest: &'a [Token],
) -> Read<'a, Stmt>
    requires { depth ≤ 200 }
    ensures value { Gives (λ x. (x.0, x.1, x.2.now)) result (choice_by depth (stmt_at depth) place text.now rest.now) }
    ensures small { IfOk result (λ x. x.1 ≤ depth + 1) }
{
    match guard_of(text) {
        Some(guard) => guarded_stmt(alloc, depth, place, guard, rest),
        None => match case_of(text) {
            Some(word) => case(alloc, depth, place, word, rest),
            None => Err(Stop::Unexpected(rest.len() + 1)),
        },
    }
}

/// A statement that begins with a reserved word.
#[cycle(statements)]
#[tactic(auto, unfolding(crate::specs::Reading::stmt_by_word))]
fn by_word<'a>(
    alloc: Global,
    depth: u32,
    place: Place,
    text: &[u8],
    rest: &'a [Token],
) -> Read<'a, Stmt>
    requires { depth ≤ 200 }
    ensures value { Gives (λ x. (x.0, x.1, x.2.now)) result (stmt_by_word depth (stmt_at depth) place text.now rest.now) }
    ensures small { IfOk result (λ x. x.1 ≤ depth + 1) }
{
    if same(text, b"begin") {
        return block(alloc, depth, place, rest);
    }
    if same(text, b"if") {
        return conditional(alloc, depth, place, rest);
    }
    if same(text, b"forever") {
        return forever(alloc, depth, place, rest);
    }
    if same(text, b"for") {
        return for_stmt(alloc, depth, place, rest);
    }
    choice(alloc, depth, place, text, rest)
}

/// A statement that begins with a sign.
#[cycle(statements)]
#[tactic(auto, unfolding(crate::specs::Reading::stmt_by_sign))]
fn by_sign<'a>(
    alloc: Global,
    depth: u32,
    place: Place,
    text: &[u8],
    tokens: &'a [Token],
    rest: &'a [Token],
) -> Read<'a, Stmt>
    requires { depth ≤ 200 }
    ensures value { Gives (λ x. (x.0, x.1, x.2.now)) result (stmt_by_sign depth (stmt_at depth) place text.now tokens.now rest.now) }
    ensures small { IfOk result (λ x. x.1 ≤ depth + 1) }
{
    if same(text, b";") {
        return made(alloc, place, StmtForm::Empty, 0, rest);
    }
    if same(text, b"{") {
        return assignment(alloc, depth, place, tokens);
    }
    if same(text, b"#") {
        return delayed(alloc, depth, place, tokens);
    }
    if same(text, b"@") {
        return on(alloc, depth, place, rest);
    }
    Err(Stop::Unexpected(tokens.len()))
}

/// A statement that begins with a token, of which the tokens after it are given too.
#[cycle(statements)]
fn stmt_by<'a>(
    alloc: Global,
    depth: u32,
    first: &Token,
    tokens: &'a [Token],
    rest: &'a [Token],
) -> Read<'a, Stmt>
    requires { depth ≤ 200 }
    ensures value { Gives (λ x. (x.0, x.1, x.2.now)) result (stmt_by depth (stmt_at depth) first.now.kind first.now.place tokens.now rest.now) }
    ensures small { IfOk result (λ x. x.1 ≤ depth + 1) }
{
    let place = first.place;
    match &first.kind {
        TokenKind::Word(text) => by_word(alloc, depth, place, text.bytes(), rest),
        TokenKind::Sign(text) => by_sign(alloc, depth, place, text.bytes(), tokens, rest),
        TokenKind::Name(_) => assignment(alloc, depth, place, tokens),
        TokenKind::System(_) => call(alloc, depth, place, tokens),
        TokenKind::Number(_) | TokenKind::Quoted(_) => Err(Stop::Unexpected(tokens.len())),
    }
}

/// A statement, of depth 1 more than `depth` at most.
#[cycle(statements)]
#[tactic(auto, unfolding(crate::specs::Reading::stmt_over))]
fn stmt_over<'a>(alloc: Global, depth: u32, tokens: &'a [Token]) -> Read<'a, Stmt>
    requires { depth ≤ 200 }
    ensures value { Gives (λ x. (x.0, x.1, x.2.now)) result (stmt_over depth (stmt_at depth) tokens.now) }
    ensures small { IfOk result (λ x. x.1 ≤ depth + 1) }
{
    match tokens {
        [first, rest @ ..] => stmt_by(alloc, depth, first, tokens, rest),
        [] => Err(Stop::Unexpected(0)),
    }
}

/// A statement of that depth at most, at the front of the tokens (clause 9; Annex A.6.4). `Unexpected` comes exactly where no
/// statement stands there; an `else` after an `if` is taken as part of it.
#[cycle(statements)]
#[tactic(auto, using(crate::proofs::Depth::stmt_never, crate::proofs::Depth::stmt_deeper))]
pub fn stmt<'a>(alloc: Global, depth: u32, tokens: &'a [Token]) -> Read<'a, Stmt>
    requires { depth ≤ 200 }
    ensures value { Gives (λ x. (x.0, x.1, x.2.now)) result (stmt_at depth tokens.now) }
    ensures small { IfOk result (λ x. x.1 ≤ depth) }
{
    if depth == 0 {
        return Err(Stop::Unexpected(tokens.len()));
    }
    stmt_over(alloc, depth - 1, tokens)
}
