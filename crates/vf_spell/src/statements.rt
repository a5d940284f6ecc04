//! Statements as text.

use crate::controls::{spell_delay, spell_events, spell_target, spell_task};
use crate::expressions::{spell_expression, spell_expressions};
use crate::spelling::{DEEP, Spelling};
use vf_base::Memory;
use vf_tree::{CaseWord, Citem, CitemForm, Delay, Name, Stmt, StmtForm, Target, TreeExpr};

fn spell_set(
    target: &Target,
    sign: &[u8],
    value: &TreeExpr,
    into: &mut Spelling,
) -> Result<(), Memory> {
    spell_target(target, into)?;
    into.text(sign)?;
    spell_expression(value, into)
}

fn spell_post(
    target: &Target,
    delay: Option<&Delay>,
    value: &TreeExpr,
    into: &mut Spelling,
) -> Result<(), Memory> {
    spell_target(target, into)?;
    into.text(b"<=")?;
    if let Some(delay) = delay {
        spell_delay(delay, into)?;
        into.text(b" ")?;
    }
    spell_expression(value, into)?;
    into.text(b";")
}

fn case_text(word: CaseWord) -> &'static [u8] {
    match word {
        CaseWord::Case => b"(case ",
        CaseWord::Casez => b"(casez ",
        CaseWord::Casex => b"(casex ",
    }
}

#[cycle(statements)]
fn spell_block(
    depth: u32,
    name: Option<&Name>,
    body: &[Stmt],
    into: &mut Spelling,
) -> Result<(), Memory> {
    into.text(b"begin")?;
    if let Some(name) = name {
        into.text(b":")?;
        into.name(name)?;
    }
    for stmt in body {
        into.text(b" ")?;
        spell_stmt(depth, stmt, into)?;
    }
    into.text(b" end")
}

/// A word, an expression and a statement.
#[cycle(statements)]
fn spell_guarded(
    depth: u32,
    word: &[u8],
    cond: &TreeExpr,
    body: &Stmt,
    into: &mut Spelling,
) -> Result<(), Memory> {
    into.text(word)?;
    spell_expression(cond, into)?;
    into.text(b" ")?;
    spell_stmt(depth, body, into)?;
    into.text(b")")
}

#[cycle(statements)]
fn spell_if(
    depth: u32,
    cond: &TreeExpr,
    yes: &Stmt,
    no: &Stmt,
    into: &mut Spelling,
) -> Result<(), Memory> {
    into.text(b"(if ")?;
    spell_expression(cond, into)?;
    into.text(b" ")?;
    spell_stmt(depth, yes, into)?;
    into.text(b" else ")?;
    spell_stmt(depth, no, into)?;
    into.text(b")")
}

#[cycle(statements)]
fn spell_citem(depth: u32, item: &Citem, into: &mut Spelling) -> Result<(), Memory> {
    into.text(b"|")?;
    into.place(item.place)?;
    match &item.form {
        CitemForm::Labels { labels, body } => {
            spell_expressions(labels.as_slice(), into)?;
            into.text(b":")?;
            spell_stmt(depth, body, into)
        }
        CitemForm::Default { colon: true, body } => {
            into.text(b"default:")?;
            spell_stmt(depth, body, into)
        }
        CitemForm::Default { colon: false, body } => {
            into.text(b"default ")?;
            spell_stmt(depth, body, into)
        }
    }
}

#[cycle(statements)]
fn spell_case(
    depth: u32,
    word: CaseWord,
    of: &TreeExpr,
    items: &[Citem],
    into: &mut Spelling,
) -> Result<(), Memory> {
    into.text(case_text(word))?;
    spell_expression(of, into)?;
    for item in items {
        spell_citem(depth, item, into)?;
    }
    into.text(b")")
}

/// A statement that has no statement in it, or only one with nothing but words before it.
#[cycle(statements)]
fn spell_simple(depth: u32, form: &StmtForm, into: &mut Spelling) -> Result<(), Memory> {
    match form {
        StmtForm::Assign { target, value } => {
            spell_set(target, b"=", value, into)?;
            into.text(b";")
        }
        StmtForm::Getc { target, descriptor } => {
            spell_set(target, b"=$fgetc(", descriptor, into)?;
            into.text(b");")
        }
        StmtForm::Post {
            target,
            delay,
            value,
        } => spell_post(target, delay.as_ref(), value, into),
        StmtForm::Forever(body) => {
            into.text(b"(forever ")?;
            spell_stmt(depth, body, into)?;
            into.text(b")")
        }
        StmtForm::Task(task) => {
            spell_task(task, into)?;
            into.text(b";")
        }
        _ => into.text(b";"),
    }
}

#[cycle(statements)]
fn spell_stmt_form(depth: u32, form: &StmtForm, into: &mut Spelling) -> Result<(), Memory> {
    match form {
        StmtForm::Block { name, body } => {
            spell_block(depth, name.as_ref(), body.as_slice(), into)
        }
        StmtForm::If { cond, yes, no } => match no {
            Some(no) => spell_if(depth, cond, yes, no, into),
            None => spell_guarded(depth, b"(if ", cond, yes, into),
        },
        StmtForm::Case { word, of, items } => {
            spell_case(depth, *word, of, items.as_slice(), into)
        }
        StmtForm::While { cond, body } => spell_guarded(depth, b"(while ", cond, body, into),
        StmtForm::Repeat { count, body } => spell_guarded(depth, b"(repeat ", count, body, into),
        StmtForm::Wait { cond, body } => spell_guarded(depth, b"(wait ", cond, body, into),
        StmtForm::For {
            start,
            first,
            cond,
            step,
            next,
            body,
        } => {
            into.text(b"(for ")?;
            spell_set(start, b"=", first, into)?;
            into.text(b";")?;
            spell_expression(cond, into)?;
            into.text(b";")?;
            spell_set(step, b"=", next, into)?;
            into.text(b" ")?;
            spell_stmt(depth, body, into)?;
            into.text(b")")
        }
        StmtForm::Delayed { delay, body } => {
            into.text(b"(")?;
            spell_delay(delay, into)?;
            into.text(b" ")?;
            spell_stmt(depth, body, into)?;
            into.text(b")")
        }
        StmtForm::On { events, body } => {
            into.text(b"(@")?;
            spell_events(events, into)?;
            into.text(b" ")?;
            spell_stmt(depth, body, into)?;
            into.text(b")")
        }
        simple => spell_simple(depth, simple, into),
    }
}

/// Writes a statement of at most so many levels; what is deeper is left out.
#[cycle(statements)]
fn spell_stmt(depth: u32, tree: &Stmt, into: &mut Spelling) -> Result<(), Memory> {
    if depth == 0 {
        return Ok(());
    }
    into.place(tree.place)?;
    spell_stmt_form(depth - 1, tree.form.get(), into)
}

/// Writes a statement. One with a statement in it is in parentheses, but for a block.
pub fn spell_statement(tree: &Stmt, into: &mut Spelling) -> Result<(), Memory> {
    spell_stmt(DEEP, tree, into)
}
