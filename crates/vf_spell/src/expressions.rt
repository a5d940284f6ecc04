//! Expressions as text.

use crate::spelling::{DEEP, Spelling};
use vf_base::Memory;
use vf_fours::{BinaryOp, UnaryOp};
use vf_tree::{ExprForm, PrimaryForm, Select, SelectForm, SignCall, TreeExpr};

fn unary_text(op: UnaryOp) -> &'static [u8] {
    match op {
        UnaryOp::Plus => b"+",
        UnaryOp::Minus => b"-",
        UnaryOp::LogicalNot => b"!",
        UnaryOp::BitNot => b"~",
        UnaryOp::ReduceAnd => b"&",
        UnaryOp::ReduceNand => b"~&",
        UnaryOp::ReduceOr => b"|",
        UnaryOp::ReduceNor => b"~|",
        UnaryOp::ReduceXor => b"^",
        UnaryOp::ReduceXnor => b"~^",
    }
}

fn binary_text(op: BinaryOp) -> &'static [u8] {
    match op {
        BinaryOp::LogicalOr => b"||",
        BinaryOp::LogicalAnd => b"&&",
        BinaryOp::BitOr => b"|",
        BinaryOp::BitXor => b"^",
        BinaryOp::BitXnor => b"~^",
        BinaryOp::BitAnd => b"&",
        BinaryOp::Equal => b"==",
        BinaryOp::NotEqual => b"!=",
        BinaryOp::CaseEqual => b"===",
        BinaryOp::CaseNotEqual => b"!==",
        BinaryOp::Less => b"<",
        BinaryOp::LessEqual => b"<=",
        BinaryOp::Greater => b">",
        BinaryOp::GreaterEqual => b">=",
        BinaryOp::ShiftLeft => b"<<",
        BinaryOp::ShiftRight => b">>",
        BinaryOp::ArithmeticShiftLeft => b"<<<",
        BinaryOp::ArithmeticShiftRight => b">>>",
        BinaryOp::Add => b"+",
        BinaryOp::Subtract => b"-",
        BinaryOp::Multiply => b"*",
        BinaryOp::Divide => b"/",
        BinaryOp::Remainder => b"%",
    }
}

/// Two expressions with a sign between them.
#[cycle(spelling)]
fn spell_pair(
    depth: u32,
    left: &TreeExpr,
    sign: &[u8],
    right: &TreeExpr,
    into: &mut Spelling,
) -> Result<(), Memory> {
    spell_within(depth, left, into)?;
    into.text(sign)?;
    spell_within(depth, right, into)
}

#[cycle(spelling)]
fn spell_select_within(depth: u32, select: &Select, into: &mut Spelling) -> Result<(), Memory> {
    into.place(select.place)?;
    into.text(b"[")?;
    match &select.form {
        SelectForm::One(index) => spell_within(depth, index, into)?,
        SelectForm::Part { left, right } => spell_pair(depth, left, b":", right, into)?,
        SelectForm::Up { base, width } => spell_pair(depth, base, b"+:", width, into)?,
        SelectForm::Down { base, width } => spell_pair(depth, base, b"-:", width, into)?,
    }
    into.text(b"]")
}

/// The expressions with commas between them.
#[cycle(spelling)]
fn spell_all(depth: u32, trees: &[TreeExpr], into: &mut Spelling) -> Result<(), Memory> {
    let mut first = true;
    for tree in trees {
        if !first {
            into.text(b",")?;
        }
        first = false;
        spell_within(depth, tree, into)?;
    }
    Ok(())
}

#[cycle(spelling)]
fn spell_primary(depth: u32, form: &PrimaryForm, into: &mut Spelling) -> Result<(), Memory> {
    match form {
        PrimaryForm::Number(number) => into.number(number.value.ones()),
        PrimaryForm::Name { name, selects } => {
            into.text(name.text.bytes())?;
            for select in selects.as_slice() {
                spell_select_within(depth, select, into)?;
            }
            Ok(())
        }
        PrimaryForm::Paren(of) => {
            into.text(b"<")?;
            spell_within(depth, of, into)?;
            into.text(b">")
        }
        PrimaryForm::Concat(parts) => {
            into.text(b"{")?;
            spell_all(depth, parts.as_slice(), into)?;
            into.text(b"}")
        }
        PrimaryForm::Repeat { count, parts } => {
            into.text(b"{")?;
            spell_within(depth, count, into)?;
            into.text(b"{")?;
            spell_all(depth, parts.as_slice(), into)?;
            into.text(b"}}")
        }
        PrimaryForm::Time => into.text(b"$time"),
        PrimaryForm::Feof(of) => {
            into.text(b"$feof(")?;
            spell_within(depth, of, into)?;
            into.text(b")")
        }
        PrimaryForm::Sign { call, of } => {
            into.text(sign_text(*call))?;
            spell_within(depth, of, into)?;
            into.text(b")")
        }
    }
}

fn sign_text(call: SignCall) -> &'static [u8] {
    match call {
        SignCall::Signed => b"$signed(",
        SignCall::Unsigned => b"$unsigned(",
    }
}

#[cycle(spelling)]
fn spell_form(depth: u32, form: &ExprForm, into: &mut Spelling) -> Result<(), Memory> {
    match form {
        ExprForm::Plain(primary) => {
            into.place(primary.place)?;
            return spell_primary(depth, &primary.form, into);
        }
        ExprForm::One { op, of } => {
            into.text(b"(")?;
            into.text(unary_text(*op))?;
            spell_within(depth, of, into)?;
        }
        ExprForm::Two { op, left, right } => {
            into.text(b"(")?;
            spell_pair(depth, left, binary_text(*op), right, into)?;
        }
        ExprForm::Pick { cond, yes, no } => {
            into.text(b"(")?;
            spell_pair(depth, cond, b"?", yes, into)?;
            into.text(b":")?;
            spell_within(depth, no, into)?;
        }
    }
    into.text(b")")
}

/// Writes an expression of at most so many levels; what is deeper is left out.
#[cycle(spelling)]
fn spell_within(depth: u32, tree: &TreeExpr, into: &mut Spelling) -> Result<(), Memory> {
    if depth == 0 {
        return Ok(());
    }
    into.place(tree.place)?;
    spell_form(depth - 1, tree.form.get(), into)
}

/// Writes an expression: an operator with its operands in parentheses, and parentheses of the source as `<` and `>`.
pub fn spell_expression(tree: &TreeExpr, into: &mut Spelling) -> Result<(), Memory> {
    spell_within(DEEP, tree, into)
}

/// Writes selects, one after the other.
pub fn spell_selects(selects: &[Select], into: &mut Spelling) -> Result<(), Memory> {
    for select in selects {
        spell_select_within(DEEP, select, into)?;
    }
    Ok(())
}

/// Writes expressions with commas between them.
pub fn spell_expressions(trees: &[TreeExpr], into: &mut Spelling) -> Result<(), Memory> {
    spell_all(DEEP, trees, into)
}
