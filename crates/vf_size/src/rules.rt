//! The rules for sizes and signs (IEEE Std 1364-2005, clauses 5.4 and 5.5).
ghost use Rattle.std.specs.Prelude.{◌≡◌, ◌≤◌, ◌+◌, true, false, length, if◌then◌else◌, IfSome};
ghost use Rattle.std.specs.Option.{option_and_then};
ghost use Rattle.vf_fours.specs.Numbers.{i128_of, u128_of};
ghost use Rattle.vf_fours.specs.Choices as choices;
ghost use Rattle.vf_fours.specs.Choices.{unary_of, binary_of};
ghost use Rattle.vf_size.specs.Rules.{unary_size, binary_size, unary_made, binary_made, operand_at, left_at, right_at, marked_by, capped, joined, natural, times, fitted, fitted_mark};

use crate::base::fault;
use crate::{Shape, SizeFault, SizeKind};
use vf_base::Place;
use vf_fours::{BinaryOp, Fours, UnaryOp};
use vf_tree::SignCall;

/// Whether the operator keeps the width of its operand.
fn is_wide(op: UnaryOp) -> bool
    ensures { result ≡ choices.is_wide op }
{
    match op {
        UnaryOp::Plus | UnaryOp::Minus | UnaryOp::BitNot => true,
        UnaryOp::LogicalNot
        | UnaryOp::ReduceAnd
        | UnaryOp::ReduceNand
        | UnaryOp::ReduceOr
        | UnaryOp::ReduceNor
        | UnaryOp::ReduceXor
        | UnaryOp::ReduceXnor => false,
    }
}

/// Whether the operator gives one bit.
fn is_narrow(op: BinaryOp) -> bool
    ensures { result ≡ choices.is_narrow op }
{
    match op {
        BinaryOp::LogicalOr
        | BinaryOp::LogicalAnd
        | BinaryOp::Equal
        | BinaryOp::NotEqual
        | BinaryOp::CaseEqual
        | BinaryOp::CaseNotEqual
        | BinaryOp::Less
        | BinaryOp::LessEqual
        | BinaryOp::Greater
        | BinaryOp::GreaterEqual => true,
        BinaryOp::BitOr
        | BinaryOp::BitXor
        | BinaryOp::BitXnor
        | BinaryOp::BitAnd
        | BinaryOp::ShiftLeft
        | BinaryOp::ShiftRight
        | BinaryOp::ArithmeticShiftLeft
        | BinaryOp::ArithmeticShiftRight
        | BinaryOp::Add
        | BinaryOp::Subtract
        | BinaryOp::Multiply
        | BinaryOp::Divide
        | BinaryOp::Remainder => false,
    }
}

/// Whether the operands need no common width.
fn is_free(op: BinaryOp) -> bool
    ensures { result ≡ choices.is_free op }
{
    match op {
        BinaryOp::LogicalOr
        | BinaryOp::LogicalAnd
        | BinaryOp::ShiftLeft
        | BinaryOp::ShiftRight
        | BinaryOp::ArithmeticShiftLeft
        | BinaryOp::ArithmeticShiftRight => true,
        BinaryOp::BitOr
        | BinaryOp::BitXor
        | BinaryOp::BitXnor
        | BinaryOp::BitAnd
        | BinaryOp::Equal
        | BinaryOp::NotEqual
        | BinaryOp::CaseEqual
        | BinaryOp::CaseNotEqual
        | BinaryOp::Less
        | BinaryOp::LessEqual
        | BinaryOp::Greater
        | BinaryOp::GreaterEqual
        | BinaryOp::Add
        | BinaryOp::Subtract
        | BinaryOp::Multiply
        | BinaryOp::Divide
        | BinaryOp::Remainder => false,
    }
}

pub(crate) fn unary_size(op: UnaryOp, a: Shape) -> Shape
    ensures { result ≡ unary_size op a }
{
    if is_wide(op) { a } else { Shape::bit() }
}

pub(crate) fn binary_size(op: BinaryOp, a: Shape, b: Shape) -> Shape
    ensures { result ≡ binary_size op a b }
{
    if is_narrow(op) {
        return Shape::bit();
    }
    if is_free(op) { a } else { a.common(b) }
}

/// What the operator itself gives in a context.
pub(crate) fn unary_made(op: UnaryOp, to: Shape) -> Shape
    ensures { result ≡ unary_made op to }
{
    if is_wide(op) { to } else { Shape::bit() }
}

/// What the operator itself gives in a context.
pub(crate) fn binary_made(op: BinaryOp, to: Shape) -> Shape
    ensures { result ≡ binary_made op to }
{
    if is_narrow(op) { Shape::bit() } else { to }
}

/// How the operand is worked out.
pub(crate) fn operand_at(op: UnaryOp, a: Shape, to: Shape) -> Shape
    ensures { result ≡ operand_at op a to }
{
    if is_wide(op) { to } else { a }
}

/// How the left operand is worked out.
pub(crate) fn left_at(op: BinaryOp, a: Shape, b: Shape, to: Shape) -> Shape
    ensures { result ≡ left_at op a b to }
{
    if !is_narrow(op) {
        return to;
    }
    if is_free(op) { a } else { a.common(b) }
}

/// How the right operand is worked out.
pub(crate) fn right_at(op: BinaryOp, a: Shape, b: Shape, to: Shape) -> Shape
    ensures { result ≡ right_at op a b to }
{
    if is_free(op) {
        return b;
    }
    if is_narrow(op) { a.common(b) } else { to }
}

/// The shape with the mark that the call sets.
pub(crate) fn marked_by(call: SignCall, a: Shape) -> Shape
    ensures { result ≡ marked_by call a }
{
    match call {
        SignCall::Signed => a.marked(true),
        SignCall::Unsigned => a.marked(false),
    }
}

/// The bits of parts and of a further one, where 129 stands for any sum above 128.
pub(crate) fn more(bits: u32, part: u32) -> u32
    requires bits { bits ≤ 129 }
    requires part { part ≤ 128 }
    ensures value { result ≡ capped (bits + part) }
    ensures small { result ≤ 129 }
{
    (bits + part).min(129)
}

/// The shape of a concatenation of so many bits.
pub(crate) fn joined(place: Place, bits: u32) -> Result<Shape, SizeFault>
    ensures { result ≡ joined place bits }
{
    if bits == 0 || 128 < bits {
        return Err(fault(SizeKind::Width, place));
    }
    Ok(Shape::new(bits, false))
}

fn natural(number: i128) -> Option<u128>
    ensures { result ≡ natural number }
{
    if number < 0 {
        None
    } else {
        Some(number as u128)
    }
}

fn magnitude(value: Fours) -> Option<u128>
    ensures { result ≡ (if value.signed then option_and_then natural (i128_of value) else u128_of value) }
{
    if !value.is_signed() {
        return value.to_u128();
    }
    match value.to_i128() {
        None => None,
        Some(number) => natural(number),
    }
}

/// How often a count repeats, where 129 stands for any number above 128; None where it is unknown or below 1.
pub(crate) fn times(value: Fours) -> Option<u32>
    ensures value { result ≡ times value }
    ensures some { IfSome result (λ n. 1 ≤ n) }
    ensures small { IfSome result (λ n. n ≤ 129) }
{
    match magnitude(value) {
        None => None,
        Some(0) => None,
        Some(number) => Some(number.min(129) as u32),
    }
}

/// A value with the mark and then the width of its context.
pub(crate) fn fitted(own: Shape, to: Shape, value: Fours) -> Fours
    requires { length value.bits ≡ own.width }
    ensures value { result ≡ fitted own to value }
    ensures width { length result.bits ≡ to.width }
{
    let marked = with_mark(own, to.is_signed(), value);
    if own.width() == to.width() {
        marked
    } else {
        marked.resize(to.width(), to.is_signed())
    }
}

fn with_mark(own: Shape, signed: bool, value: Fours) -> Fours
    requires { length value.bits ≡ own.width }
    ensures value { result ≡ fitted_mark own signed value }
    ensures width { length result.bits ≡ own.width }
{
    if own.is_signed() == signed {
        value
    } else {
        value.resize(own.width(), signed)
    }
}

/// A unary operator on its operand, fitted to the context.
pub(crate) fn unary_value(op: UnaryOp, operand: Fours, to: Shape) -> Fours
    requires { choices.is_wide op ≡ true → length operand.bits ≡ to.width }
    ensures value { result ≡ fitted (unary_made op to) to (unary_of op operand) }
    ensures width { length result.bits ≡ to.width }
{
    if is_wide(op) {
        fitted(to, to, operand.unary(op))
    } else {
        fitted(Shape::bit(), to, operand.unary(op))
    }
}

/// A binary operator on its operands, fitted to the context.
pub(crate) fn binary_value(op: BinaryOp, left: Fours, right: Fours, to: Shape) -> Fours
    requires same { choices.is_free op ≡ false → length left.bits ≡ length right.bits }
    requires wide { choices.is_narrow op ≡ false → length left.bits ≡ to.width }
    ensures value { result ≡ fitted (binary_made op to) to (binary_of op left right) }
    ensures width { length result.bits ≡ to.width }
{
    if is_narrow(op) {
        fitted(Shape::bit(), to, left.binary(op, right))
    } else {
        fitted(to, to, left.binary(op, right))
    }
}
