//! Operators by their signs.

use crate::values::{Bits, letter};
use vf_fours::{BinaryOp, Bit, Fours, UnaryOp};

pub fn unary(sign: &str, operand: Fours) -> Option<Fours> {
    let op = match sign {
        "+" => UnaryOp::Plus,
        "-" => UnaryOp::Minus,
        "!" => UnaryOp::LogicalNot,
        "~" => UnaryOp::BitNot,
        "&" => UnaryOp::ReduceAnd,
        "~&" => UnaryOp::ReduceNand,
        "|" => UnaryOp::ReduceOr,
        "~|" => UnaryOp::ReduceNor,
        "^" => UnaryOp::ReduceXor,
        "~^" => UnaryOp::ReduceXnor,
        _ => return None,
    };
    Some(operand.unary(op))
}

/// The operators whose operands may differ in width.
fn free(left: Fours, sign: &str, right: Fours) -> Option<Fours> {
    match sign {
        "&&" => Some(left.binary(BinaryOp::LogicalAnd, right)),
        "||" => Some(left.binary(BinaryOp::LogicalOr, right)),
        "<<" => Some(left.binary(BinaryOp::ShiftLeft, right)),
        ">>" => Some(left.binary(BinaryOp::ShiftRight, right)),
        "<<<" => Some(left.binary(BinaryOp::ArithmeticShiftLeft, right)),
        ">>>" => Some(left.binary(BinaryOp::ArithmeticShiftRight, right)),
        _ => None,
    }
}

/// The operators whose operands have one width.
fn op_of(sign: &str) -> Option<BinaryOp> {
    match sign {
        "|" => Some(BinaryOp::BitOr),
        "^" => Some(BinaryOp::BitXor),
        "~^" => Some(BinaryOp::BitXnor),
        "&" => Some(BinaryOp::BitAnd),
        "==" => Some(BinaryOp::Equal),
        "!=" => Some(BinaryOp::NotEqual),
        "===" => Some(BinaryOp::CaseEqual),
        "!==" => Some(BinaryOp::CaseNotEqual),
        "<" => Some(BinaryOp::Less),
        "<=" => Some(BinaryOp::LessEqual),
        ">" => Some(BinaryOp::Greater),
        ">=" => Some(BinaryOp::GreaterEqual),
        "+" => Some(BinaryOp::Add),
        "-" => Some(BinaryOp::Subtract),
        "*" => Some(BinaryOp::Multiply),
        "/" => Some(BinaryOp::Divide),
        "%" => Some(BinaryOp::Remainder),
        _ => None,
    }
}

fn told(test: bool) -> Fours {
    Fours::of_bit(if test { Bit::One } else { Bit::Zero })
}

/// Two values of one width under an operator of the language or one of the words of the rows.
fn alike(left: Fours, sign: &str, right: Fours) -> Option<Fours> {
    if left.width() != right.width() {
        return None;
    }
    match sign {
        "merge" => Some(left.merge(right)),
        "wire" => Some(left.wire(right)),
        "casez" => Some(told(left.match_z(right))),
        "casex" => Some(told(left.match_x(right))),
        _ => match op_of(sign) {
            Some(BinaryOp::LogicalAnd) => None,
            Some(op) => Some(left.binary(op, right)),
            None => None,
        },
    }
}

fn joined(high: Fours, low: Fours) -> Option<Fours> {
    if high.width() + low.width() <= 128 {
        Some(high.concat(low))
    } else {
        None
    }
}

pub fn binary(left: Fours, sign: &str, right: Fours) -> Option<Fours> {
    if sign == "," {
        return joined(left, right);
    }
    match free(left, sign, right) {
        Some(value) => Some(value),
        None => alike(left, sign, right),
    }
}

/// The bits at each place under a comparison.
pub fn each(left: Fours, sign: &str, right: Fours) -> Option<Fours> {
    if left.width() != right.width() {
        return None;
    }
    let mut bits = Bits::none();
    for at in 0..left.width() {
        let place = left.width() - 1 - at;
        let answer = binary(
            Fours::of_bit(left.bit(place)),
            sign,
            Fours::of_bit(right.bit(place)),
        )?;
        bits.push(letter(answer.truth()));
    }
    bits.value(false)
}
