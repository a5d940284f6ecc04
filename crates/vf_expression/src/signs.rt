//! Signs at the front of the tokens.

ghost use Rattle.std.specs.Prelude.{◌≡◌, ◌≤◌, Some};
ghost use Rattle.std.specs.Option.{option_map};
ghost use Rattle.std.specs.Str.{bytes_eq};
ghost use Rattle.vf_expression.specs.Operators.{unary_of, binary_of, level_of};
ghost use Rattle.vf_expression.specs.Reading.{Gives, is_sign, sign_text, after, operator_at, opening_at, part_of, part_at};

use crate::Stop;
use crate::read::Part;
use vf_base::Place;
use vf_fours::{BinaryOp, UnaryOp};
use vf_lex::{Token, TokenKind};

/// Whether a text is that one.
pub fn same(text: &[u8], wanted: &[u8]) -> bool
    ensures { result ≡ bytes_eq text.now wanted.now }
{
    text == wanted
}

/// Whether a token is that sign.
pub fn is_sign(text: &[u8], kind: &TokenKind) -> bool
    ensures { result ≡ is_sign text.now kind.now }
{
    match kind {
        TokenKind::Sign(own) => same(own.bytes(), text),
        TokenKind::Name(_)
        | TokenKind::System(_)
        | TokenKind::Word(_)
        | TokenKind::Number(_)
        | TokenKind::Quoted(_) => false,
    }
}

/// The tokens after the sign, where it stands in front.
#[tactic(auto, unfolding(crate::specs::Reading::after))]
pub fn strip<'a>(text: &[u8], tokens: &'a [Token]) -> Option<&'a [Token]>
    ensures { option_map (λ rest. rest.now) result ≡ after text.now tokens.now }
{
    match tokens {
        [first, rest @ ..] if is_sign(text, &first.kind) => Some(rest),
        _ => None,
    }
}

/// The tokens after the sign that is wanted.
pub fn after<'a>(text: &[u8], tokens: &'a [Token]) -> Result<&'a [Token], Stop>
    ensures { Gives (λ rest. rest.now) result (after text.now tokens.now) }
{
    match strip(text, tokens) {
        Some(rest) => Ok(rest),
        None => Err(Stop::Unexpected(tokens.len())),
    }
}

/// The text of a sign.
fn sign_text(kind: &TokenKind) -> Option<&[u8]>
    ensures { option_map (λ text. text.now) result ≡ sign_text kind.now }
{
    match kind {
        TokenKind::Sign(own) => Some(own.bytes()),
        TokenKind::Name(_)
        | TokenKind::System(_)
        | TokenKind::Word(_)
        | TokenKind::Number(_)
        | TokenKind::Quoted(_) => None,
    }
}

/// The unary operator of a sign (clause 5.1).
#[tactic(auto, unfolding(crate::specs::Operators::unary_of))]
pub fn unary_of(sign: &[u8]) -> Option<UnaryOp>
    ensures { result ≡ unary_of sign.now }
{
    if same(sign, b"+") {
        Some(UnaryOp::Plus)
    } else if same(sign, b"-") {
        Some(UnaryOp::Minus)
    } else if same(sign, b"!") {
        Some(UnaryOp::LogicalNot)
    } else if same(sign, b"~") {
        Some(UnaryOp::BitNot)
    } else if same(sign, b"&") {
        Some(UnaryOp::ReduceAnd)
    } else if same(sign, b"~&") {
        Some(UnaryOp::ReduceNand)
    } else if same(sign, b"|") {
        Some(UnaryOp::ReduceOr)
    } else if same(sign, b"~|") {
        Some(UnaryOp::ReduceNor)
    } else if same(sign, b"^") {
        Some(UnaryOp::ReduceXor)
    } else if same(sign, b"~^") {
        Some(UnaryOp::ReduceXnor)
    } else if same(sign, b"^~") {
        Some(UnaryOp::ReduceXnor)
    } else {
        None
    }
}

/// The binary operator of a sign (clause 5.1).
#[tactic(auto, unfolding(crate::specs::Operators::binary_of))]
fn binary_of(sign: &[u8]) -> Option<BinaryOp>
    ensures { result ≡ binary_of sign.now }
{
    if same(sign, b"||") {
        Some(BinaryOp::LogicalOr)
    } else if same(sign, b"&&") {
        Some(BinaryOp::LogicalAnd)
    } else if same(sign, b"|") {
        Some(BinaryOp::BitOr)
    } else if same(sign, b"^") {
        Some(BinaryOp::BitXor)
    } else if same(sign, b"~^") {
        Some(BinaryOp::BitXnor)
    } else if same(sign, b"^~") {
        Some(BinaryOp::BitXnor)
    } else if same(sign, b"&") {
        Some(BinaryOp::BitAnd)
    } else if same(sign, b"==") {
        Some(BinaryOp::Equal)
    } else if same(sign, b"!=") {
        Some(BinaryOp::NotEqual)
    } else if same(sign, b"===") {
        Some(BinaryOp::CaseEqual)
    } else if same(sign, b"!==") {
        Some(BinaryOp::CaseNotEqual)
    } else if same(sign, b"<") {
        Some(BinaryOp::Less)
    } else if same(sign, b"<=") {
        Some(BinaryOp::LessEqual)
    } else if same(sign, b">") {
        Some(BinaryOp::Greater)
    } else if same(sign, b">=") {
        Some(BinaryOp::GreaterEqual)
    } else if same(sign, b"<<") {
        Some(BinaryOp::ShiftLeft)
    } else if same(sign, b">>") {
        Some(BinaryOp::ShiftRight)
    } else if same(sign, b"<<<") {
        Some(BinaryOp::ArithmeticShiftLeft)
    } else if same(sign, b">>>") {
        Some(BinaryOp::ArithmeticShiftRight)
    } else if same(sign, b"+") {
        Some(BinaryOp::Add)
    } else if same(sign, b"-") {
        Some(BinaryOp::Subtract)
    } else if same(sign, b"*") {
        Some(BinaryOp::Multiply)
    } else if same(sign, b"/") {
        Some(BinaryOp::Divide)
    } else if same(sign, b"%") {
        Some(BinaryOp::Remainder)
    } else {
        None
    }
}

/// How tight an operator binds, from 2 to 11 (clause 5.1.2, table 5-4).
pub fn level_of(op: BinaryOp) -> u32
    ensures value { result ≡ level_of op }
    ensures small { result ≤ 11 }
{
    match op {
        BinaryOp::LogicalOr => 2,
        BinaryOp::LogicalAnd => 3,
        BinaryOp::BitOr => 4,
        BinaryOp::BitXor | BinaryOp::BitXnor => 5,
        BinaryOp::BitAnd => 6,
        BinaryOp::Equal | BinaryOp::NotEqual | BinaryOp::CaseEqual | BinaryOp::CaseNotEqual => 7,
        BinaryOp::Less | BinaryOp::LessEqual | BinaryOp::Greater | BinaryOp::GreaterEqual => 8,
        BinaryOp::ShiftLeft
        | BinaryOp::ShiftRight
        | BinaryOp::ArithmeticShiftLeft
        | BinaryOp::ArithmeticShiftRight => 9,
        BinaryOp::Add | BinaryOp::Subtract => 10,
        BinaryOp::Multiply | BinaryOp::Divide | BinaryOp::Remainder => 11,
    }
}

/// The binary operator at the front that binds at the level or tighter, and the tokens after it.
#[tactic(auto, unfolding(crate::specs::Reading::operator_at))]
pub fn operator(level: u32, tokens: &[Token]) -> Option<(BinaryOp, &[Token])>
    ensures { option_map (λ x. (x.0, x.1.now)) result ≡ operator_at level tokens.now }
{
    let (first, rest) = tokens.split_first()?;
    let op = binary_of(sign_text(&first.kind)?)?;
    if level > level_of(op) {
        return None;
    }
    Some((op, rest))
}

/// The place of a `[` at the front, and the tokens after it.
#[tactic(auto, unfolding(crate::specs::Reading::opening_at))]
pub fn opening(tokens: &[Token]) -> Option<(Place, &[Token])>
    ensures { option_map (λ x. (x.0, x.1.now)) result ≡ opening_at tokens.now }
{
    let (first, rest) = tokens.split_first()?;
    if !is_sign(b"[", &first.kind) {
        return None;
    }
    Some((first.place, rest))
}

#[tactic(auto, unfolding(crate::specs::Reading::part_of))]
fn part_of(sign: &[u8]) -> Option<Part>
    ensures { result ≡ part_of sign.now }
{
    if same(sign, b":") {
        Some(Part::Range)
    } else if same(sign, b"+:") {
        Some(Part::Up)
    } else if same(sign, b"-:") {
        Some(Part::Down)
    } else {
        None
    }
}

#[tactic(auto, unfolding(crate::specs::Reading::part_at))]
fn part_at(tokens: &[Token]) -> Option<(Part, &[Token])>
    ensures { option_map (λ x. (x.0, x.1.now)) result ≡ part_at tokens.now }
{
    let (first, rest) = tokens.split_first()?;
    let part = part_of(sign_text(&first.kind)?)?;
    Some((part, rest))
}

/// The sign between the two expressions of a select, and the tokens after it.
pub fn part(tokens: &[Token]) -> Result<(Part, &[Token]), Stop>
    ensures { Gives (λ x. (x.0, x.1.now)) result (part_at tokens.now) }
{
    match part_at(tokens) {
        Some(found) => Ok(found),
        None => Err(Stop::Unexpected(tokens.len())),
    }
}
