//! Numbers (clause 3.5).

ghost use Rattle.std.specs.Prelude.{◌≡◌, ◌≤◌, ◌<◌, ◌^◌, true, false, length, replicate, IfOk, IfErr, Ok, Err};
ghost use Rattle.std.specs.Char.{digit_value};
ghost use Rattle.std.specs.List.{list_all};
ghost use Rattle.vf_fours.specs.Numbers.{digits_of};
ghost use Rattle.vf_number.specs.declared.bases.Base.TheVariants.{Hex, Decimal};
ghost use Rattle.vf_number.specs.Numbers.{is_decimal_byte, is_byte_of, is_digit_of, is_unknown, base_of, fill_of, is_unknown_at, digit_width, digit_bits, decimal_value, bits_at, IsNumber, BeginsNumber};
ghost use Rattle.vf_number.specs.Reading.{Shows, AreDigits, is_decimal, below, appended, with_digit, width_at, mark_at, base_at, digits_at, value_at, cut, based_at, plain_at, plain_or_based, number_at};

use crate::bases::Base;
use crate::classes::{Class, is_digit_of, is_unknown, is_x, is_z};
use crate::{ByteClass, NumberFault};
use vf_fours::{Bit, Fours, WIDEST};

// ---- decimal digits

/// A number with one more decimal digit appended, or unchanged by a `_`; None above 2^128 - 1.
#[tactic(auto, unfolding(crate::specs::Reading::appended), using(crate::proofs::Decimals::digit_is))]
fn appended(number: u128, byte: u8) -> Option<u128>
    requires { is_decimal_byte byte ≡ true }
    ensures { result ≡ appended number byte }
{
    if byte == b'_' {
        return Some(number);
    }
    let Some(tens) = number.checked_mul(10) else {
        return None;
    };
    tens.checked_add(u128::from(byte - b'0'))
}

/// The number that decimal digits and `_` write (clause 3.5.1); None above 2^128 - 1.
fn decimal(digits: &[u8]) -> Option<u128>
    requires { list_all is_decimal_byte digits.now ≡ true }
    ensures { result ≡ below (2 ^ 128) (decimal_value digits.now) }
{
    let mut number: u128 = 0;
    let mut rest = digits;
    while let Some((byte, more)) = rest.split_first() {
        let Some(next) = appended(number, *byte) else {
            return None;
        };
        number = next;
        rest = more;
    }
    Some(number)
}

/// The width that a size gives: 32 bits where there is none.
#[tactic(auto, unfolding(crate::specs::Reading::width_at))]
fn width(size: &[u8]) -> Result<u32, NumberFault>
    requires { list_all is_decimal_byte size.now ≡ true }
    ensures value { Shows (λ n. n) result (width_at size.now) }
    ensures range { IfOk result (λ n. (1 ≤ n) × (n ≤ 128)) }
{
    if size.is_empty() {
        return Ok(32);
    }
    let Some(width) = decimal(size) else {
        return Err(NumberFault::TooWide);
    };
    if width == 0 {
        return Err(NumberFault::BadNumber);
    }
    if width > u128::from(WIDEST) {
        return Err(NumberFault::TooWide);
    }
    Ok(width as u32)
}

// ---- bits

/// The low bits of a number.
fn known(width: u32, signed: bool, number: u128) -> Fours
    requires some { 1 ≤ width }
    requires most { width ≤ 128 }
    ensures value { result ≡ record { bits = digits_of width number; signed = signed } }
    ensures width { length result.bits ≡ width }
{
    Fours::new(WIDEST, false, number, 0).resize(width, signed)
}

/// The same bit at every place.
fn filled(width: u32, bit: Bit) -> Fours
    requires some { 1 ≤ width }
    requires most { width ≤ 128 }
    ensures value { result ≡ record { bits = replicate width bit; signed = false } }
    ensures width { length result.bits ≡ width }
{
    Fours::of_bit(bit).resize(1, true).resize(width, false)
}

/// The low bits of a value of 128 bits.
fn cut(value: Fours, width: u32, signed: bool) -> Fours
    requires value { length value.bits ≡ 128 }
    requires some { 1 ≤ width }
    requires most { width ≤ 128 }
    ensures { result ≡ cut value width signed }
{
    value.resize(width, signed)
}

/// What fills a number above its leftmost digit.
fn fill(digits: &[u8]) -> Bit
    ensures { result ≡ fill_of digits.now }
{
    match digits {
        [] => Bit::Zero,
        [first, ..] => {
            if is_x(*first) {
                return Bit::X;
            }
            if is_z(*first) {
                return Bit::Z;
            }
            Bit::Zero
        }
    }
}

fn is_unknown_at(digits: &[u8]) -> bool
    ensures { result ≡ is_unknown_at digits.now }
{
    match digits {
        [] => false,
        [first, ..] => is_unknown(*first),
    }
}

/// Whether the base is ten.
fn is_decimal(base: Base) -> bool
    ensures { result ≡ is_decimal base }
{
    matches!(base, Base::Decimal)
}

/// How many bits a digit of the base has.
fn digit_width(base: Base) -> u32
    ensures value { result ≡ digit_width base }
    ensures most { result ≤ 4 }
{
    match base {
        Base::Binary => 1,
        Base::Octal => 3,
        Base::Decimal => 0,
        Base::Hex => 4,
    }
}

/// The value of a known digit.
fn digit_value(byte: u8) -> u8
    requires digit { is_digit_of Hex byte ≡ true }
    requires known { is_unknown byte ≡ false }
    ensures value { result ≡ digit_value byte }
    ensures fits { result < 16 }
{
    if byte <= b'9' {
        return byte - b'0';
    }
    if byte <= b'F' {
        return byte - b'A' + 10;
    }
    byte - b'a' + 10
}

/// The bits of a digit of a base.
fn digit(base: Base, byte: u8) -> Fours
    requires base { is_decimal base ≡ false }
    requires digit { is_digit_of base byte ≡ true }
    ensures { result ≡ record { bits = digit_bits base byte; signed = false } }
{
    let width = digit_width(base);
    if is_x(byte) {
        return filled(width, Bit::X);
    }
    if is_z(byte) {
        return filled(width, Bit::Z);
    }
    known(width, false, u128::from(digit_value(byte)))
}

/// The low 128 bits of a value with one more digit appended, or the value unchanged by a `_`.
fn with_digit(base: Base, value: Fours, byte: u8) -> Fours
    requires base { is_decimal base ≡ false }
    requires digit { is_byte_of base byte ≡ true }
    requires width { length value.bits ≡ 128 }
    ensures bits { result.bits ≡ with_digit base byte value.bits }
    ensures width { length result.bits ≡ 128 }
{
    if byte == b'_' {
        return value;
    }
    value
        .select(0, WIDEST - digit_width(base))
        .concat(digit(base, byte))
}

/// The low 128 bits of digits that are not decimal.
fn spelled(base: Base, digits: &[u8]) -> Fours
    requires base { is_decimal base ≡ false }
    requires digits { list_all (is_byte_of base) digits.now ≡ true }
    ensures bits { result.bits ≡ bits_at base 128 digits.now }
    ensures width { length result.bits ≡ 128 }
{
    let mut value = filled(WIDEST, fill(digits));
    let mut rest = digits;
    while let Some((byte, more)) = rest.split_first() {
        value = with_digit(base, value, *byte);
        rest = more;
    }
    value
}

/// The low 128 bits of decimal digits, or of one that is not known.
fn decimal_value(digits: &[u8]) -> Result<Fours, NumberFault>
    requires { is_unknown_at digits.now ≡ false → list_all is_decimal_byte digits.now ≡ true }
    ensures value { Shows (λ value. value.bits) result (value_at Decimal digits.now) }
    ensures width { IfOk result (λ value. length value.bits ≡ 128) }
{
    if is_unknown_at(digits) {
        return Ok(filled(WIDEST, fill(digits)));
    }
    let Some(number) = decimal(digits) else {
        return Err(NumberFault::BadNumber);
    };
    Ok(known(WIDEST, false, number))
}

/// The low 128 bits of the digits of a based number.
fn value(base: Base, digits: &[u8]) -> Result<Fours, NumberFault>
    requires { AreDigits base digits.now }
    ensures value { Shows (λ value. value.bits) result (value_at base digits.now) }
    ensures width { IfOk result (λ value. length value.bits ≡ 128) }
{
    if is_decimal(base) {
        return decimal_value(digits);
    }
    Ok(spelled(base, digits))
}

// ---- shape

/// Whether an `s` stands in front, and what follows it.
#[tactic(auto, unfolding(crate::specs::Reading::mark_at))]
fn mark<'a>(text: &'a [u8]) -> (bool, &'a [u8])
    ensures signed { result.0 ≡ (mark_at text.now).0 }
    ensures rest { result.1.now ≡ (mark_at text.now).1 }
{
    match text {
        [] => (false, text),
        [first, rest @ ..] => {
            if *first == b's' || *first == b'S' {
                return (true, rest);
            }
            (false, text)
        }
    }
}

/// The base that a letter names.
fn base_of(letter: u8) -> Option<Base>
    ensures { result ≡ base_of letter }
{
    match letter {
        b'b' | b'B' => Some(Base::Binary),
        b'o' | b'O' => Some(Base::Octal),
        b'd' | b'D' => Some(Base::Decimal),
        b'h' | b'H' => Some(Base::Hex),
        _ => None,
    }
}

/// The base that stands in front, and what follows it.
#[tactic(auto, unfolding(crate::specs::Reading::base_at))]
fn base<'a>(text: &'a [u8]) -> Result<(Base, &'a [u8]), NumberFault>
    ensures { Shows (λ r. (r.0, r.1.now)) result (base_at text.now) }
{
    match text {
        [] => Err(NumberFault::BadNumber),
        [first, rest @ ..] => match base_of(*first) {
            Some(base) => Ok((base, rest)),
            None => Err(NumberFault::BadNumber),
        },
    }
}

/// The digits of a base that stand in front, and what follows them.
#[tactic(auto, unfolding(crate::specs::Reading::digits_at))]
fn digits<'a>(base: Base, text: &'a [u8]) -> Result<(&'a [u8], &'a [u8]), NumberFault>
    ensures value { Shows (λ r. (r.0.now, r.1.now)) result (digits_at base text.now) }
    ensures digits { IfOk result (λ r. AreDigits base r.0.now) }
{
    match text {
        [] => Err(NumberFault::BadNumber),
        [first, rest @ ..] => {
            if is_digit_of(base, *first) {
                return Ok(Class::Digits(base).split(text));
            }
            if is_decimal(base) && is_unknown(*first) {
                let (more, _) = Class::Underscore.split(rest);
                return Ok(text.split_at(1 + more.len()));
            }
            Err(NumberFault::BadNumber)
        }
    }
}

/// The number that a size, which may be empty, and the text after its `'` write, and what follows it.
#[tactic(auto, unfolding(crate::specs::Reading::based_at))]
fn based<'a>(size: &[u8], text: &'a [u8]) -> Result<(Fours, &'a [u8]), NumberFault>
    requires { list_all is_decimal_byte size.now ≡ true }
    ensures { Shows (λ r. (r.0, r.1.now)) result (based_at size.now text.now) }
{
    let (signed, text) = mark(text);
    let (base, text) = base(text)?;
    let (_, text) = Class::Blank.split(text);
    let (digits, rest) = digits(base, text)?;
    let value = value(base, digits)?;
    let width = width(size)?;
    Ok((cut(value, width, signed), rest))
}

/// A plain number: 32 bits, signed.
#[tactic(auto, unfolding(crate::specs::Reading::plain_at))]
fn plain<'a>(digits: &[u8], rest: &'a [u8]) -> Result<(Fours, &'a [u8]), NumberFault>
    requires { list_all is_decimal_byte digits.now ≡ true }
    ensures { Shows (λ r. (r.0, r.1.now)) result (plain_at digits.now rest.now) }
{
    let Some(number) = decimal(digits) else {
        return Err(NumberFault::BadNumber);
    };
    if number > 0xffff_ffff {
        return Err(NumberFault::BadNumber);
    }
    Ok((known(32, true, number), rest))
}

/// The number that begins with these digits, which may be none: a based one where a `'` stands after the blanks that follow
/// them, and else a plain one.
#[tactic(auto, unfolding(crate::specs::Reading::plain_or_based))]
fn plain_or_based<'a>(
    digits: &[u8],
    rest: &'a [u8],
    after: &'a [u8],
) -> Result<(Fours, &'a [u8]), NumberFault>
    requires { list_all is_decimal_byte digits.now ≡ true }
    ensures { Shows (λ r. (r.0, r.1.now)) result (plain_or_based digits.now rest.now after.now) }
{
    match after {
        [] => plain(digits, rest),
        [first, more @ ..] => {
            if *first == b'\'' {
                return based(digits, more);
            }
            plain(digits, rest)
        }
    }
}

/// As [`number`], by a contract that is one equation.
#[tactic(auto, unfolding(crate::specs::Reading::number_at))]
fn number_at<'a>(text: &'a [u8]) -> Result<(Fours, &'a [u8]), NumberFault>
    ensures { Shows (λ r. (r.0, r.1.now)) result (number_at text.now) }
{
    let (digits, rest) = Class::Decimal.split(text);
    let (_, after) = Class::Blank.split(rest);
    plain_or_based(digits, rest, after)
}

/// The number at the front of a text where one begins (clause 3.5), and the bytes after it; its width is 1 to 128 bits. A
/// refusal is exactly the number's fault. No memory is taken.
pub fn number<'a>(text: &'a [u8]) -> Result<(Fours, &'a [u8]), NumberFault>
    requires { BeginsNumber text.now }
    ensures found { IfOk result (λ r. IsNumber text.now (Ok (r.0, r.1.now))) }
    ensures shorter { IfOk result (λ r. length r.1.now < length text.now) }
    ensures refused { IfErr result (λ fault. IsNumber text.now (Err fault)) }
{
    number_at(text)
}
