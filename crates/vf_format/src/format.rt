ghost use Rattle.std.specs.Prelude.{◌≡◌, ◌+◌, ◌-◌, ◌^◌, ◌≤◌, ◌++◌, ◌&&◌, true, length, false, Some, None, OnOk};
ghost use Rattle.std.specs.Int.{div_ceil};
ghost use Rattle.vf_fours.specs.Bits.{is_one, top};
ghost use Rattle.vf_fours.specs.Numbers.{number};
ghost use Rattle.vf_format.specs.Printed.{printed, digits_text, digit_at, falling, trimmed, byte_at, bytes_text, letter_of, padded, field_of, decimal_of, decimal_text};

use crate::digits::{byte, digit, letter};
use itoa::Buffer;
use vf_base::{Memory, Text};
use vf_fours::{Bit, Fours};

/// The forms in which a format prints a value: `%d %h %o %b %c %s %t`.
#[derive(Clone, Copy, Debug, PartialEq, Eq)]
pub enum Form {
    /// `%d`: a decimal number.
    Dec,
    /// `%h`, `%x`: a digit for each four bits.
    Hex,
    /// `%o`: a digit for each three bits.
    Oct,
    /// `%b`: a digit for each bit.
    Bin,
    /// `%c`: one byte.
    Char,
    /// `%s`: the bytes of the value.
    Str,
    /// `%t`: the low 64 bits as a decimal number.
    Time,
}

/// Appends what a format prints of a value. `least` is the `0` after the `%`: it takes away leading spaces and digits 0. The
/// only refusal is out of memory; the text then has a part of it at most.
pub fn print(form: Form, least: bool, value: Fours, into: &mut Text) -> Result<(), Memory>
    ensures { OnOk result (into.new ≡ into.old ++ printed form least value) }
{
    match form {
        Form::Dec => write_decimal(least, value, into),
        Form::Hex => write_digits(4, least, value, into),
        Form::Oct => write_digits(3, least, value, into),
        Form::Bin => write_digits(1, least, value, into),
        Form::Char => into.push_all(&[byte(value, 0)]),
        Form::Str => write_bytes(value, into),
        Form::Time => write_decimal(least, value.resize(64, false), into),
    }
}

/// Appends the digits of a value from the top.
fn write_digits(size: u32, least: bool, value: Fours, into: &mut Text) -> Result<(), Memory>
    requires some { 1 ≤ size }
    requires few { size ≤ 4 }
    ensures { OnOk result (into.new ≡ into.old ++ digits_text size least value.bits) }
{
    let mut k = digit_count(size, least, value);
    while k > 0 {
        k -= 1;
        into.push_all(&[digit(value, size, k)])?;
    }
    Ok(())
}

/// How many digits are printed.
fn digit_count(size: u32, least: bool, value: Fours) -> u32
    requires some { 1 ≤ size }
    requires few { size ≤ 4 }
    ensures most { result ≤ div_ceil (length value.bits) size }
    ensures text { falling (digit_at size value.bits) result ≡ digits_text size least value.bits }
{
    let count = value.width().div_ceil(size);
    if least {
        without_zeros(size, value, count)
    } else {
        count
    }
}

/// How many digits are left without the digits 0 that they begin with, down to one.
fn without_zeros(size: u32, value: Fours, digits: u32) -> u32
    requires some { 1 ≤ size }
    requires few { size ≤ 4 }
    requires digits { digits ≤ div_ceil (length value.bits) size }
    ensures most { result ≤ digits }
    ensures text { falling (digit_at size value.bits) result ≡ trimmed (falling (digit_at size value.bits) digits) }
{
    let mut count = digits;
    while count > 1 && digit(value, size, count - 1) == b'0' {
        count -= 1;
    }
    count
}

/// Appends the bytes of a value from the top.
fn write_bytes(value: Fours, into: &mut Text) -> Result<(), Memory>
    ensures { OnOk result (into.new ≡ into.old ++ bytes_text value.bits) }
{
    let mut k = byte_count(value);
    while k > 0 {
        k -= 1;
        into.push_all(&[byte(value, k)])?;
    }
    Ok(())
}

/// How many bytes are printed.
fn byte_count(value: Fours) -> u32
    ensures most { result ≤ div_ceil (length value.bits) 8 }
    ensures text { falling (byte_at value.bits) result ≡ bytes_text value.bits }
{
    let mut count = value.width().div_ceil(8);
    while count > 0 && byte(value, count - 1) == 0 {
        count -= 1;
    }
    count
}

/// Appends a value in decimal.
fn write_decimal(least: bool, value: Fours, into: &mut Text) -> Result<(), Memory>
    ensures { OnOk result (into.new ≡ into.old ++ decimal_text least value) }
{
    let field = field(least, value);
    match letter(value) {
        Some(letter) => write_letter(field, letter, value, into),
        None => write_number(field, value, into),
    }
}

/// Appends the letter of a value that is not known.
fn write_letter(field: usize, letter: u8, value: Fours, into: &mut Text) -> Result<(), Memory>
    requires { letter_of value.bits ≡ Some letter }
    ensures { OnOk result (into.new ≡ into.old ++ padded field (decimal_of value)) }
{
    put(field, &[letter], &[], into)?;
    Ok(())
}

/// Appends a known value in decimal.
fn write_number(field: usize, value: Fours, into: &mut Text) -> Result<(), Memory>
    requires { letter_of value.bits ≡ None }
    ensures { OnOk result (into.new ≡ into.old ++ padded field (decimal_of value)) }
{
    if is_negative(value) {
        write_negative(field, value, into)
    } else {
        write_natural(field, value, into)
    }
}

fn write_negative(field: usize, value: Fours, into: &mut Text) -> Result<(), Memory>
    requires known { letter_of value.bits ≡ None }
    requires negative { (value.signed && is_one (top value.bits)) ≡ true }
    ensures { OnOk result (into.new ≡ into.old ++ padded field (decimal_of value)) }
{
    let mut buffer = Buffer::new();
    let digits = buffer.format(magnitude(value));
    put(field, b"-", digits.as_bytes(), into)?;
    Ok(())
}

fn write_natural(field: usize, value: Fours, into: &mut Text) -> Result<(), Memory>
    requires known { letter_of value.bits ≡ None }
    requires natural { (value.signed && is_one (top value.bits)) ≡ false }
    ensures { OnOk result (into.new ≡ into.old ++ padded field (decimal_of value)) }
{
    let mut buffer = Buffer::new();
    let digits = buffer.format(value.ones());
    put(field, b"", digits.as_bytes(), into)?;
    Ok(())
}

fn is_negative(value: Fours) -> bool
    ensures { result ≡ (value.signed && is_one (top value.bits)) }
{
    value.is_signed() && is_one(value.bit(value.width() - 1))
}

fn is_one(bit: Bit) -> bool
    ensures { result ≡ is_one bit }
{
    match bit {
        Bit::One => true,
        _ => false,
    }
}

/// How far a negative value lies below 0.
fn magnitude(value: Fours) -> u128
    requires known { letter_of value.bits ≡ None }
    requires negative { (value.signed && is_one (top value.bits)) ≡ true }
    ensures { result + number value.bits ≡ 2 ^ length value.bits }
{
    greatest(value.width()) - value.ones() + 1
}

/// The greatest number of a width.
fn greatest(width: u32) -> u128
    requires some { 1 ≤ width }
    requires most { width ≤ 128 }
    ensures { result ≡ 2 ^ width - 1 }
{
    u128::MAX >> (128 - width)
}

/// The width in which a value is printed in decimal.
fn field(least: bool, value: Fours) -> usize
    ensures { result ≡ field_of least value }
{
    if least {
        return 0;
    }
    let mut buffer = Buffer::new();
    let digits = buffer.format(greatest(value.width())).len();
    if value.is_signed() {
        digits + 1
    } else {
        digits
    }
}

/// Appends spaces and two texts that together fill a field.
fn put(field: usize, sign: &[u8], digits: &[u8], into: &mut Text) -> Result<(), Memory>
    requires sign { length sign.now ≤ 1 }
    requires digits { length digits.now ≤ 40 }
    ensures { OnOk result (into.new ≡ into.old ++ padded field (sign.now ++ digits.now)) }
{
    let spaces = field.saturating_sub(sign.len() + digits.len());
    for _ in 0..spaces {
        into.push_all(b" ")?;
    }
    into.push_all(sign)?;
    into.push_all(digits)?;
    Ok(())
}
