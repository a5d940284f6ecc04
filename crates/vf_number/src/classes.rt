//! The classes of bytes of which numbers are made.

ghost use Rattle.std.specs.Prelude.{◌≡◌};
ghost use Rattle.vf_number.specs.Bytes.{is_digit, is_blank};
ghost use Rattle.vf_number.specs.Numbers.{begins_number, is_x, is_z, is_unknown, is_digit_of};
ghost use Rattle.vf_number.specs.Reading.{in_class};

use crate::ByteClass;
use crate::bases::Base;

/// Whether a byte is a decimal digit.
pub fn is_digit(byte: u8) -> bool
    ensures { result ≡ is_digit byte }
{
    byte.is_ascii_digit()
}

/// Whether a byte is a blank: space, tab, newline, form feed or carriage return (clause 3.2).
pub fn is_blank(byte: u8) -> bool
    ensures { result ≡ is_blank byte }
{
    matches!(byte, b' ' | b'\t' | b'\n' | 0x0c | b'\r')
}

/// Whether a number begins with the byte (clause 3.5.1).
pub fn begins_number(byte: u8) -> bool
    ensures { result ≡ begins_number byte }
{
    is_digit(byte) || byte == b'\''
}

/// Whether a byte is the digit x.
pub(crate) fn is_x(byte: u8) -> bool
    ensures { result ≡ is_x byte }
{
    matches!(byte, b'x' | b'X')
}

/// Whether a byte is the digit z, which `?` is too.
pub(crate) fn is_z(byte: u8) -> bool
    ensures { result ≡ is_z byte }
{
    matches!(byte, b'z' | b'Z' | b'?')
}

/// Whether a byte is the digit x or z.
pub(crate) fn is_unknown(byte: u8) -> bool
    ensures { result ≡ is_unknown byte }
{
    is_x(byte) || is_z(byte)
}

/// Whether a byte is a digit of the base.
pub(crate) fn is_digit_of(base: Base, byte: u8) -> bool
    ensures { result ≡ is_digit_of base byte }
{
    match base {
        Base::Binary => byte == b'0' || byte == b'1' || is_unknown(byte),
        Base::Octal => (b'0' <= byte && byte <= b'7') || is_unknown(byte),
        Base::Decimal => is_digit(byte),
        Base::Hex => is_digit(byte)
            || (b'a' <= byte && byte <= b'f')
            || (b'A' <= byte && byte <= b'F')
            || is_unknown(byte),
    }
}

/// A class of bytes of which a number is made.
#[derive(Clone, Copy, Debug, PartialEq, Eq)]
pub(crate) enum Class {
    /// Blanks (clause 3.2).
    Blank,
    /// Decimal digits and `_` (clause 3.5.1).
    Decimal,
    /// `_` alone.
    Underscore,
    /// Digits of a base and `_` (clause 3.5.1).
    Digits(Base),
}

impl ByteClass for Class {
    ghost holds = { in_class };

    fn contains(self, byte: u8) -> bool {
        match self {
            Class::Blank => is_blank(byte),
            Class::Decimal => is_digit(byte) || byte == b'_',
            Class::Underscore => byte == b'_',
            Class::Digits(base) => is_digit_of(base, byte) || byte == b'_',
        }
    }
}
