//! A few bits of a value, as one digit or one byte.
ghost use Rattle.std.specs.Prelude.{◌≡◌, ◌+◌, ◌-◌, ◌*◌, ◌^◌, ◌<◌, ◌≤◌, ◌∷◌, [], length, take, drop, List, Some};
ghost use Rattle.vf_fours.specs.declared.Bit as vf;
ghost use Rattle.vf_fours.specs.Numbers.{number, of_one};
ghost use Rattle.vf_format.specs.Printed.{letter_of, digit_char, digit_at, byte_at};
ghost use Rattle.vf_format.specs.Seen.{Tells};

use vf_fours::{Bit, Fours};

/// Which of x and z some bits are, and all of them.
#[derive(Clone, Copy)]
struct Seen {
    some_x: bool,
    some_z: bool,
    all_x: bool,
    all_z: bool,
}

impl Seen {
    fn nothing() -> Seen
        ensures { Tells result [] }
    {
        Seen {
            some_x: false,
            some_z: false,
            all_x: true,
            all_z: true,
        }
    }

    fn with(self, bit: Bit) -> Seen
        ensures { (bits : List vf.Bit) → Tells self bits → Tells result (bit ∷ bits) }
    {
        match bit {
            Bit::X => Seen {
                some_x: true,
                all_z: false,
                ..self
            },
            Bit::Z => Seen {
                some_z: true,
                all_x: false,
                ..self
            },
            _ => Seen {
                all_x: false,
                all_z: false,
                ..self
            },
        }
    }

    #[tactic(auto, unfolding(crate::specs::Printed::letter_of))]
    fn letter(self) -> Option<u8>
        ensures { (bits : List vf.Bit) → Tells self bits → result ≡ letter_of bits }
    {
        if self.some_x {
            return Some(if self.all_x { b'x' } else { b'X' });
        }
        if self.some_z {
            return Some(if self.all_z { b'z' } else { b'Z' });
        }
        None
    }
}

/// The letter for the bits from a place up to another, where they are not all known.
fn letter_in(value: Fours, low: u32, high: u32) -> Option<u8>
    requires low { low ≤ high }
    requires high { high ≤ length value.bits }
    ensures { result ≡ letter_of (take (high - low) (drop low value.bits)) }
{
    let mut seen = Seen::nothing();
    let mut at = high;
    while at > low {
        at -= 1;
        seen = seen.with(value.bit(at));
    }
    seen.letter()
}

/// The letter for all bits of a value, where they are not all known.
pub fn letter(value: Fours) -> Option<u8>
    ensures { result ≡ letter_of value.bits }
{
    letter_in(value, 0, value.width())
}

/// A bit below a number. x and z count as 0.
fn appended(number: u32, bit: Bit) -> u32
    requires { number < 128 }
    ensures { result ≡ of_one bit + 2 * number }
{
    match bit {
        Bit::One => 2 * number + 1,
        _ => 2 * number,
    }
}

/// The number of at most eight bits from a place up to another, of which x and z count as 0.
fn number_in(value: Fours, low: u32, high: u32) -> u32
    requires low { low ≤ high }
    requires high { high ≤ length value.bits }
    requires few { high ≤ low + 8 }
    ensures value { result ≡ number (take (high - low) (drop low value.bits)) }
    ensures fits { result < 2 ^ (high - low) }
{
    let mut number = 0;
    let mut at = high;
    while at > low {
        at -= 1;
        number = appended(number, value.bit(at));
    }
    number
}

/// 0 to 9, then a to f.
fn digit_char(number: u32) -> u8
    requires { number < 16 }
    ensures { result ≡ digit_char number }
{
    if number < 10 {
        b'0' + number as u8
    } else {
        b'a' + (number - 10) as u8
    }
}

/// Where the bits of a digit end: the top digit may have fewer than the others.
fn end_of(value: Fours, size: u32, low: u32) -> u32
    requires { low ≤ length value.bits }
    ensures within { (low ≤ result) × (result ≤ length value.bits) × (result ≤ low + size) }
    ensures bits { take (result - low) (drop low value.bits) ≡ take size (drop low value.bits) }
{
    let left = value.width() - low;
    low + left.min(size)
}

/// The digit at a place, where a digit stands for so many bits.
pub fn digit(value: Fours, size: u32, k: u32) -> u8
    requires few { size ≤ 4 }
    requires k { size * k < length value.bits }
    ensures { result ≡ digit_at size value.bits k }
{
    let low = size * k;
    let high = end_of(value, size, low);
    match letter_in(value, low, high) {
        Some(letter) => letter,
        None => digit_char(number_in(value, low, high)),
    }
}

/// The byte at a place, of which x and z count as 0.
pub fn byte(value: Fours, k: u32) -> u8
    requires { 8 * k < length value.bits }
    ensures { result ≡ byte_at value.bits k }
{
    let low = 8 * k;
    let high = end_of(value, 8, low);
    number_in(value, low, high) as u8
}
