//! A value's bits as two words: what the operators do to all places at once.
ghost use Rattle.std.specs.Prelude.{◌≡◌, ℕ, ◌+◌, ◌-◌, ◌^◌, ◌<◌, ◌≤◌, ◌&&◌, true, not, nat_lt, if◌then◌else◌};
ghost use Rattle.vf_fours.specs.declared.Bit.TheVariants.{Zero, X};
ghost use Rattle.vf_fours.specs.Bits.{settled_bit, is_one, is_zero, not_bit, and_bit, or_bit, xor_bit, merge_bit, wire_bit, same_bit, differ, fits_z, fits_x};
ghost use Rattle.vf_fours.specs.Numbers.{bit_is};
ghost use Rattle.vf_fours.specs.Planes.{plane_bit, IsBelow, bit_of};

use crate::Bit;

/// A bit at each place: 0 is (0, 0), 1 is (1, 0), z is (0, 1) and x is (1, 1) in (ones, unknown).
#[derive(Clone, Copy)]
pub struct Planes {
    pub ones: u128,
    pub unknown: u128,
}

/// The places of `word` that `other` does not have.
fn without(word: u128, other: u128) -> u128
    ensures { (i : ℕ) → bit_is result i ≡ (bit_is word i && not (bit_is other i)) }
{
    word ^ (word & other)
}

/// The word with every place from `from` on set.
fn set_from(word: u128, from: u32) -> u128
    requires { word < 2 ^ from }
    ensures { (i : ℕ) → i < 128 → bit_is result i ≡ (if nat_lt i from then bit_is word i else true) }
{
    if from < 128 {
        word | u128::MAX << from
    } else {
        word
    }
}

/// The word moved up by `places`, with `low` below it.
fn stacked(word: u128, low: u128, places: u32) -> u128
    requires low { low < 2 ^ places }
    requires places { places < 128 }
    ensures { (i : ℕ) → i < 128 →
        bit_is result i ≡ (if nat_lt i places then bit_is low i else bit_is word (i - places)) }
{
    word << places | low
}

fn bit_of(one: bool, unknown: bool) -> Bit
    ensures { result ≡ bit_of one unknown }
{
    match (one, unknown) {
        (false, false) => Bit::Zero,
        (true, false) => Bit::One,
        (false, true) => Bit::Z,
        (true, true) => Bit::X,
    }
}

impl Planes {
    /// The bits of a number.
    pub fn known(ones: u128) -> Planes
        ensures ones { result.ones ≡ ones }
        ensures unknown { result.unknown ≡ 0 }
    {
        Planes { ones, unknown: 0 }
    }

    /// x at each of the low places.
    pub fn all_x(places: u32) -> Planes
        requires some { 1 ≤ places }
        requires most { places ≤ 128 }
        ensures below { IsBelow result places }
        ensures bits { (i : ℕ) → i < places → plane_bit result i ≡ X }
    {
        let word = low_ones(places);
        Planes {
            ones: word,
            unknown: word,
        }
    }

    /// The bit at a place.
    pub fn bit(self, at: u32) -> Bit
        requires { at < 128 }
        ensures { result ≡ plane_bit self at }
    {
        bit_of(self.ones >> at & 1 == 1, self.unknown >> at & 1 == 1)
    }

    /// The places of 1.
    pub fn known_ones(self) -> u128
        ensures { (i : ℕ) → bit_is result i ≡ is_one (plane_bit self i) }
    {
        without(self.ones, self.unknown)
    }

    /// The places of 0 below a width.
    pub fn zeros(self, width: u32) -> u128
        requires some { 1 ≤ width }
        requires most { width ≤ 128 }
        requires below { IsBelow self width }
        ensures bits { (i : ℕ) → i < width → bit_is result i ≡ is_zero (plane_bit self i) }
        ensures fits { result < 2 ^ width }
    {
        low_ones(width) ^ (self.ones | self.unknown)
    }

    /// z counts as x.
    pub fn settled(self) -> Planes
        ensures bits { (i : ℕ) → plane_bit result i ≡ settled_bit (plane_bit self i) }
        ensures below { (w : ℕ) → IsBelow self w → IsBelow result w }
    {
        Planes {
            ones: self.ones | self.unknown,
            unknown: self.unknown,
        }
    }

    pub fn not(self) -> Planes
        ensures { (i : ℕ) → i < 128 → plane_bit result i ≡ not_bit (plane_bit self i) }
    {
        Planes {
            ones: !self.ones | self.unknown,
            unknown: self.unknown,
        }
    }

    pub fn and(self, other: Planes) -> Planes
        ensures { (i : ℕ) → plane_bit result i ≡ and_bit (plane_bit self i) (plane_bit other i) }
    {
        let ones = (self.ones | self.unknown) & (other.ones | other.unknown);
        Planes {
            ones,
            unknown: ones & (self.unknown | other.unknown),
        }
    }

    pub fn or(self, other: Planes) -> Planes
        ensures { (i : ℕ) → plane_bit result i ≡ or_bit (plane_bit self i) (plane_bit other i) }
    {
        let unknown = self.unknown | other.unknown;
        let decided = without(self.ones, self.unknown) | without(other.ones, other.unknown);
        Planes {
            ones: self.ones | other.ones | unknown,
            unknown: without(unknown, decided),
        }
    }

    pub fn xor(self, other: Planes) -> Planes
        ensures { (i : ℕ) → plane_bit result i ≡ xor_bit (plane_bit self i) (plane_bit other i) }
    {
        let unknown = self.unknown | other.unknown;
        Planes {
            ones: (self.ones ^ other.ones) | unknown,
            unknown,
        }
    }

    pub fn merge(self, other: Planes) -> Planes
        ensures { (i : ℕ) → plane_bit result i ≡ merge_bit (plane_bit self i) (plane_bit other i) }
    {
        let unknown = self.unknown | other.unknown | (self.ones ^ other.ones);
        Planes {
            ones: (self.ones & other.ones) | unknown,
            unknown,
        }
    }

    pub fn wire(self, other: Planes) -> Planes
        ensures { (i : ℕ) → plane_bit result i ≡ wire_bit (plane_bit self i) (plane_bit other i) }
    {
        let either_x = (self.ones & self.unknown) | (other.ones & other.unknown);
        let both_z = self.unknown & other.unknown;
        Planes {
            ones: self.ones | other.ones,
            unknown: both_z | either_x | self.differing(other),
        }
    }

    /// The places where one side is 0 and the other 1.
    pub fn differing(self, other: Planes) -> u128
        ensures known { (i : ℕ) → bit_is result i ≡ differ (plane_bit self i) (plane_bit other i) }
        ensures unfit { (i : ℕ) → bit_is result i ≡ not (fits_x (plane_bit self i) (plane_bit other i)) }
    {
        without(self.ones ^ other.ones, self.unknown | other.unknown)
    }

    /// The places where the sides are not the same, x and z included.
    pub fn unequal(self, other: Planes) -> u128
        ensures { (i : ℕ) → bit_is result i ≡ not (same_bit (plane_bit self i) (plane_bit other i)) }
    {
        (self.ones ^ other.ones) | (self.unknown ^ other.unknown)
    }

    /// The places where the sides are not the same and neither is z.
    pub fn unfit_z(self, other: Planes) -> u128
        ensures { (i : ℕ) → bit_is result i ≡ not (fits_z (plane_bit self i) (plane_bit other i)) }
    {
        let z = without(self.unknown, self.ones) | without(other.unknown, other.ones);
        without(self.unequal(other), z)
    }

    /// The bits from a place on, and 0 above them.
    pub fn down(self, places: u32) -> Planes
        requires { places < 128 }
        ensures bits { (i : ℕ) → plane_bit result i ≡ plane_bit self (i + places) }
        ensures below { (w : ℕ) → IsBelow self w → IsBelow result (w - places) }
    {
        Planes {
            ones: self.ones >> places,
            unknown: self.unknown >> places,
        }
    }

    /// The bits moved up, with those of `low` below them.
    pub fn above(self, low: Planes, places: u32) -> Planes
        requires low { IsBelow low places }
        requires places { places < 128 }
        ensures { (i : ℕ) → i < 128 →
            plane_bit result i ≡ (if nat_lt i places then plane_bit low i else plane_bit self (i - places)) }
    {
        Planes {
            ones: stacked(self.ones, low.ones, places),
            unknown: stacked(self.unknown, low.unknown, places),
        }
    }

    /// The bits, and `fill` at every place from `from` on.
    pub fn filled(self, from: u32, fill: Bit) -> Planes
        requires { IsBelow self from }
        ensures { (i : ℕ) → i < 128 → plane_bit result i ≡ (if nat_lt i from then plane_bit self i else fill) }
    {
        match fill {
            Bit::Zero => self,
            Bit::One => Planes {
                ones: set_from(self.ones, from),
                unknown: self.unknown,
            },
            Bit::Z => Planes {
                ones: self.ones,
                unknown: set_from(self.unknown, from),
            },
            Bit::X => Planes {
                ones: set_from(self.ones, from),
                unknown: set_from(self.unknown, from),
            },
        }
    }
}

/// 1 at each of the low places.
pub fn low_ones(places: u32) -> u128
    requires some { 1 ≤ places }
    requires most { places ≤ 128 }
    ensures { result ≡ 2 ^ places - 1 }
{
    u128::MAX >> (128 - places)
}
