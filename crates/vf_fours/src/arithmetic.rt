//! Numbers: what known bits stand for, and the arithmetic operators.
ghost use Rattle.std.specs.Prelude.{◌≡◌, ℕ, ◌^◌, ◌<◌, ◌≤◌, true, length, Some, None, if◌then◌else◌, pos, unsigned_abs};
ghost use Rattle.std.specs.Option.{option_and_then};
ghost use Rattle.vf_fours.specs.Bits.{all_known};
ghost use Rattle.vf_fours.specs.Numbers.{number, integer, is_below_zero, with_sign, residue, u128_of, i64_of, i128_of, narrower};
ghost use Rattle.vf_fours.specs.Operators.{add_of, sub_of, mul_of, div_of, rem_of, neg_of};

use crate::Fours;
use crate::planes::low_ones;

/// One more than the greatest `i64`.
const I64_HALF: i128 = 1 << 63;

/// One more than the greatest `i128`.
const I128_HALF: u128 = 1 << 127;

/// A number, or its opposite, modulo 2^128.
fn with_sign(negative: bool, number: u128) -> u128
    ensures { (w : ℕ) → w ≤ 128 → residue w (pos result) ≡ residue w (with_sign negative number) }
{
    if negative {
        0u128.wrapping_sub(number)
    } else {
        number
    }
}

/// The number, where it fits.
fn narrowed(number: Option<i128>) -> Option<i64>
    ensures { result ≡ option_and_then narrower number }
{
    match number {
        Some(number) if -I64_HALF <= number && number < I64_HALF => Some(number as i64),
        _ => None,
    }
}

impl Fours {
    /// The number of known bits.
    pub(crate) fn number(self) -> u128
        requires { all_known self.bits ≡ true }
        ensures value { result ≡ number self.bits }
        ensures fits { result < 2 ^ length self.bits }
        ensures most { length self.bits ≤ 128 }
    {
        self.planes().ones
    }

    pub(crate) fn is_negative(self, signed: bool) -> bool
        ensures { result ≡ is_below_zero (integer signed self.bits) }
    {
        signed && self.top().is_one()
    }

    fn magnitude(self, signed: bool) -> u128
        requires { all_known self.bits ≡ true }
        ensures value { result ≡ unsigned_abs (integer signed self.bits) }
        ensures most { length self.bits ≤ 128 }
    {
        let number = self.number();
        if self.is_negative(signed) {
            low_ones(self.width()) - number + 1
        } else {
            number
        }
    }

    /// `a + b` modulo 2^w; all x where a bit is x or z (clause 5.1.5). Signed where both are.
    pub fn add(self, other: Fours) -> Fours
        requires { length self.bits ≡ length other.bits }
        ensures value { result ≡ add_of self other }
        ensures width { length result.bits ≡ length self.bits }
    {
        let signed = self.are_signed(other);
        if !self.are_known(other) {
            return self.with_x(signed);
        }
        self.with_number(signed, self.number().wrapping_add(other.number()))
    }

    /// `a - b` modulo 2^w; all x where a bit is x or z (clause 5.1.5). Signed where both are.
    pub fn sub(self, other: Fours) -> Fours
        requires { length self.bits ≡ length other.bits }
        ensures value { result ≡ sub_of self other }
        ensures width { length result.bits ≡ length self.bits }
    {
        let signed = self.are_signed(other);
        if !self.are_known(other) {
            return self.with_x(signed);
        }
        self.with_number(signed, self.number().wrapping_sub(other.number()))
    }

    /// `a * b` modulo 2^w; all x where a bit is x or z (clause 5.1.5). Signed where both are.
    pub fn mul(self, other: Fours) -> Fours
        requires { length self.bits ≡ length other.bits }
        ensures value { result ≡ mul_of self other }
        ensures width { length result.bits ≡ length self.bits }
    {
        let signed = self.are_signed(other);
        if !self.are_known(other) {
            return self.with_x(signed);
        }
        self.with_number(signed, self.number().wrapping_mul(other.number()))
    }

    /// `a / b`, rounded towards zero, modulo 2^w; all x where a bit is x or z or `b` is 0 (clause 5.1.5). A signed
    /// division, with a signed answer, where both operands are signed.
    pub fn div(self, other: Fours) -> Fours
        requires { length self.bits ≡ length other.bits }
        ensures value { result ≡ div_of self other }
        ensures width { length result.bits ≡ length self.bits }
    {
        let signed = self.are_signed(other);
        if !self.are_known(other) {
            return self.with_x(signed);
        }
        let divisor = other.magnitude(signed);
        if divisor == 0 {
            return self.with_x(signed);
        }
        let negative = self.is_negative(signed) != other.is_negative(signed);
        let quotient = self.magnitude(signed) / divisor;
        self.with_number(signed, with_sign(negative, quotient))
    }

    /// `a % b`, with the sign of `a`; all x where a bit is x or z or `b` is 0 (clause 5.1.5). A signed division, with
    /// a signed answer, where both operands are signed.
    pub fn rem(self, other: Fours) -> Fours
        requires { length self.bits ≡ length other.bits }
        ensures value { result ≡ rem_of self other }
        ensures width { length result.bits ≡ length self.bits }
    {
        let signed = self.are_signed(other);
        if !self.are_known(other) {
            return self.with_x(signed);
        }
        let divisor = other.magnitude(signed);
        if divisor == 0 {
            return self.with_x(signed);
        }
        let remainder = self.magnitude(signed) % divisor;
        self.with_number(signed, with_sign(self.is_negative(signed), remainder))
    }

    /// Unary `-`, modulo 2^w; all x where a bit is x or z (clause 5.1.5). The mark stays.
    pub fn neg(self) -> Fours
        ensures value { result ≡ neg_of self }
        ensures width { length result.bits ≡ length self.bits }
    {
        let signed = self.is_signed();
        if !self.is_known() {
            return self.with_x(signed);
        }
        self.with_number(signed, with_sign(true, self.number()))
    }

    /// The number of the bits, without their mark; None where a bit is x or z.
    pub fn to_u128(self) -> Option<u128>
        ensures { result ≡ u128_of self }
    {
        if self.is_known() {
            Some(self.number())
        } else {
            None
        }
    }

    /// The number by the mark; None where a bit is x or z, or where it does not fit.
    pub fn to_i128(self) -> Option<i128>
        ensures { result ≡ i128_of self }
    {
        if !self.is_known() {
            return None;
        }
        let signed = self.is_signed();
        let magnitude = self.magnitude(signed);
        if self.is_negative(signed) {
            let below = magnitude - 1;
            if below < I128_HALF {
                Some(-1 - below as i128)
            } else {
                None
            }
        } else if magnitude < I128_HALF {
            Some(magnitude as i128)
        } else {
            None
        }
    }

    /// The number by the mark; None where a bit is x or z, or where it does not fit.
    pub fn to_i64(self) -> Option<i64>
        ensures { result ≡ i64_of self }
    {
        narrowed(self.to_i128())
    }
}
