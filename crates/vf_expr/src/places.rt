//! Which element of a memory, and which bits, an index means (IEEE Std 1364-2005, 5.2).
ghost use Rattle.std.specs.Prelude.{◌≡◌, ◌^◌, true, Some, pos, ◌*ℤ◌, ◌≤ℤ◌, neg_ℤ};
ghost use Rattle.std.specs.Option.{option_and_then};
ghost use Rattle.vf_fours.specs.Numbers.{narrower};
ghost use Rattle.vf_elaborated.specs.Shapes.{is_scale};
ghost use Rattle.vf_elaborated.specs.Values.{low_of, element_of, inside};
ghost use Rattle.vf_expr.specs.Near.{is_near, placed_at, near_place};

use vf_elaborated::Signal;
use vf_fours::Fours;

/// An index of this size or above means no place that fits an `i64`.
const FAR: i128 = 1 << 65;

/// One more than the greatest `i64`.
const I64_HALF: i128 = 1 << 63;

/// The number, where it fits.
fn narrowed(number: i128) -> Option<i64>
    ensures { result ≡ narrower number }
{
    if -I64_HALF <= number && number < I64_HALF {
        Some(number as i64)
    } else {
        None
    }
}

/// A number times 1 or -1.
fn scaled(scale: i64, number: i128) -> i128
    requires scale { is_scale scale ≡ true }
    requires near { is_near number ≡ true }
    ensures value { result ≡ scale *ℤ number }
    ensures near { is_near result ≡ true }
{
    if scale < 0 { -number } else { number }
}

/// The place of a near index.
fn placed(number: i128, scale: i64, shift: i128) -> Option<i64>
    requires near { is_near number ≡ true }
    requires scale { is_scale scale ≡ true }
    requires least { neg_ℤ (pos (2 ^ 63)) ≤ℤ shift }
    requires greatest { shift ≤ℤ pos (2 ^ 63) }
    ensures { result ≡ placed_at scale shift number }
{
    narrowed(scaled(scale, number) + shift)
}

/// The place of an index, where it is not far.
fn placed_near(number: Option<i128>, scale: i64, shift: i128) -> Option<i64>
    requires scale { is_scale scale ≡ true }
    requires least { neg_ℤ (pos (2 ^ 63)) ≤ℤ shift }
    requires greatest { shift ≤ℤ pos (2 ^ 63) }
    ensures { result ≡ option_and_then (near_place scale shift) number }
{
    match number {
        Some(number) if -FAR < number && number < FAR => placed(number, scale, shift),
        _ => None,
    }
}

/// The place `scale * index + shift`, `scale` being 1 or -1. None where a bit of the index is x or z, or where the place does not fit.
#[tactic(auto, using(crate::proofs::PlaceLemmas::place_is))]
pub fn place(index: Fours, scale: i64, shift: i128) -> Option<i64>
    requires scale { is_scale scale ≡ true }
    requires least { neg_ℤ (pos (2 ^ 63)) ≤ℤ shift }
    requires greatest { shift ≤ℤ pos (2 ^ 63) }
    ensures { result ≡ option_and_then narrower (low_of scale shift index) }
{
    placed_near(index.to_i128(), scale, shift)
}

/// The place, where it is below the bound.
fn below(at: Option<i64>, bound: u32) -> Option<u32>
    ensures { result ≡ option_and_then (inside bound) at }
{
    match at {
        Some(at) if 0 <= at && at < i64::from(bound) => Some(at as u32),
        _ => None,
    }
}

/// Which element of a signal has the declared address, counted from 0. None where a bit of the address is x or z, or where it
/// is outside.
#[tactic(auto, using(crate::proofs::PlaceLemmas::element_is))]
pub fn element(signal: &Signal, address: Fours) -> Option<u32>
    ensures { result ≡ element_of signal.now (Some address) }
{
    below(
        place(address, 1, -i128::from(signal.first)),
        signal.elements,
    )
}
