//! Which bits of a value a select takes (IEEE Std 1364-2005, 5.2.1).
ghost use Rattle.std.specs.Prelude.{◌≡◌, true, ◌≤◌, ◌+◌, ◌^◌, ◌<◌, Option, None, Some, neg_ℤ, pos, ◌-ℤ◌, ◌≤ℤ◌, unsigned_abs, IfSome};
ghost use Rattle.vf_fours.specs.Numbers.{narrower};
ghost use Rattle.vf_elaborated.specs.Shapes.{is_scale};
ghost use Rattle.vf_size.specs.Selects.{is_descending, is_against, scale_of, shift_of, part_with, bit_part, up_part, down_part, range_part, width_in};

use crate::Shape;
use crate::base::Base;

/// The bits of a select: how many, and where the least stands. An index `i` is the place `i + shift` in a range that counts down, and
/// `shift - i` in any other.
#[derive(Clone, Copy, Debug)]
pub(crate) struct Part {
    pub(crate) shape: Shape,
    pub(crate) descending: bool,
    pub(crate) shift: i64,
}

/// One more than the greatest `i64`.
const I64_HALF: i128 = 1 << 63;

/// The number, where it fits.
fn narrowed(number: i128) -> Option<i64>
    ensures { result ≡ narrower number }
{
    if -I64_HALF <= number && number < I64_HALF {
        Some(number as i64)
    } else {
        None
    }
}

fn is_descending(left: i64, right: i64) -> bool
    ensures { result ≡ is_descending left right }
{
    right <= left
}

fn shift(left: i64, right: i64, up: u32, down: u32) -> Option<i64>
    requires up { up ≤ 128 }
    requires down { down ≤ 128 }
    ensures { result ≡ shift_of left right up down }
{
    if is_descending(left, right) {
        narrowed(-i128::from(right) - i128::from(down))
    } else {
        narrowed(i128::from(right) - i128::from(up))
    }
}

fn part_with(left: i64, right: i64, width: u32, shift: Option<i64>) -> Option<Part>
    requires some { 1 ≤ width }
    requires most { width ≤ 128 }
    ensures { result ≡ part_with left right width shift }
{
    match shift {
        None => None,
        Some(shift) => Some(Part {
            shape: Shape::new(width, false),
            descending: is_descending(left, right),
            shift,
        }),
    }
}

/// `[index]`.
#[tactic(auto, unfolding(crate::specs::Selects::bit_part))]
pub(crate) fn bit_part(left: i64, right: i64) -> Option<Part>
    ensures { result ≡ bit_part left right }
{
    part_with(left, right, 1, shift(left, right, 0, 0))
}

/// A width from 1 to 128.
fn width_in(number: i128) -> Option<u32>
    ensures value { result ≡ width_in number }
    ensures some { IfSome result (λ width. 1 ≤ width) }
    ensures most { IfSome result (λ width. width ≤ 128) }
{
    if 1 <= number && number <= 128 {
        Some(number as u32)
    } else {
        None
    }
}

/// `[base+:width]`.
#[tactic(auto, unfolding(crate::specs::Selects::up_part))]
pub(crate) fn up_part(left: i64, right: i64, width: i64) -> Option<Part>
    ensures { result ≡ up_part left right width }
{
    match width_in(i128::from(width)) {
        None => None,
        Some(width) => part_with(left, right, width, shift(left, right, width - 1, 0)),
    }
}

/// `[base-:width]`.
#[tactic(auto, unfolding(crate::specs::Selects::down_part))]
pub(crate) fn down_part(left: i64, right: i64, width: i64) -> Option<Part>
    ensures { result ≡ down_part left right width }
{
    match width_in(i128::from(width)) {
        None => None,
        Some(width) => part_with(left, right, width, shift(left, right, 0, width - 1)),
    }
}

/// Whether a part select runs against the declaration.
fn is_against(left: i64, right: i64, first: i64, last: i64) -> bool
    ensures { result ≡ is_against left right first last }
{
    if is_descending(left, right) {
        first < last
    } else {
        last < first
    }
}

/// How many indices lie from one to the other, both included; from 1 to 128.
fn span(first: i64, last: i64) -> Option<u32>
    ensures value { result ≡ width_in (pos (unsigned_abs (first -ℤ last) + 1)) }
{
    width_in((i128::from(first) - i128::from(last)).abs() + 1)
}

/// `[first:last]`.
#[tactic(auto, unfolding(crate::specs::Selects::range_part))]
pub(crate) fn range_part(left: i64, right: i64, first: i64, last: i64) -> Option<Part>
    ensures { result ≡ range_part left right first last }
{
    if is_against(left, right, first, last) {
        return None;
    }
    match span(first, last) {
        None => None,
        Some(width) => part_with(left, right, width, shift(left, right, 0, 0)),
    }
}

impl Part {
    /// 1 or -1.
    pub(crate) fn scale(&self) -> i64
        ensures value { result ≡ scale_of self.now.descending }
        ensures scale { is_scale result ≡ true }
    {
        if self.descending { 1 } else { -1 }
    }
}

/// The bits of `[index]` of a name.
pub(crate) fn bit_of(base: &Base) -> Option<Part>
    ensures { result ≡ bit_part base.now.left base.now.right }
{
    bit_part(base.left, base.right)
}

/// The bits of `[base+:width]` of a name.
pub(crate) fn up_of(base: &Base, width: i64) -> Option<Part>
    ensures { result ≡ up_part base.now.left base.now.right width }
{
    up_part(base.left, base.right, width)
}

/// The bits of `[base-:width]` of a name.
pub(crate) fn down_of(base: &Base, width: i64) -> Option<Part>
    ensures { result ≡ down_part base.now.left base.now.right width }
{
    down_part(base.left, base.right, width)
}

/// The bits of `[first:last]` of a name.
pub(crate) fn range_of(base: &Base, first: i64, last: i64) -> Option<Part>
    ensures { result ≡ range_part base.now.left base.now.right first last }
{
    range_part(base.left, base.right, first, last)
}
