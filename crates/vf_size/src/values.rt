//! Values of parts of constants.
ghost use Rattle.std.specs.Prelude.{◌≡◌, ◌≤◌, ◌*◌, ◌+◌, if◌then◌else◌, true, length, false};
ghost use Rattle.vf_fours.specs.Operators.{truth_of};
ghost use Rattle.vf_elaborated.specs.Values.{picked_of};
ghost use Rattle.vf_scope.specs.Names.{find};
ghost use Rattle.vf_size.specs.Worths.{constant_as, part_worth, repeated_bits, below};

use crate::base::fault;
use crate::part::Part;
use crate::{SizeFault, SizeKind};
use vf_expr::selected;
use vf_fours::{Bit, Fours};
use vf_scope::{Entry, Scope};
use vf_tree::Name;

fn entry_value(name: &Name, entry: Entry) -> Result<Fours, SizeFault>
    ensures { result ≡ constant_as name.now (Some entry) }
{
    match entry {
        Entry::Signal(_) => Err(fault(SizeKind::NotConstant, name.place)),
        Entry::Constant { value, .. } => Ok(value),
    }
}

/// The value of a parameter.
pub(crate) fn constant_value(scope: &Scope, name: &Name) -> Result<Fours, SizeFault>
    ensures { result ≡ constant_as name.now (find scope.now name.now.text) }
{
    match scope.find(name.text.bytes()) {
        None => Err(fault(SizeKind::UnknownName, name.place)),
        Some(entry) => entry_value(name, entry),
    }
}

/// The bits of a select.
#[tactic(auto, using(crate::proofs::Times::selected_long))]
pub(crate) fn part_value(of: Fours, part: &Part, index: Fours) -> Fours
    ensures value { result ≡ part_worth of part.now index }
    ensures width { length result.bits ≡ part.now.shape.width }
{
    selected(of, index, part.scale(), part.shift, part.shape.width())
}

/// The conditional operator.
pub(crate) fn picked(cond: Fours, yes: Fours, no: Fours) -> Fours
    requires { length yes.bits ≡ length no.bits }
    ensures value { result ≡ picked_of (truth_of cond.bits) yes no }
    ensures width { length result.bits ≡ length yes.bits }
{
    match cond.truth() {
        Bit::One => yes,
        Bit::Zero => no,
        Bit::X => yes.merge(no),
        Bit::Z => yes.merge(no),
    }
}

/// A value so many times, one above the other.
pub(crate) fn repeated(n: u32, value: Fours) -> Fours
    requires some { 1 ≤ n }
    requires most { n * length value.bits ≤ 128 }
    ensures value { result ≡ record { bits = repeated_bits n value.bits; signed = false } }
    ensures width { length result.bits ≡ n * length value.bits }
{
    if n == 1 {
        return value.marked(false);
    }
    value.concat(repeated(n - 1, value))
}

/// A value below the others, where there are some and they have room.
pub(crate) fn below(some: bool, all: Fours, value: Fours) -> Fours
    ensures value { (some ≡ true → length all.bits + length value.bits ≤ 128) → result ≡ below some all value }
    ensures width { (some ≡ true → length all.bits + length value.bits ≤ 128) → length result.bits ≡ (if some then length all.bits else 0) + length value.bits }
{
    if !some {
        return value.marked(false);
    }
    if 128 < all.width() + value.width() {
        return all;
    }
    all.concat(value)
}
