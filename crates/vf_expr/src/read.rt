//! Values in the words of a state (docs/LANGUAGE.md, "The words of a state").
ghost use Rattle.std.specs.Prelude.{◌≡◌, ◌+◌, ◌<◌, length, [], Some, slice_get, slice_index_or};
ghost use Rattle.vf_elaborated.specs.Values.{read_of};
ghost use Rattle.vf_elaborated.specs.Layout.{value_at, plane_at, IsElement, HoldsValues, scene_at};
ghost use Rattle.vf_expr.specs.Reads.{element_in, Reaches, IsReadable};

use crate::places::element;
use vf_base::SigNo;
use vf_elaborated::{Design, Signal};
use vf_fours::Fours;
use vf_machine::Words;

/// One plane of a value: 64 bits, or 128 where the value is wide.
fn plane<W: Words>(words: &W, width: u32, at: u32) -> u128
    requires { Reaches (W.contents words.now) width at }
    ensures { result ≡ plane_at (W.contents words.now) width at }
{
    let low = u128::from(words.read(at));
    if 64 < width {
        low + (u128::from(words.read(at + 2)) << 64)
    } else {
        low
    }
}

/// The value of a signal that stands at an address.
fn value_from<W: Words>(words: &W, signal: &Signal, at: u32) -> Fours
    requires { IsReadable (W.contents words.now) signal.now at }
    ensures { result ≡ record { bits = value_at (W.contents words.now) signal.now.width at; signed = signal.now.signed } }
{
    let ones = plane(words, signal.width, at);
    let unknown = plane(words, signal.width, at + 1);
    Fours::new(signal.width, signal.signed, ones, unknown)
}

/// The value of a signal's element.
pub fn value<W: Words>(design: &Design, words: &W, sig: SigNo, element: u32) -> Fours
    requires element { IsElement design.now sig.0 element }
    requires held { HoldsValues design.now (W.contents words.now) }
    ensures { result ≡ element_in design.now (W.contents words.now) sig.0 element }
{
    let signal = &design.signals.as_slice()[sig.0 as usize];
    value_from(words, signal, design.address_of(sig, element))
}

/// The value of the element at a declared address; x where there is none.
pub fn value_by<W: Words>(design: &Design, words: &W, sig: SigNo, address: Fours) -> Fours
    requires signal { sig.0 < length design.now.signals }
    requires held { HoldsValues design.now (W.contents words.now) }
    ensures { result ≡ read_of (slice_get design.now.signals sig.0) (slice_index_or (scene_at design.now (W.past_end words.now) (W.contents words.now)).values sig.0 []) (Some address) }
{
    let signal = &design.signals.as_slice()[sig.0 as usize];
    match element(signal, address) {
        Some(element) => value(design, words, sig, element),
        None => Fours::all_x(signal.width, signal.signed),
    }
}
