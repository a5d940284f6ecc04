ghost use Rattle.std.specs.Prelude.{◌≡◌, false, [], Some, slice_get};
ghost use Rattle.vf_size.specs.Names.{base_of, entry_base, signal_base, parameter};

use crate::{Shape, SizeFault, SizeKind};
use vf_base::{Place, SigNo};
use vf_elaborated::Signal;
use vf_fours::Fours;
use vf_scope::{Entry, Scope};
use vf_tree::Name;

/// What a name stands for in an expression: the shape of its value, and the bounds of its declaration.
#[derive(Clone, Copy, Debug)]
pub(crate) struct Base {
    pub(crate) shape: Shape,
    pub(crate) left: i64,
    pub(crate) right: i64,
    pub(crate) memory: bool,
}

/// A fault of a kind at a place.
pub(crate) fn fault(kind: SizeKind, place: Place) -> SizeFault
    ensures { result ≡ record { kind = kind; place = place } }
{
    SizeFault { kind, place }
}

fn variable(signal: &Signal, place: Place) -> Result<Base, SizeFault>
    ensures { result ≡ signal_base false (record { text = []; place = place }) (Some signal.now) }
{
    if signal.width == 0 || 128 < signal.width {
        return Err(fault(SizeKind::Width, place));
    }
    Ok(Base {
        shape: Shape::new(signal.width, signal.signed),
        left: signal.left,
        right: signal.right,
        memory: signal.memory,
    })
}

fn signal_base(
    signals: &[Signal],
    constant: bool,
    name: &Name,
    sig: SigNo,
) -> Result<Base, SizeFault>
    ensures { result ≡ signal_base constant name.now (slice_get signals.now sig.0) }
{
    let Some(signal) = signals.get(sig.0 as usize) else {
        return Err(fault(SizeKind::UnknownName, name.place));
    };
    if constant {
        return Err(fault(SizeKind::NotConstant, name.place));
    }
    variable(signal, name.place)
}

fn parameter(value: Fours, left: i64, right: i64) -> Base
    ensures { result ≡ parameter value left right }
{
    Base {
        shape: Shape::of(value),
        left,
        right,
        memory: false,
    }
}

fn entry_base(
    signals: &[Signal],
    constant: bool,
    name: &Name,
    entry: Entry,
) -> Result<Base, SizeFault>
    ensures { result ≡ entry_base signals.now constant name.now (Some entry) }
{
    match entry {
        Entry::Signal(sig) => signal_base(signals, constant, name, sig),
        Entry::Constant { value, left, right } => Ok(parameter(value, left, right)),
    }
}

/// What a name stands for.
pub(crate) fn look_up(
    scope: &Scope,
    signals: &[Signal],
    constant: bool,
    name: &Name,
) -> Result<Base, SizeFault>
    ensures { result ≡ base_of scope.now signals.now constant name.now }
{
    match scope.find(name.text.bytes()) {
        None => Err(fault(SizeKind::UnknownName, name.place)),
        Some(entry) => entry_base(signals, constant, name, entry),
    }
}
