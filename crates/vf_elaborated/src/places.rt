//! The addresses that a design keeps, so that each is found at once (docs/LANGUAGE.md, "The words of a state").
ghost use Rattle.std.specs.Prelude.{◌≡◌, ◌+◌, ◌*◌, ◌<◌, ◌≤◌, ◌^◌, [], if◌then◌else◌, IfOk};
ghost use Rattle.std.specs.List.{All, list_any, sum_by};
ghost use Rattle.vf_elaborated.specs.Shapes.{WIDEST};
ghost use Rattle.vf_elaborated.specs.WellFormed.{target_width};
ghost use Rattle.vf_elaborated.specs.Layout.{value_size, places_from, end_from};
ghost use Rattle.vf_elaborated.specs.Drivers.{target_of, width_of, driver_widths};
ghost use Rattle.vf_elaborated.specs.Addresses.{is_wide, slots_begin};
ghost use Rattle.vf_elaborated.specs.Places.{starts_from, places_for, laid};

use crate::layout::{FRONT_WORDS, PROCESS_WORDS};
use crate::{Process, Signal, Target};
use sqlite_items::Items;
use std::alloc::Global;
use vf_base::{Memory, PAGE_WORDS};

/// Where the parts of a state stand.
#[derive(Debug, Drop)]
pub struct Places {
    /// The first word of each signal.
    pub signals: Items<u32>,
    /// The first word of each driver.
    pub drivers: Items<u32>,
    /// The first word of the slots.
    pub slots: u32,
    /// Whether a slot has room for a value above 64 bits.
    pub wide: bool,
    /// How many words there are.
    pub words: u32,
}

/// The places in the states of a design with these parts.
pub fn places_for(
    alloc: Global,
    signals: &[Signal],
    processes: &[Process],
    slots: u32,
) -> Result<Places, Memory>
    requires few { slots_begin (laid signals.now processes.now slots) + 10 * slots + 64 < 2 ^ 32 }
    requires narrow { All (λ process. width_of (target_of process) ≤ WIDEST) processes.now }
    ensures { IfOk result (λ places. places ≡ places_for (laid signals.now processes.now slots)) }
{
    let begin = FRONT_WORDS + PROCESS_WORDS * processes.len() as u32;
    let (signal_places, drivers_begin) = signal_places(alloc, begin, signals)?;
    let (driver_places, slots_begin) = driver_places(alloc, drivers_begin, processes)?;
    let wide = has_wide(signals);
    let used = slots_begin + slot_size(wide) * slots;
    Ok(Places {
        signals: signal_places,
        drivers: driver_places,
        slots: slots_begin,
        wide,
        words: PAGE_WORDS * ((used + (PAGE_WORDS - 1)) / PAGE_WORDS),
    })
}

/// How many words a value of a width has.
pub fn value_size(width: u32) -> u32
    ensures { result ≡ value_size width }
{
    if 64 < width { 4 } else { 2 }
}

/// How many words a slot has.
pub fn slot_size(wide: bool) -> u32
    ensures { result ≡ (if wide then 10 else 8) }
{
    if wide { 10 } else { 8 }
}

/// Whether some signal is above 64 bits.
fn has_wide(signals: &[Signal]) -> bool
    ensures { result ≡ list_any (λ signal. is_wide signal.width) signals.now }
{
    signals.iter().any(|signal| 64 < signal.width)
}

/// The first word of each signal, the first signal at an address, and the word after them.
fn signal_places(alloc: Global, begin: u32, signals: &[Signal]) -> Result<(Items<u32>, u32), Memory>
    requires few { end_from begin signals.now < 2 ^ 32 }
    ensures places { IfOk result (λ found. found.0 ≡ places_from begin signals.now) }
    ensures end { IfOk result (λ found. found.1 ≡ end_from begin signals.now) }
{
    let mut places = Items::new(alloc);
    let mut at = begin;
    for signal in signals {
        places.push(at)?;
        at += signal.elements * value_size(signal.width);
    }
    Ok((places, at))
}

/// The first word of each driver, the first driver at an address, and the word after them.
fn driver_places(
    alloc: Global,
    begin: u32,
    processes: &[Process],
) -> Result<(Items<u32>, u32), Memory>
    requires few { begin + sum_by value_size (driver_widths (laid [] processes.now 0)) < 2 ^ 32 }
    requires narrow { All (λ process. width_of (target_of process) ≤ WIDEST) processes.now }
    ensures places { IfOk result (λ found. found.0 ≡ starts_from begin (driver_widths (laid [] processes.now 0))) }
    ensures end { IfOk result (λ found. found.1 ≡ begin + sum_by value_size (driver_widths (laid [] processes.now 0))) }
{
    let mut places = Items::new(alloc);
    let mut at = begin;
    for process in processes {
        if process.driver.is_some() {
            places.push(at)?;
            at += value_size(driver_width(process));
        }
    }
    Ok((places, at))
}

/// How many bits a process drives.
fn driver_width(process: &Process) -> u32
    requires { width_of (target_of process.now) ≤ WIDEST }
    ensures { result ≡ width_of (target_of process.now) }
{
    match process.target() {
        Some(target) => target_width(target),
        None => 0,
    }
}

/// The bits of all pieces together.
fn target_width(target: &Target) -> u32
    requires { target_width target.now ≤ WIDEST }
    ensures { result ≡ target_width target.now }
{
    let mut width = 0;
    for piece in target.0.as_slice() {
        width += piece.width;
    }
    width
}
