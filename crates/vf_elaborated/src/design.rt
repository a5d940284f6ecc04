ghost use Rattle.std.specs.Prelude.{◌≡◌, ◌<◌, ◌+◌, length, IfOk};
ghost use Rattle.std.specs.Option.{option_map};
ghost use Rattle.vf_elaborated.specs.Elaborated.{Elaborated};
ghost use Rattle.vf_elaborated.specs.WellFormed.{IsWellFormed};
ghost use Rattle.vf_elaborated.specs.Layout.{IsElement, address_of};
ghost use Rattle.vf_elaborated.specs.Drivers.{target_of, driver_widths};
ghost use Rattle.vf_elaborated.specs.Addresses.{thread_at, driver_at, slot_at, link_at, has_wide, word_count};
ghost use Rattle.vf_elaborated.specs.Tables.{watchers_of, drivers_of};

use crate::layout::{FRONT_WORDS, PROCESS_WORDS};
use crate::lists::Lists;
use crate::places::{Places, places_for, slot_size, value_size};
use crate::tables::{drivers_by_net, watchers};
use crate::{Expr, Instr, Target};
use sqlite_items::Items;
use std::alloc::Global;
use std::marker::Model;
use vf_base::{Memory, SigNo, Text};
use vf_format::Form;

/// A variable or a net of the design (clauses 4.2, 4.3 and 4.9).
#[derive(Debug, Drop)]
pub struct Signal {
    /// Its name from the top module on, with dots.
    pub name: Text,
    /// The bits of an element, from 1 to 128.
    pub width: u32,
    pub signed: bool,
    /// The bounds of its range as they are declared; a scalar has `[0:0]`.
    pub left: i64,
    pub right: i64,
    /// How many elements it has; 1 where it is no memory.
    pub elements: u32,
    /// The lowest address of a memory; 0 where it is none.
    pub first: i64,
    /// Whether it is declared with a range of addresses.
    pub memory: bool,
    /// Whether it is a net, and no variable.
    pub net: bool,
}

/// A process: an `initial`, an `always`, or a continuous assignment (clauses 6.1 and 9.9).
#[derive(Drop)]
pub struct Process {
    pub code: Items<Instr>,
    /// The number of its driver, where it is a continuous assignment.
    pub driver: Option<u32>,
}

impl Process {
    /// What it drives, where it is a continuous assignment (clause 6.1).
    pub fn target(&self) -> Option<&Target>
        ensures { option_map (λ target. target.now) result ≡ target_of self.now }
    {
        match self.code.as_slice() {
            [Instr::Drive(target, _), ..] => Some(target),
            _ => None,
        }
    }
}

/// A part of what a task prints (clause 17.1.1).
#[derive(Drop)]
pub enum Piece {
    /// Bytes as they stand.
    Plain(Text),
    /// A value in a form; `least` asks for the least width.
    Value {
        form: Form,
        least: bool,
        value: Expr,
    },
}

/// What a call of a task prints.
#[derive(Drop)]
pub struct Show {
    pub pieces: Items<Piece>,
    /// Whether a newline follows.
    pub line: bool,
}

/// An elaborated design. It keeps in its type that it is well formed, and beside its parts what follows from them.
#[derive(Drop)]
pub struct Design {
    /// The name of the top module.
    pub top: Text,
    pub signals: Items<Signal>,
    pub processes: Items<Process>,
    pub shows: Items<Show>,
    /// How many event slots a state has, from 1 to 16,384: the most updates and strobes that wait at once.
    pub slots: u32,
    /// How many processes are continuous assignments.
    pub drivers: u32,
    /// Where the parts of a state stand.
    places: Places,
    /// The processes that can wait for each signal.
    waiting: Lists,
    /// The processes that drive each net.
    driving: Lists,
}

// Clauses see the parts as plain data.
impl Model for Design {
    ghost use Rattle.vf_elaborated.specs.Elaborated.{Elaborated};

    ghost Value = { Elaborated };

    ghost use Rattle.std.specs.Coded.{codes};
    ghost use Rattle.vf_elaborated.specs.contracts.expr.Expr as e;

    ghost coded = { Prim.hlevel (codes, e.the_row.coded) };

    ghost use Rattle.vf_elaborated.specs.Inner.{elaborated_of, IsKept};

    ghost view = { elaborated_of };

    ghost invariant = { IsKept };
}

impl Design {
    /// A design from its parts. The only refusal is that it is out of memory.
    pub fn new(
        alloc: Global,
        top: Text,
        signals: Items<Signal>,
        processes: Items<Process>,
        shows: Items<Show>,
        slots: u32,
        drivers: u32,
    ) -> Result<Design, Memory>
        requires { IsWellFormed (record { top = top; signals = signals; processes = processes; shows = shows; slots = slots; drivers = drivers }) }
        ensures { IfOk result (λ design. design ≡ record { top = top; signals = signals; processes = processes; shows = shows; slots = slots; drivers = drivers }) }
    {
        let places = places_for(alloc, signals.as_slice(), processes.as_slice(), slots)?;
        let waiting = watchers(alloc, signals.len(), processes.as_slice())?;
        let driving = drivers_by_net(alloc, signals.len(), processes.as_slice())?;
        Ok(Design {
            top,
            signals,
            processes,
            shows,
            slots,
            drivers,
            places,
            waiting,
            driving,
        })
    }

    /// The address of the first word of a signal's element, in words from 0.
    pub fn address_of(&self, sig: SigNo, element: u32) -> u32
        requires { IsElement self.now sig.0 element }
        ensures { result ≡ address_of self.now sig.0 element }
    {
        let signal = &self.signals.as_slice()[sig.0 as usize];
        self.places.signals.as_slice()[sig.0 as usize] + element * value_size(signal.width)
    }

    /// The address of the first word of a process, in words from 0: its place. Its status, link and time follow.
    pub fn thread_at(&self, process: u32) -> u32
        requires { process < length self.now.processes }
        ensures { result ≡ thread_at process }
    {
        // A design has few processes.
        let _count = self.processes.len();
        FRONT_WORDS + PROCESS_WORDS * process
    }

    /// The address of the first word of a driver, in words from 0.
    pub fn driver_at(&self, driver: u32) -> u32
        requires { driver < length (driver_widths self.now) }
        ensures { result ≡ driver_at self.now driver }
    {
        self.places.drivers.as_slice()[driver as usize]
    }

    /// The address of the first word of an event slot, in words from 0: its kind.
    pub fn slot_at(&self, slot: u32) -> u32
        requires { slot < self.now.slots }
        ensures { result ≡ slot_at self.now slot }
    {
        self.places.slots + slot_size(self.places.wide) * slot
    }

    /// The address of the link of an event, by its number: the processes are numbered first, then the slots.
    pub fn link_at(&self, number: u32) -> u32
        requires { number < length self.now.processes + self.now.slots }
        ensures { result ≡ link_at self.now number }
    {
        let processes = self.processes.len() as u32;
        if number < processes {
            return self.thread_at(number) + 2;
        }
        self.slot_at(number - processes) + 1
    }

    /// The processes that can wait for a signal, in number order: by an event control on it, or by a `wait` or a continuous assignment
    /// whose expression reads it (clauses 6.1, 9.7.2 and 9.7.6).
    pub fn watchers(&self, sig: SigNo) -> &[u32]
        requires { sig.0 < length self.now.signals }
        ensures { result.now ≡ watchers_of self.now sig.0 }
    {
        self.waiting.at(sig.0 as usize)
    }

    /// The processes that drive a net, in number order (clause 6.1).
    pub fn drivers_of(&self, net: SigNo) -> &[u32]
        requires { net.0 < length self.now.signals }
        ensures { result.now ≡ drivers_of self.now net.0 }
    {
        self.driving.at(net.0 as usize)
    }

    /// Whether some signal is above 64 bits, so that a slot has four words for its value, and not two.
    pub fn has_wide(&self) -> bool
        ensures { result ≡ has_wide self.now }
    {
        self.places.wide
    }

    /// How many words a state has: whole pages.
    pub fn word_count(&self) -> u32
        ensures { result ≡ word_count self.now }
    {
        self.places.words
    }
}
