ghost use Rattle.std.specs.Prelude.{◌≡◌, ℕ, ◌<◌, ◌^◌, Option, IfSome};
ghost use Rattle.vf_design.specs.Program.{IsWellFormed};
ghost use Rattle.vf_design.specs.State as model;
ghost use Rattle.vf_design.specs.State.{IsSound};
ghost use Rattle.vf_design.specs.Step.{instruction, is_at_read};
ghost use Rattle.vf_design.specs.Words.{words_of, status_word, ones_word, unknown_word};
ghost use Rattle.vf_design.specs.Turn.{HoldsState};
ghost use Rattle.vf_kernel.specs.State.{state_of, status_of};

use vf_design::layout::{ONES, PLACE, PROCESSES, STATUS, UNKNOWN, VALUES};
use vf_design::{Design, Instr, Words};

/// Where the process stands in the event queue.
#[derive(Clone, Copy)]
pub enum Status {
    Halted,
    Active,
    Running,
}

/// The state that the words hold, read once for a turn.
#[derive(Clone, Copy)]
pub struct State {
    pub place: u32,
    pub status: Status,
    /// The 32 bits of the variable, or `None` where it is x.
    pub value: Option<u32>,
}

impl State {
    /// Reads the state. The words of a sound state tell it.
    pub fn read<W: Words>(design: &Design, words: &W) -> State
        requires { HoldsState design.now (W.contents words.now) }
        ensures state { (s : model.State) → IsSound design.now s → words_of design.now s ≡ W.contents words.now → state_of result ≡ s }
        ensures formed { IsWellFormed design.now }
    {
        // A place is in the code, whose length has a limit.
        let _code = &design.code;
        State {
            place: words.read(PROCESSES + PLACE) as u32,
            status: status_of(words.read(PROCESSES + STATUS)),
            value: value_of(words.read(VALUES + ONES), words.read(VALUES + UNKNOWN)),
        }
    }

    /// Whether the next turn reads the stimulus.
    pub fn reads(self, design: &Design) -> bool
        requires { IsSound design.now (state_of self) }
        ensures { result ≡ is_at_read (state_of self).status (instruction design.now (state_of self)) }
    {
        match self.status {
            Status::Running => is_getc(design.code[self.place as usize]),
            _ => false,
        }
    }
}

fn is_getc(instr: Instr) -> bool
    ensures { result ≡ is_at_read model.running (Some instr) }
{
    match instr {
        Instr::Getc => true,
        _ => false,
    }
}

fn status_of(word: u64) -> Status
    ensures { (status : model.Status) → word ≡ status_word status → status_of result ≡ status }
{
    match word {
        0 => Status::Halted,
        2 => Status::Active,
        _ => Status::Running,
    }
}

fn value_of(ones: u64, unknown: u64) -> Option<u32>
    requires { (value : Option ℕ) × IfSome value (λ n. n < 2 ^ 32) × (ones ≡ ones_word value) × (unknown ≡ unknown_word value) }
    ensures { (value : Option ℕ) → ones ≡ ones_word value → unknown ≡ unknown_word value → result ≡ value }
{
    if unknown == 0 {
        Some(ones as u32)
    } else {
        None
    }
}
