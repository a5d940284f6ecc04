ghost use Rattle.std.specs.Prelude.{◌≡◌, ◌*◌, ◌/◌, ◌<◌, length, IfOk};
ghost use Rattle.vf_base.specs.declared.write.TheConstants.{PAGE_WORDS};
ghost use Rattle.vf_machine.specs.Machine.{Machine};
ghost use Rattle.vf_design.specs.Program.{Program, word_count, IsWellFormed};
ghost use Rattle.vf_design.specs.State.{State, IsSound};
ghost use Rattle.vf_design.specs.Words.{words_of, machine_of};
ghost use Rattle.vf_design.specs.Layout.{HoldsValue};

use crate::Instr;
use crate::layout::{
    ACTIVE_HEAD, ACTIVE_TAIL, ONES, PROCESSES, SLOT_WORDS, SLOTS, STATUS, UNKNOWN, VALUES,
};
use std::alloc::Global;
use std::marker::Model;
use vf_base::{Memory, PAGE_WORDS, SigNo, Text};

/// An elaborated design: one process over one integer. It keeps in its type that it is well formed:
/// its code has 1 to 65,536 instructions and ends with a halt or a jump, each place that the code
/// names is in it, and it has 1 to 16,384 event slots.
#[derive(Debug, Drop)]
pub struct Design {
    /// The name of the top module.
    pub top: Text,
    /// The name of the integer.
    pub variable: Text,
    pub code: Vec<Instr>,
    /// How many event slots a state has.
    pub slots: u32,
}

impl Model for Design {
    ghost use Rattle.vf_design.specs.Program.{Program};

    ghost Value = { Program };

    ghost use Rattle.vf_design.specs.Inner.{program_of, IsKept};

    ghost view = { program_of };

    ghost invariant = { IsKept };
}

impl Design {
    /// The address of the first word of a signal's element, in words from 0. The bits that are 1 or x
    /// stand there, and those that are x or z in the word after it. There is one signal of one element.
    pub fn address_of(&self, sig: SigNo, element: u32) -> u32
        requires signal { sig.0 ≡ 0 }
        requires element { element ≡ 0 }
        ensures { (s : State) → IsSound self.now s → HoldsValue (words_of self.now s) result s.value }
    {
        VALUES
    }

    /// How many words a state has; they fill whole pages.
    pub fn word_count(&self) -> u32
        ensures words { (s : State) → IsSound self.now s → length (words_of self.now s) ≡ result }
        ensures pages { PAGE_WORDS * (result / PAGE_WORDS) ≡ result }
        ensures formed { IsWellFormed self.now }
    {
        self.size()
    }

    /// The words before the slots, those of the slots, and zeros up to whole pages.
    fn size(&self) -> u32
        ensures count { result ≡ word_count self.now }
        ensures formed { IsWellFormed self.now }
    {
        (SLOTS + SLOT_WORDS * self.slots).div_ceil(PAGE_WORDS) * PAGE_WORDS
    }
}

/// The words of the state at time zero.
pub fn words_at_zero(alloc: Global, design: &Design) -> Result<Vec<u64>, Memory>
    ensures words { IfOk result (λ words. words.items ≡ (machine_of design.now).words (machine_of design.now).start) }
    ensures formed { IsWellFormed design.now }
{
    let count = design.size();
    let mut words = vec![in alloc; 0u64; count as usize]?;
    words[ACTIVE_HEAD as usize] = 1;
    words[ACTIVE_TAIL as usize] = 1;
    words[(PROCESSES + STATUS) as usize] = 2;
    words[(VALUES + ONES) as usize] = 0xffff_ffff;
    words[(VALUES + UNKNOWN) as usize] = 0xffff_ffff;
    Ok(words)
}
