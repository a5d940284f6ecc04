ghost use Rattle.std.specs.Prelude.{◌≡◌, vec_len};
ghost use Rattle.vf_machine.specs.Writes.{AllInside, written};

use std::alloc::Global;
use std::marker::Model;
use vf_base::{Header, Limits, Memory, Write};
use vf_design::{Design, Turn, Words, words_at_zero};
use vf_kernel::{reads_next, turn};

/// All words of a state, and whether a read of the stimulus has gone past its end.
#[derive(Drop)]
pub struct Flat {
    pub words: Vec<u64>,
    pub past_end: bool,
}

impl Words for Flat {
    ghost contents = { λ flat. flat.words.items };

    ghost past_end = { λ flat. flat.past_end };

    fn read(&self, at: u32) -> u64 {
        self.words[at as usize]
    }

    fn past_end(&self) -> bool {
        self.past_end
    }
}

/// A run that is made turn by turn. It keeps in its type that the words are those of a sound state.
#[derive(Drop)]
pub struct Walk {
    design: Design,
    stim: Vec<u8>,
    flat: Flat,
    header: Header,
    turn: Turn,
}

impl Model for Walk {
    ghost use Rattle.vf_machine_tests.specs.Walks.{Seen, seen_of, IsWalk};

    ghost Value = { Seen };

    ghost view = { seen_of };

    ghost invariant = { IsWalk };
}

impl Walk {
    /// The run at time zero.
    pub fn new(alloc: Global, design: Design, stim: &[u8]) -> Result<Walk, Memory> {
        let words = words_at_zero(alloc, &design)?;
        let stim = Vec::from_slice(alloc, stim)?;
        Ok(Walk {
            design,
            stim,
            flat: Flat {
                words,
                past_end: false,
            },
            header: Header {
                turns: 0,
                reads: 0,
                written: 0,
            },
            turn: Turn::new(alloc),
        })
    }

    /// Performs the next turn, after which `turn` tells what it did.
    pub fn step(&mut self, limits: &Limits) -> Result<(), Memory> {
        if self.header.reads >= 1_000_000 {
            return Err(Memory);
        }
        turn(
            &self.design,
            &self.flat,
            &self.header,
            self.stim.as_slice(),
            limits,
            &mut self.turn,
        )?;
        perform(&self.turn.writes, &mut self.flat.words);
        self.header = self.turn.header;
        self.flat.past_end = self.header.reads > self.stim.len() as u64;
        Ok(())
    }

    /// Whether the next turn reads the stimulus.
    pub fn reads_next(&self) -> bool {
        reads_next(&self.design, &self.flat)
    }

    /// What the last turn did.
    pub fn turn(&self) -> &Turn {
        &self.turn
    }

    pub fn words(&self) -> &[u64] {
        self.flat.words.as_slice()
    }
}

/// Performs the writes.
fn perform(writes: &[Write], words: &mut Vec<u64>)
    requires { AllInside (vec_len words.old) writes.now }
    ensures { words.new.items ≡ written words.old.items writes.now }
{
    for write in writes {
        words[write.at as usize] = write.word;
    }
}
