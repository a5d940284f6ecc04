//! Lists of writes at rising addresses.

ghost use Rattle.std.specs.Prelude.{◌≡◌};
ghost use Rattle.vf_pages.specs.Writes.{AreWrites};

use std::alloc::Global;
use std::marker::Model;
use vf_base::{Memory, Write};

/// Writes at rising addresses, each below a number of words. The next one is at `next` or above.
#[derive(Drop)]
pub struct Rising {
    writes: Vec<Write>,
    next: u32,
    words: u32,
}

impl Model for Rising {
    ghost use Rattle.vf_memory_tests.specs.Benches.{Counted, rising_of, IsRising};

    ghost Value = { Counted };

    ghost view = { rising_of };

    ghost invariant = { IsRising };
}

impl Rising {
    /// No write, for so many words.
    pub fn new(alloc: Global, words: u32) -> Rising {
        Rising {
            writes: Vec::new(alloc),
            next: 0,
            words,
        }
    }

    /// Adds a write, or leaves it out where its address does not rise or is not that of a word.
    pub fn add(&mut self, at: u64, word: u64) -> Result<(), Memory> {
        if at < u64::from(self.next) || at >= u64::from(self.words) {
            return Ok(());
        }
        let at = at as u32;
        self.writes.push(Write { at, word })?;
        self.next = at + 1;
        Ok(())
    }

    /// How many words there are.
    pub fn words(&self) -> u32
        ensures { result ≡ self.now.words }
    {
        self.words
    }

    pub fn as_slice(&self) -> &[Write]
        ensures { AreWrites self.now.words result.now }
    {
        self.writes.as_slice()
    }
}
