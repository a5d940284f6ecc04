//! Two holders of pages over one pool, and the holder that opened both.

ghost use Rattle.std.specs.Prelude.{◌≡◌, ◌≤◌, length, IfOk};
ghost use Rattle.std.specs.Arc.{arc_value};

use crate::writes::Rising;
use std::alloc::Global;
use std::marker::Model;
use std::mem;
use std::sync::Arc;
use vf_base::Memory;
use vf_frames::{Frames, PlainPool, PlainToken};
use vf_pages::{PageRefusal, Paged};

/// How many holders a walk may open.
const OPENS: u32 = 100;

/// The pool, the hand, the two holders, how many words they have, and how many more holders may be opened.
#[derive(Drop)]
pub struct Bench {
    pool: PlainPool,
    hand: PlainToken,
    first: Paged<PlainPool>,
    second: Paged<PlainPool>,
    words: u32,
    opens: u32,
}

impl Model for Bench {
    ghost use Rattle.vf_memory_tests.specs.Benches.{Counted, bench_of, IsBench};

    ghost Value = { Counted };

    ghost view = { bench_of };

    ghost invariant = { IsBench };
}

/// So many words, all 0.
fn zeros(alloc: Global, count: u32) -> Result<Arc<Vec<u64>>, Memory>
    ensures { IfOk result (λ zero. length (arc_value zero).items ≡ count) }
{
    Ok(Arc::new(alloc, vec![in alloc; 0u64; count as usize]?)?)
}

impl Bench {
    /// A pool of so many frames, and two holders at time zero of so many words.
    pub fn new(alloc: Global, frames: u32, words: u32) -> Result<Bench, Memory>
        requires { 1 ≤ frames }
    {
        let (mut pool, mut hand) = PlainPool::new(alloc, frames)?;
        let first = Paged::at_zero(alloc, &mut pool, &mut hand, zeros(alloc, words)?)?;
        let second = Paged::at_zero(alloc, &mut pool, &mut hand, zeros(alloc, words)?)?;
        Ok(Bench {
            pool,
            hand,
            first,
            second,
            words,
            opens: OPENS,
        })
    }

    /// How many words a holder has.
    pub fn words(&self) -> u32 {
        self.words
    }

    /// Writes words of the first holder.
    pub fn write(&mut self, rising: &Rising) -> Result<(), PageRefusal> {
        if rising.words() != self.words {
            return Err(PageRefusal::Memory);
        }
        self.first.write_all(&mut self.pool, rising.as_slice())
    }

    /// The word of the first holder at an address; 0 where it has none.
    pub fn read(&self, at: u64) -> u64 {
        if at < u64::from(self.words) {
            self.first.read(at as u32)
        } else {
            0
        }
    }

    /// How many pages the first holder has.
    pub fn count(&self) -> u32 {
        self.first.pages()
    }

    /// The number of the first holder's page at a place of its list, and the word at a place of the page.
    pub fn page(&self, at: u64, place: u64) -> Option<(u32, u64)> {
        if at >= u64::from(self.first.pages()) || place >= 64 {
            return None;
        }
        let (number, words) = self.first.page(at as u32);
        Some((number.0, words[place as usize]))
    }

    /// The misses of the first holder and of the hand.
    pub fn misses(&self) -> (u64, u64) {
        (self.first.misses(&self.pool), self.pool.misses(&self.hand))
    }

    /// The second holder is now the first one.
    pub fn swap(&mut self) {
        mem::swap(&mut self.first, &mut self.second);
    }

    /// The second holder is now a fork of the first.
    pub fn fork(&mut self) -> Result<(), Memory> {
        if self.opens == 0 {
            return Err(Memory);
        }
        self.opens -= 1;
        let fork = self.first.fork(&mut self.pool, &mut self.hand)?;
        let old = mem::replace(&mut self.second, fork);
        old.give_back(&mut self.pool, &mut self.hand);
        Ok(())
    }

    /// The first holder keeps what differs from the second.
    pub fn keep(&mut self) {
        self.first.keep_changed(&mut self.pool, &self.second);
    }

    /// The first holder is now its fork over the second.
    pub fn over(&mut self) -> Result<(), Memory> {
        if self.opens == 0 {
            return Err(Memory);
        }
        self.opens -= 1;
        let both = self
            .first
            .fork_over(&mut self.pool, &mut self.hand, &self.second)?;
        let old = mem::replace(&mut self.first, both);
        old.give_back(&mut self.pool, &mut self.hand);
        Ok(())
    }

    /// The second holder gives its frames back, and is at time zero.
    pub fn anew(&mut self, alloc: Global) -> Result<(), Memory> {
        if self.opens == 0 {
            return Err(Memory);
        }
        self.opens -= 1;
        let zero = zeros(alloc, self.words)?;
        let fresh = Paged::at_zero(alloc, &mut self.pool, &mut self.hand, zero)?;
        let old = mem::replace(&mut self.second, fresh);
        old.give_back(&mut self.pool, &mut self.hand);
        Ok(())
    }
}
