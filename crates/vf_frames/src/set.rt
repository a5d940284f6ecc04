ghost use Rattle.std.specs.Prelude.{◌≡◌, ℕ, ◌+◌, ◌/◌, ◌<◌, ◌≤◌, [], true, length, ◌&&◌, ◌||◌, ◌==◌, not, slice_index, bit_or, max, IfOk, vec_len, vec_capacity};
ghost use Rattle.vf_frames.specs.Numbers.{has};
ghost use Rattle.vf_frames.specs.FrameSets.{frames_in};

use std::alloc::{AllocError, Global};

/// A set of frames below a limit, one bit for each. There are words up to the greatest frame that it ever
/// had, and room for all from the start: so a new set takes no walk over the pool. It counts its frames, so
/// that uniting it with an empty set takes no walk either.
#[derive(Debug, Drop)]
pub(crate) struct FrameSet {
    pub(crate) words: Vec<u64>,
    pub(crate) limit: u32,
    // How many frames there are, or more where a frame was put in that was there.
    pub(crate) count: u32,
    ghost wide: { (vec_len words ≤ (limit + 63) / 64) × ((limit + 63) / 64 ≤ vec_capacity words) },
    ghost counted: { length (frames_in limit words.items) ≤ count },
}

impl FrameSet {
    pub(crate) fn new(alloc: Global, limit: u32) -> Result<FrameSet, AllocError>
        ensures empty { IfOk result (λ set. frames_in set.limit set.words.items ≡ []) }
        ensures limit { IfOk result (λ set. set.limit ≡ limit) }
    {
        let count = (u64::from(limit) + 63) / 64;
        let words = Vec::with_capacity(alloc, count as usize)?;
        Ok(FrameSet {
            words,
            limit,
            count: 0,
        })
    }

    pub(crate) fn contains(&self, frame: u32) -> bool
        requires { frame < self.now.limit }
        ensures { result ≡ has frame (frames_in self.now.limit self.now.words.items) }
    {
        let index = (frame / 64) as usize;
        if index < self.words.len() {
            (self.words[index] >> (frame % 64)) & 1 == 1
        } else {
            false
        }
    }

    pub(crate) fn insert(&mut self, frame: u32)
        requires { frame < self.old.limit }
        ensures each { (g : ℕ) → has g (frames_in self.new.limit self.new.words.items)
            ≡ ((g == frame) || has g (frames_in self.old.limit self.old.words.items)) }
        ensures limit { self.new.limit ≡ self.old.limit }
    {
        // It fits 32 bits, and so does the number of frames.
        let _limit = self.limit;
        lengthen(&mut self.words, (frame / 64) as usize + 1);
        self.count = self.count.saturating_add(1);
        self.words[(frame / 64) as usize] |= 1 << (frame % 64);
    }

    pub(crate) fn remove(&mut self, frame: u32)
        requires { has frame (frames_in self.old.limit self.old.words.items) ≡ true }
        ensures each { (g : ℕ) → has g (frames_in self.new.limit self.new.words.items)
            ≡ (not (g == frame) && has g (frames_in self.old.limit self.old.words.items)) }
        ensures limit { self.new.limit ≡ self.old.limit }
    {
        self.words[(frame / 64) as usize] &= !(1 << (frame % 64));
        self.count -= 1;
    }

    pub(crate) fn unite(&mut self, other: &FrameSet)
        requires { other.now.limit ≡ self.old.limit }
        ensures each { (g : ℕ) → has g (frames_in self.new.limit self.new.words.items)
            ≡ (has g (frames_in self.old.limit self.old.words.items)
            || has g (frames_in other.now.limit other.now.words.items)) }
        ensures limit { self.new.limit ≡ self.old.limit }
    {
        if other.count == 0 {
            return;
        }
        self.count = self.count.saturating_add(other.count).min(self.limit);
        lengthen(&mut self.words, other.words.len());
        or_words(&mut self.words, &other.words);
    }
}

// Adds words without a bit up to a length, for which there is room.
fn lengthen(words: &mut Vec<u64>, len: usize)
    requires { len ≤ vec_capacity words.old }
    ensures same { (k : ℕ) → slice_index words.new.items k ≡ slice_index words.old.items k }
    ensures reached { len ≤ vec_len words.new }
    ensures most { vec_len words.new ≤ max len (vec_len words.old) }
    ensures capacity { vec_capacity words.new ≡ vec_capacity words.old }
{
    while words.len() < len {
        words.push_reserved(0);
    }
}

// Each word takes the bits of its fellow, as far as there are any.
fn or_words(words: &mut Vec<u64>, other: &Vec<u64>)
    requires { vec_len other.now ≤ vec_len words.old }
    ensures len { vec_len words.new ≡ vec_len words.old }
    ensures capacity { vec_capacity words.new ≡ vec_capacity words.old }
    ensures each { (k : ℕ) → slice_index words.new.items k ≡ bit_or (slice_index words.old.items k) (slice_index other.now.items k) }
{
    for i in 0..other.len() {
        words[i] |= other[i];
    }
}
