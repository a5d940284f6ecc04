ghost use Rattle.std.specs.Prelude.{◌≡◌, ℕ, ◌+◌, ◌-◌, ◌^◌, ◌<◌, ◌≤◌, ◌==◌, true, length, slice_index, slice_set, replicate, vec_len, vec_capacity, take, [], ◌∷◌, ◌++◌, IfOk, IfSome, IfNone, MatchOption};
ghost use Rattle.vf_frames.specs.Numbers.{has};
ghost use Rattle.vf_frames.specs.FrameSets.{frames_in};
ghost use Rattle.vf_frames.specs.FreeFrames.{IsFreeStack, Takes};

use crate::set::FrameSet;
use std::alloc::{AllocError, Global};
use std::marker::Model;

/// A number for each frame, and a stack of the frames whose number is 0. Contracts see the list of the
/// numbers.
#[derive(Debug, Drop)]
pub(crate) struct Tally {
    numbers: Vec<u64>,
    free: Vec<u32>,
}

impl Model for Tally {
    ghost use Rattle.std.specs.Prelude.{List, ℕ, ◌≤◌, vec_len, vec_capacity};
    ghost use Rattle.vf_frames.specs.FreeFrames.{IsFreeStack};

    ghost Value = { List ℕ };

    ghost view = { λ t. t.numbers.items };

    ghost invariant = { λ t. IsFreeStack t.numbers.items t.free.items × (vec_len t.numbers ≤ vec_capacity t.free) };
}

impl Tally {
    pub(crate) fn new(alloc: Global, frames: u32) -> Result<Tally, AllocError>
        ensures { IfOk result (λ tally. tally ≡ replicate frames 0) }
    {
        let numbers = vec![in alloc; 0u64; frames as usize]?;
        let free = all_free(alloc, frames)?;
        Ok(Tally { numbers, free })
    }

    pub(crate) fn allocator(&self) -> Global {
        *self.numbers.allocator()
    }

    /// Whether the frame's number is 1.
    pub(crate) fn is_one(&self, frame: u32) -> bool
        requires { frame < length self.now }
        ensures { result ≡ (slice_index self.now frame == 1) }
    {
        self.numbers[frame as usize] == 1
    }

    /// Raises the number of a frame from 0 to 1. A frame with the number 0 that is held all the same
    /// was claimed in another pool: then it answers `None` too.
    pub(crate) fn take(&mut self, held: &FrameSet) -> Option<u32>
        requires { held.now.limit ≡ length self.old }
        ensures some { IfSome result (Takes (frames_in held.now.limit held.now.words.items) self.old self.new) }
        ensures none { IfNone result (self.new ≡ self.old) }
        ensures full { IfNone result
            (((f : ℕ) → has f (frames_in held.now.limit held.now.words.items) ≡ true → 1 ≤ slice_index self.old f)
            → (f : ℕ) → f < length self.old → 1 ≤ slice_index self.old f) }
    {
        let frame = top(&self.free)?;
        if held.contains(frame) {
            return None;
        }
        let _ = self.free.pop();
        self.numbers[frame as usize] = 1;
        Some(frame)
    }

    /// Adds one to a number above 0.
    pub(crate) fn raise(&mut self, frame: u32)
        requires { frame < length self.old }
        ensures raised { 0 < slice_index self.old frame → slice_index self.old frame < 2 ^ 64 - 1
            → self.new ≡ slice_set self.old frame (slice_index self.old frame + 1) }
        ensures len { length self.new ≡ length self.old }
    {
        let number = self.numbers[frame as usize];
        if 0 < number && number < u64::MAX {
            self.numbers[frame as usize] = number + 1;
        }
    }

    /// Takes one from a number above 0.
    pub(crate) fn lower(&mut self, frame: u32)
        requires { frame < length self.old }
        ensures lowered { 0 < slice_index self.old frame
            → self.new ≡ slice_set self.old frame (slice_index self.old frame - 1) }
        ensures len { length self.new ≡ length self.old }
    {
        let place = frame as usize;
        let number = self.numbers[place];
        if number == 1 {
            self.free.push_reserved(frame);
            self.numbers[place] = 0;
        } else {
            self.numbers[place] = number.saturating_sub(1);
        }
    }
}

// The frame on top of the stack.
fn top(free: &Vec<u32>) -> Option<u32>
    ensures { MatchOption result (vec_len free.now ≡ 0)
        (λ frame. free.now.items ≡ take (vec_len free.now - 1) free.now.items ++ frame ∷ []) }
{
    let below = free.len().checked_sub(1)?;
    Some(free[below])
}

// The stack of all frames, the first on top.
fn all_free(alloc: Global, frames: u32) -> Result<Vec<u32>, AllocError>
    ensures stack { IfOk result (λ free. IsFreeStack (replicate frames 0) free.items) }
    ensures room { IfOk result (λ free. frames ≤ vec_capacity free) }
{
    let mut free = Vec::with_capacity(alloc, frames as usize)?;
    for i in 0..frames {
        free.push_reserved(frames - 1 - i);
    }
    Ok(free)
}
