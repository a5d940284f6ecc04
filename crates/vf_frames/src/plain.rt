ghost use Rattle.std.specs.Prelude.{◌≡◌, ◌≤◌, [], ◌∷◌, IfOk, length};

use crate::frames::{FrameNo, Frames};
use crate::set::FrameSet;
use crate::tally::Tally;
use std::alloc::Global;
use vf_base::Memory;

/// The token of a holder over a `PlainPool`: one bit for each frame.
#[derive(Debug, Drop)]
pub struct PlainToken {
    frames: FrameSet,
    misses: u64,
    parts: u64,
    ghost some_part: { 1 ≤ parts },
}

/// A pool for one worker. It accounts for its first token and for all that come from it.
#[derive(Debug, Drop)]
pub struct PlainPool {
    budget: u32,
    tally: Tally,
    ghost sized: { length tally ≡ budget },
}

impl PlainPool {
    ghost use Rattle.vf_frames.specs.Holders.{Accounts};
    ghost use Rattle.vf_frames.specs.Plain.{token_seen, pool_name, pool_numbers, plain_name, first_holder};

    /// A pool of so many frames, all free, and the token of its first holder, which has all parts.
    pub fn new(alloc: Global, budget: u32) -> Result<(PlainPool, PlainToken), Memory>
        requires { 1 ≤ budget }
        ensures name { IfOk result (λ made. pool_name made.0 ≡ plain_name budget) }
        ensures seen { IfOk result (λ made. token_seen made.1 ≡ first_holder budget) }
        ensures accounts { IfOk result (λ made. Accounts (pool_numbers made.0) (token_seen made.1 ∷ [])) }
    {
        let tally = Tally::new(alloc, budget)?;
        let frames = FrameSet::new(alloc, budget)?;
        let pool = PlainPool { budget, tally };
        let token = PlainToken {
            frames,
            misses: 0,
            parts: 1 << 62,
        };
        Ok((pool, token))
    }
}

impl Frames for PlainPool {
    ghost use Rattle.vf_frames.specs.FrameSets.{rises-frames_in};
    ghost use Rattle.vf_frames.specs.Plain.{token_seen, pool_name, pool_numbers};

    type Token = PlainToken;

    ghost seen = { token_seen };

    ghost name = { pool_name };

    ghost numbers = { pool_numbers };

    ghost rising = { λ t. rises-frames_in t.frames.limit t.frames.words.items };

    ghost has_part = { λ t. t.some_part };

    fn open(&mut self, from: &mut PlainToken, parts: u64) -> Result<PlainToken, Memory> {
        let frames = FrameSet::new(self.tally.allocator(), from.frames.limit)?;
        from.parts -= parts;
        Ok(PlainToken {
            frames,
            misses: 0,
            parts,
        })
    }

    fn claim(&mut self, holder: &mut PlainToken) -> Option<FrameNo> {
        let Some(frame) = self.tally.take(&holder.frames) else {
            holder.misses = holder.misses.saturating_add(1);
            return None;
        };
        holder.frames.insert(frame);
        Some(FrameNo(frame))
    }

    fn hold(&mut self, _from: &PlainToken, holder: &mut PlainToken, frame: FrameNo) {
        self.tally.raise(frame.0);
        holder.frames.insert(frame.0);
    }

    fn release(&mut self, holder: &mut PlainToken, frame: FrameNo) {
        self.tally.lower(frame.0);
        holder.frames.remove(frame.0);
    }

    fn look(&mut self, _holder: &mut PlainToken, frame: FrameNo) -> bool {
        self.tally.is_one(frame.0)
    }

    fn join(&mut self, into: &mut PlainToken, holder: PlainToken) {
        into.frames.unite(&holder.frames);
        into.misses = into.misses.saturating_add(holder.misses);
        into.parts = into.parts.saturating_add(holder.parts);
    }

    fn misses(&self, holder: &PlainToken) -> u64 {
        holder.misses
    }
}
