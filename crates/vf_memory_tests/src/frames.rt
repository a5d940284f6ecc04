//! Walks of two holders of frames.

use std::alloc::Global;
use vf_base::Memory;
use vf_frames::{Frames, PlainPool};

/// Two frames, and a second holder that takes part in one of them. Tells whether the first holder has the shared frame alone, before
/// and after the second gave it back; whether the second gets the other frame, and one more; its misses; whether it gets the frame
/// that the first gave back; the misses of the first, once it has joined the second; and whether it gets a frame.
pub fn shared(alloc: Global) -> Result<String, Memory> {
    let (mut pool, mut first) = PlainPool::new(alloc, 2)?;
    let mut second = pool.open(&mut first, 1)?;
    let Some(shared) = pool.claim(&mut first) else {
        return Ok(format!(in alloc; "no frame")?);
    };
    pool.hold(&first, &mut second, shared);
    let with_second = pool.look(&mut first, shared);
    pool.release(&mut second, shared);
    let alone = pool.look(&mut first, shared);

    let other = pool.claim(&mut second).is_some();
    let more = pool.claim(&mut second).is_some();
    let misses = pool.misses(&second);

    pool.release(&mut first, shared);
    let same = pool.claim(&mut second) == Some(shared);
    pool.join(&mut first, second);
    let joined = pool.misses(&first);
    let last = pool.claim(&mut first).is_some();
    Ok(format!(in alloc; "{with_second} {alone} {other} {more} {misses} {same} {joined} {last}")?)
}

/// A holder that gave its frame back is joined. Tells whether the hand still has its own frame alone, and whether it gets the frame
/// that was given back.
pub fn joined(alloc: Global) -> Result<String, Memory> {
    let (mut pool, mut hand) = PlainPool::new(alloc, 200)?;
    let Some(own) = pool.claim(&mut hand) else {
        return Ok(format!(in alloc; "no frame")?);
    };
    let mut other = pool.open(&mut hand, 1)?;
    let Some(given) = pool.claim(&mut other) else {
        return Ok(format!(in alloc; "no frame")?);
    };
    pool.release(&mut other, given);
    pool.join(&mut hand, other);
    let alone = pool.look(&mut hand, own);
    let same = pool.claim(&mut hand) == Some(given);
    Ok(format!(in alloc; "{alone} {same}")?)
}
