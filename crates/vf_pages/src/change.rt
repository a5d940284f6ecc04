ghost use Rattle.std.specs.Prelude.{◌≡◌, ℕ, ◌+◌, ◌*◌, ◌≤◌, [], ◌∷◌, List, length, vec_len, vec_capacity, IfErr, IfOk, OnOk, OnErr};
ghost use Rattle.std.specs.Arc.{arc_value};
ghost use Rattle.vf_base.specs.declared.write.TheConstants.{PAGE_WORDS};
ghost use Rattle.vf_frames.specs.declared.holder.Holder.{Holder};
ghost use Rattle.vf_frames.specs.Holders.{Accounts, Keeps, SamePool};
ghost use Rattle.vf_pages.specs.Pages.{IsSorted, IsHeld};
ghost use Rattle.vf_pages.specs.Views.{pages_of, shown};
ghost use Rattle.vf_pages.specs.Writes.{AreWrites, written_pages};
ghost use Rattle.vf_pages.specs.Needs.{new_pages};
ghost use Rattle.vf_pages.specs.Places.{IsTable};
ghost use Rattle.vf_pages.specs.Gathered.{OnLack};
ghost use Rattle.vf_pages.specs.Calls.{Wrote, WroteAmong, IsShort, ShortAmong, OnRefusal, IsUnmade};

use crate::gather::{Lack, gather, give_up};
use crate::held::Held;
use crate::install::install;
use crate::kept::write_kept;
use crate::places::note_added;
use crate::refusal::PageRefusal;
use crate::search::count_new;
use std::sync::Arc;
use vf_base::{Memory, Write};
use vf_frames::Frames;

// The refusal that a lack makes.
#[inline(never)]
fn refusal_of(lack: Lack, held: &[Held], writes: &[Write], words: usize) -> PageRefusal
    requires sorted { IsSorted (pages_of held.now) }
    requires writes { AreWrites words writes.now }
    ensures { OnLack lack
        (result ≡ PageRefusal.Short (length held.now + new_pages (pages_of held.now) (written_pages writes.now)))
        (result ≡ PageRefusal.Memory) }
{
    match lack {
        Lack::Frame => PageRefusal::Short((held.len() + count_new(held, writes, words)) as u32),
        Lack::Memory => PageRefusal::Memory,
    }
}

// How many new pages of one call are inserted one by one. More are merged into the list of pages.
const INSERTED: usize = 8;

// Room to merge fresh pages through, where many of them are new.
fn spare_room(
    held: &Vec<Held>,
    fresh: &[Held],
    writes: &[Write],
    words: usize,
) -> Result<Vec<Held>, Memory>
    requires sorted { IsSorted (pages_of held.now.items) }
    requires writes { AreWrites words writes.now }
    ensures { IfOk result (λ spare. spare.items ≡ []) }
{
    let alloc = *held.allocator();
    if fresh.len() <= INSERTED || count_new(held, writes, words) <= INSERTED {
        return Ok(Vec::new(alloc));
    }
    Ok(Vec::with_capacity(alloc, held.capacity())?)
}

// Takes the room for fresh pages, and to merge them through.
#[inline(never)]
fn make_room(
    held: &mut Vec<Held>,
    fresh: &Vec<Held>,
    writes: &[Write],
    words: usize,
) -> Result<Vec<Held>, Memory>
    requires sorted { IsSorted (pages_of held.old.items) }
    requires writes { AreWrites words writes.now }
    ensures held { held.new.items ≡ held.old.items }
    ensures spare { IfOk result (λ spare. spare.items ≡ []) }
    ensures room { OnOk result (vec_len held.new + vec_len fresh.now ≤ vec_capacity held.new) }
{
    held.reserve(fresh.len())?;
    Ok(spare_room(held, fresh, writes, words)?)
}

/// Writes words over the pages of one holder, whichever they are.
#[inline(never)]
pub(crate) fn change_pages<F: Frames>(
    zero: &Arc<Vec<u64>>,
    held: &mut Vec<Held>,
    places: &mut Vec<u32>,
    pool: &mut F,
    token: &mut F::Token,
    writes: &[Write],
) -> Result<(), PageRefusal>
    requires name { (F.seen token.old).name ≡ F.name pool.old }
    requires sorted { IsSorted (pages_of held.old.items) }
    requires held { IsHeld (pages_of held.old.items) (F.seen token.old).frames }
    requires writes { AreWrites (length (arc_value zero.now).items) writes.now }
    requires table { IsTable places.old.items (pages_of held.old.items) }
    requires wide { length (arc_value zero.now).items ≤ PAGE_WORDS * length places.old.items }
    ensures ok { OnOk result (Wrote writes.now
        (shown (arc_value zero.now).items held.old.items (F.seen token.old))
        (shown (arc_value zero.now).items held.new.items (F.seen token.new))) }
    ensures ok_among { OnOk result ((others : List Holder) → Accounts (F.numbers pool.old) (F.seen token.old ∷ others)
        → WroteAmong writes.now
        (shown (arc_value zero.now).items held.old.items (F.seen token.old))
        (shown (arc_value zero.now).items held.new.items (F.seen token.new)) others) }
    ensures err { OnErr result (pages_of held.new.items ≡ pages_of held.old.items) }
    ensures refused { IfErr result (λ refusal. OnRefusal refusal
        (λ k. IsShort k writes.now
        (shown (arc_value zero.now).items held.old.items (F.seen token.old))
        (shown (arc_value zero.now).items held.new.items (F.seen token.new)))
        (IsUnmade
        (shown (arc_value zero.now).items held.old.items (F.seen token.old))
        (shown (arc_value zero.now).items held.new.items (F.seen token.new)))) }
    ensures refused_among { IfErr result (λ refusal. (others : List Holder)
        → Accounts (F.numbers pool.old) (F.seen token.old ∷ others)
        → OnRefusal refusal
        (λ k. ShortAmong k writes.now (shown (arc_value zero.now).items held.old.items (F.seen token.old)) others)
        (Unit {0})) }
    ensures sorted { IsSorted (pages_of held.new.items) }
    ensures table { IsTable places.new.items (pages_of held.new.items) }
    ensures len { length places.new.items ≡ length places.old.items }
    ensures held { IsHeld (pages_of held.new.items) (F.seen token.new).frames }
    ensures kept { Keeps (F.numbers pool.old) (F.seen token.old ∷ []) (F.numbers pool.new) (F.seen token.new ∷ []) }
    ensures pool { SamePool (F.name pool.old) (F.numbers pool.old) (F.name pool.new) (F.numbers pool.new) }
{
    let zero = zero.as_slice();
    let mut fresh = Vec::new(*held.allocator());
    if let Err(lack) = gather(zero, held, places, pool, token, writes, &mut fresh) {
        give_up(pool, token, fresh);
        return Err(refusal_of(lack, held, writes, zero.len()));
    }
    if fresh.len() == 0 {
        write_kept(held, places, &fresh, writes, zero.len());
        return Ok(());
    }
    let before = held.len();
    let Ok(spare) = make_room(held, &fresh, writes, zero.len()) else {
        give_up(pool, token, fresh);
        return Err(PageRefusal::Memory);
    };
    write_kept(held, places, &fresh, writes, zero.len());
    install(pool, token, held, fresh, spare);
    note_added(held, places, before);
    Ok(())
}
