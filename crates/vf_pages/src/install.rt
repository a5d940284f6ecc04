ghost use Rattle.std.specs.Prelude.{◌≡◌, ℕ, ◌+◌, ◌<◌, ◌≤◌, true, cond, [], ◌∷◌, vec_len, vec_capacity, Some};
ghost use Rattle.std.specs.Option.{option_map};
ghost use Rattle.vf_frames.specs.Holders.{Keeps, SamePool};
ghost use Rattle.vf_frames.specs.Calls.{SameRest, NotesGrow, NoWin};
ghost use Rattle.vf_frames.specs.Numbers.{has};
ghost use Rattle.vf_pages.specs.Pages.{Page, IsSorted, IsHeld, Owns, entry};
ghost use Rattle.vf_pages.specs.Views.{pages_of, page_of};
ghost use Rattle.vf_pages.specs.Puts.{put, puts, frame_count};

use crate::held::Held;
use crate::merge::merge;
use crate::search::find;
use std::mem;
use vf_frames::Frames;

// Puts a page in its place. There is room for it.
fn put_page(held: &mut Vec<Held>, one: Held) -> Option<Held>
    requires sorted { IsSorted (pages_of held.old.items) }
    requires room { vec_len held.old < vec_capacity held.old }
    ensures put { pages_of held.new.items ≡ put (page_of one) (pages_of held.old.items) }
    ensures old { option_map page_of result ≡ entry one.page.0 (pages_of held.old.items) }
    ensures len { vec_len held.new ≤ vec_len held.old + 1 }
    ensures capacity { vec_capacity held.old ≤ vec_capacity held.new }
{
    match find(held, one.page.0) {
        Ok(place) => Some(mem::replace(&mut held[place], one)),
        Err(place) => {
            let _ = held.insert(place, one);
            None
        }
    }
}

/// Releases the frame of a page that was replaced.
pub(crate) fn release_old<F: Frames>(pool: &mut F, token: &mut F::Token, old: Option<Held>)
    requires name { (F.seen token.old).name ≡ F.name pool.old }
    requires there { (o : Page) → option_map page_of old ≡ Some o → has o.frame (F.seen token.old).frames ≡ true }
    ensures frames { (f : ℕ) → cond (has f (F.seen token.new).frames) 1 0 + frame_count f (option_map page_of old)
        ≡ cond (has f (F.seen token.old).frames) 1 0 }
    ensures rest { SameRest (F.seen token.old) (F.seen token.new) }
    ensures notes { NotesGrow NoWin (F.seen token.old).notes (F.seen token.new).notes }
    ensures kept { Keeps (F.numbers pool.old) (F.seen token.old ∷ []) (F.numbers pool.new) (F.seen token.new ∷ []) }
    ensures pool { SamePool (F.name pool.old) (F.numbers pool.old) (F.name pool.new) (F.numbers pool.new) }
{
    if let Some(old) = old {
        pool.release(token, old.frame);
    }
}

// Puts fresh pages in their places one by one, and releases the frames of those that they replace. Each
// page that is new moves those above it. There is room for all.
fn put_pages<F: Frames>(
    pool: &mut F,
    token: &mut F::Token,
    held: &mut Vec<Held>,
    mut fresh: Vec<Held>,
)
    requires name { (F.seen token.old).name ≡ F.name pool.old }
    requires sorted { IsSorted (pages_of held.old.items) }
    requires fresh { IsSorted (pages_of fresh.items) }
    requires owns { Owns (pages_of held.old.items) (pages_of fresh.items) (F.seen token.old).frames }
    requires room { vec_len held.old + vec_len fresh ≤ vec_capacity held.old }
    ensures pages { pages_of held.new.items ≡ puts (pages_of fresh.items) (pages_of held.old.items) }
    ensures sorted { IsSorted (pages_of held.new.items) }
    ensures held { IsHeld (pages_of held.new.items) (F.seen token.new).frames }
    ensures rest { SameRest (F.seen token.old) (F.seen token.new) }
    ensures notes { NotesGrow NoWin (F.seen token.old).notes (F.seen token.new).notes }
    ensures kept { Keeps (F.numbers pool.old) (F.seen token.old ∷ []) (F.numbers pool.new) (F.seen token.new ∷ []) }
    ensures pool { SamePool (F.name pool.old) (F.numbers pool.old) (F.name pool.new) (F.numbers pool.new) }
{
    while let Some(one) = fresh.pop() {
        let old = put_page(held, one);
        release_old(pool, token, old);
    }
}

/// Puts fresh pages in their places and releases the frames of those that they replace. There is room
/// for all. Where `spare` has room for all pages too, they are merged through it.
#[inline(never)]
pub(crate) fn install<F: Frames>(
    pool: &mut F,
    token: &mut F::Token,
    held: &mut Vec<Held>,
    fresh: Vec<Held>,
    spare: Vec<Held>,
)
    requires name { (F.seen token.old).name ≡ F.name pool.old }
    requires sorted { IsSorted (pages_of held.old.items) }
    requires fresh { IsSorted (pages_of fresh.items) }
    requires owns { Owns (pages_of held.old.items) (pages_of fresh.items) (F.seen token.old).frames }
    requires room { vec_len held.old + vec_len fresh ≤ vec_capacity held.old }
    requires spare { spare.items ≡ [] }
    ensures pages { pages_of held.new.items ≡ puts (pages_of fresh.items) (pages_of held.old.items) }
    ensures sorted { IsSorted (pages_of held.new.items) }
    ensures held { IsHeld (pages_of held.new.items) (F.seen token.new).frames }
    ensures rest { SameRest (F.seen token.old) (F.seen token.new) }
    ensures notes { NotesGrow NoWin (F.seen token.old).notes (F.seen token.new).notes }
    ensures kept { Keeps (F.numbers pool.old) (F.seen token.old ∷ []) (F.numbers pool.new) (F.seen token.new ∷ []) }
    ensures pool { SamePool (F.name pool.old) (F.numbers pool.old) (F.name pool.new) (F.numbers pool.new) }
{
    if held.len() + fresh.len() <= spare.capacity() {
        merge(pool, token, held, fresh, spare);
    } else {
        put_pages(pool, token, held, fresh);
    }
}
