ghost use Rattle.std.specs.Prelude.{◌≡◌, ℕ, ◌+◌, ◌≤◌, vec_len, vec_capacity, [], ◌∷◌, IfOk, IsTrue};
ghost use Rattle.vf_frames.specs.Holders.{Keeps, SamePool};
ghost use Rattle.vf_frames.specs.Calls.{SameRest, NotesGrow, NoWin};
ghost use Rattle.vf_pages.specs.Pages.{IsSorted, IsHeld, entry, or_entry, occurs, frames_in};
ghost use Rattle.vf_pages.specs.Views.{pages_of, page_of};
ghost use Rattle.vf_pages.specs.Bases.{same_below, is_in_base, changed_from, left_of, is_marked, AreMarked, AreApart};

use crate::held::Held;
use crate::install::install;
use crate::search::find;
use crate::share::{hold_all, share};
use std::alloc::Global;
use vf_base::Memory;
use vf_frames::Frames;

fn same_words(words: &[u64; 64], other: &[u64; 64]) -> bool
    ensures { result ≡ same_below words.now other.now 64 }
{
    words == other
}

// Whether the base has the page, with the same words.
fn is_in_base(one: &Held, base: &[Held]) -> bool
    requires { IsSorted (pages_of base.now) }
    ensures { result ≡ is_in_base (pages_of base.now) (page_of one.now) }
{
    match find(base, one.page.0) {
        Ok(place) => same_words(one.content.words(), base[place].content.words()),
        Err(_) => false,
    }
}

// Releases the frames of the pages that the base has with the same words.
fn release_unchanged<F: Frames>(pool: &mut F, token: &mut F::Token, held: &[Held], base: &[Held])
    requires name { (F.seen token.old).name ≡ F.name pool.old }
    requires base { IsSorted (pages_of base.now) }
    requires held { IsHeld (pages_of held.now) (F.seen token.old).frames }
    ensures held { IsHeld (changed_from (pages_of base.now) (pages_of held.now)) (F.seen token.new).frames }
    ensures rest { SameRest (F.seen token.old) (F.seen token.new) }
    ensures notes { NotesGrow NoWin (F.seen token.old).notes (F.seen token.new).notes }
    ensures kept { Keeps (F.numbers pool.old) (F.seen token.old ∷ []) (F.numbers pool.new) (F.seen token.new ∷ []) }
    ensures pool { SamePool (F.name pool.old) (F.numbers pool.old) (F.name pool.new) (F.numbers pool.new) }
{
    let mut rest = held;
    while let Some((one, more)) = rest.split_first() {
        if is_in_base(one, base) {
            pool.release(token, one.frame);
        }
        rest = more;
    }
}

// Keeps the pages that the base does not have with the same words.
fn retain_changed(held: &mut Vec<Held>, base: &[Held])
    requires { IsSorted (pages_of base.now) }
    ensures { pages_of held.new.items ≡ changed_from (pages_of base.now) (pages_of held.old.items) }
{
    held.retain(|one| !is_in_base(one, base));
}

fn larger(a: u32, b: u32) -> u32
    ensures { (a ≤ result) × (b ≤ result) }
{
    if a < b { b } else { a }
}

/// Drops the pages that the base has with the same words, and releases their frames.
pub(crate) fn drop_unchanged<F: Frames>(
    pool: &mut F,
    token: &mut F::Token,
    held: &mut Vec<Held>,
    base: &[Held],
)
    requires name { (F.seen token.old).name ≡ F.name pool.old }
    requires base { IsSorted (pages_of base.now) }
    requires sorted { IsSorted (pages_of held.old.items) }
    requires held { IsHeld (pages_of held.old.items) (F.seen token.old).frames }
    ensures pages { (p : ℕ) → entry p (pages_of held.new.items)
        ≡ left_of (pages_of base.now) (entry p (pages_of held.old.items)) }
    ensures sorted { IsSorted (pages_of held.new.items) }
    ensures held { IsHeld (pages_of held.new.items) (F.seen token.new).frames }
    ensures rest { SameRest (F.seen token.old) (F.seen token.new) }
    ensures notes { NotesGrow NoWin (F.seen token.old).notes (F.seen token.new).notes }
    ensures kept { Keeps (F.numbers pool.old) (F.seen token.old ∷ []) (F.numbers pool.new) (F.seen token.new ∷ []) }
    ensures pool { SamePool (F.name pool.old) (F.numbers pool.old) (F.name pool.new) (F.numbers pool.new) }
{
    release_unchanged(pool, token, held, base);
    retain_changed(held, base);
}

// The greatest number of a frame of these pages.
fn greatest_frame(held: &[Held]) -> u32
    ensures { (f : ℕ) → 1 ≤ occurs f (frames_in (pages_of held.now)) → f ≤ result }
{
    let mut most = 0;
    for one in held {
        most = larger(most, one.frame.0);
    }
    most
}

// A mark for each frame of these pages, by its number.
fn frame_marks(alloc: Global, held: &[Held]) -> Result<Vec<bool>, Memory>
    ensures { IfOk result (λ marks. AreMarked (pages_of held.now) marks.items) }
{
    let most = greatest_frame(held);
    let mut marks = vec![in alloc; false; most as usize + 1]?;
    for one in held {
        marks[one.frame.0 as usize] = true;
    }
    Ok(marks)
}

// Whether a frame is marked.
fn is_marked(marks: &[bool], frame: u32) -> bool
    ensures { result ≡ is_marked marks.now frame }
{
    if (frame as usize) < marks.len() {
        marks[frame as usize]
    } else {
        false
    }
}

/// Whether two lists of pages have no frame in common.
pub(crate) fn are_apart(alloc: Global, held: &[Held], base: &[Held]) -> Result<bool, Memory>
    ensures { IfOk result (λ apart. IsTrue apart → AreApart (pages_of held.now) (pages_of base.now)) }
{
    let marks = frame_marks(alloc, held)?;
    for one in base {
        if is_marked(&marks, one.frame.0) {
            return Ok(false);
        }
    }
    Ok(true)
}

/// The same pages again, with the contents shared, room for so many more, and a list to merge them
/// through.
pub(crate) fn share_with_room(
    alloc: Global,
    base: &[Held],
    more: usize,
) -> Result<(Vec<Held>, Vec<Held>), Memory>
    ensures pages { IfOk result (λ r. pages_of r.0.items ≡ pages_of base.now) }
    ensures room { IfOk result (λ r. vec_len r.0 + more ≤ vec_capacity r.0) }
    ensures spare { IfOk result (λ r. r.1.items ≡ []) }
{
    let mut held = share(alloc, base)?;
    held.reserve(more)?;
    let spare = Vec::with_capacity(alloc, held.capacity())?;
    Ok((held, spare))
}

/// Lets a holder that has no frame have the frames of a base's pages and of own pages over them.
pub(crate) fn hold_over<F: Frames>(
    pool: &mut F,
    own_token: &F::Token,
    base_token: &F::Token,
    token: &mut F::Token,
    held: &mut Vec<Held>,
    own: Vec<Held>,
    spare: Vec<Held>,
)
    requires own_name { (F.seen own_token.now).name ≡ F.name pool.old }
    requires base_name { (F.seen base_token.now).name ≡ F.name pool.old }
    requires name { (F.seen token.old).name ≡ F.name pool.old }
    requires own { IsHeld (pages_of own.items) (F.seen own_token.now).frames }
    requires base { IsHeld (pages_of held.old.items) (F.seen base_token.now).frames }
    requires apart { AreApart (pages_of own.items) (pages_of held.old.items) }
    requires none { (F.seen token.old).frames ≡ [] }
    requires sorted { IsSorted (pages_of held.old.items) }
    requires own_sorted { IsSorted (pages_of own.items) }
    requires room { vec_len held.old + vec_len own ≤ vec_capacity held.old }
    requires spare { spare.items ≡ [] }
    ensures pages { (p : ℕ) → entry p (pages_of held.new.items)
        ≡ or_entry (entry p (pages_of own.items)) (entry p (pages_of held.old.items)) }
    ensures sorted { IsSorted (pages_of held.new.items) }
    ensures held { IsHeld (pages_of held.new.items) (F.seen token.new).frames }
    ensures rest { SameRest (F.seen token.old) (F.seen token.new) }
    ensures notes { NotesGrow NoWin (F.seen token.old).notes (F.seen token.new).notes }
    ensures kept { Keeps (F.numbers pool.old) (F.seen own_token.now ∷ F.seen base_token.now ∷ F.seen token.old ∷ [])
        (F.numbers pool.new) (F.seen own_token.now ∷ F.seen base_token.now ∷ F.seen token.new ∷ []) }
    ensures pool { SamePool (F.name pool.old) (F.numbers pool.old) (F.name pool.new) (F.numbers pool.new) }
{
    hold_all(pool, base_token, token, held);
    hold_all(pool, own_token, token, &own);
    install(pool, token, held, own, spare);
}
