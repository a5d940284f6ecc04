ghost use Rattle.std.specs.Prelude.{◌≡◌, ℕ, ◌+◌, ◌≤◌, true, List, [], ◌∷◌, ◌++◌, reverse, vec_len, vec_capacity};
ghost use Rattle.std.specs.Option.{option_map};
ghost use Rattle.vf_frames.specs.Holders.{Keeps, SamePool};
ghost use Rattle.vf_frames.specs.Calls.{SameRest, NotesGrow, NoWin};
ghost use Rattle.vf_frames.specs.Numbers.{rises};
ghost use Rattle.vf_pages.specs.Pages.{Page, IsSorted, IsHeld, Owns, entry, pages_in, frames_in, occurs};
ghost use Rattle.vf_pages.specs.Views.{pages_of, page_of};
ghost use Rattle.vf_pages.specs.Puts.{puts, frame_count};

use crate::held::Held;
use crate::install::release_old;
use vf_frames::Frames;

// Moves the pages above a number to the end of another list, the last first, and takes the page with
// that number, if it is held.
fn take_page(held: &mut Vec<Held>, page: u32, behind: &mut Vec<Held>) -> Option<Held>
    requires sorted { IsSorted (pages_of held.old.items) }
    requires room { vec_len held.old + vec_len behind.old ≤ vec_capacity behind.old }
    ensures puts { (es : List Page) (e : Page) → e.page ≡ page → rises 0 page (pages_in es) ≡ true
        → puts es (pages_of held.new.items) ++ e ∷ pages_of (reverse behind.new.items)
        ≡ puts (es ++ e ∷ []) (pages_of held.old.items) ++ pages_of (reverse behind.old.items) }
    ensures old { option_map page_of result ≡ entry page (pages_of held.old.items) }
    ensures frames { (f : ℕ) → occurs f (frames_in (pages_of held.new.items ++ pages_of (reverse behind.new.items)))
        + frame_count f (option_map page_of result)
        ≡ occurs f (frames_in (pages_of held.old.items ++ pages_of (reverse behind.old.items))) }
    ensures sorted { IsSorted (pages_of held.new.items) }
    ensures len { vec_len held.new + vec_len behind.new ≤ vec_len held.old + vec_len behind.old }
    ensures held_capacity { vec_capacity held.new ≡ vec_capacity held.old }
    ensures behind_capacity { vec_capacity behind.new ≡ vec_capacity behind.old }
{
    while let Some(one) = held.pop() {
        if one.page.0 < page {
            held.push_reserved(one);
            return None;
        }
        if one.page.0 == page {
            return Some(one);
        }
        behind.push_reserved(one);
    }
    None
}

// Puts the pages of another list, the last first, after those of a list that has room for them.
fn append_reversed(held: &mut Vec<Held>, mut behind: Vec<Held>)
    requires { vec_len held.old + vec_len behind ≤ vec_capacity held.old }
    ensures { held.new.items ≡ held.old.items ++ reverse behind.items }
{
    behind.reverse();
    let _ = held.append(&mut behind);
}

/// Puts fresh pages in their places and releases the frames of those that they replace, in time
/// proportional to the number of pages. There is room for all in both lists.
pub(crate) fn merge<F: Frames>(
    pool: &mut F,
    token: &mut F::Token,
    held: &mut Vec<Held>,
    mut fresh: Vec<Held>,
    mut behind: Vec<Held>,
)
    requires name { (F.seen token.old).name ≡ F.name pool.old }
    requires sorted { IsSorted (pages_of held.old.items) }
    requires fresh { IsSorted (pages_of fresh.items) }
    requires owns { Owns (pages_of held.old.items) (pages_of fresh.items) (F.seen token.old).frames }
    requires room { vec_len held.old + vec_len fresh ≤ vec_capacity held.old }
    requires none { behind.items ≡ [] }
    requires behind { vec_len held.old + vec_len fresh ≤ vec_capacity behind }
    ensures pages { pages_of held.new.items ≡ puts (pages_of fresh.items) (pages_of held.old.items) }
    ensures sorted { IsSorted (pages_of held.new.items) }
    ensures held { IsHeld (pages_of held.new.items) (F.seen token.new).frames }
    ensures rest { SameRest (F.seen token.old) (F.seen token.new) }
    ensures notes { NotesGrow NoWin (F.seen token.old).notes (F.seen token.new).notes }
    ensures kept { Keeps (F.numbers pool.old) (F.seen token.old ∷ []) (F.numbers pool.new) (F.seen token.new ∷ []) }
    ensures pool { SamePool (F.name pool.old) (F.numbers pool.old) (F.name pool.new) (F.numbers pool.new) }
{
    while let Some(one) = fresh.pop() {
        let old = take_page(held, one.page.0, &mut behind);
        behind.push_reserved(one);
        release_old(pool, token, old);
    }
    append_reversed(held, behind);
}
