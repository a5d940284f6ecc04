ghost use Rattle.std.specs.Prelude.{◌≡◌, ◌≢◌, ◌⊎◌, ℕ, ◌+◌, ◌<◌, ◌≤◌, true, length, slice_index, None, IfSome, IfNone, IfOk, List};
ghost use Rattle.vf_frames.specs.Numbers.{has};
ghost use Rattle.vf_pages.specs.Pages.{Page, IsSorted, entry, pages_in};
ghost use Rattle.vf_pages.specs.Views.{pages_of};
ghost use Rattle.vf_pages.specs.Places.{IsTable};

use crate::held::Held;
use crate::search::find;
use std::alloc::Global;
use vf_base::Memory;

/// The place of a page by a table, if it is held.
pub(crate) fn place_in(places: &Vec<u32>, page: u32) -> Option<usize>
    ensures some { IfSome result (λ i. slice_index places.now.items page ≡ i + 1) }
    ensures none { IfNone result (slice_index places.now.items page ≡ 0) }
{
    let index = page as usize;
    if index < places.len() {
        (places[index] as usize).checked_sub(1)
    } else {
        None
    }
}

/// The place of a page by a table, if it is held and has no fresh one.
pub(crate) fn kept_place(places: &Vec<u32>, fresh: &Vec<Held>, page: u32) -> Option<usize>
    requires { IsSorted (pages_of fresh.now.items) }
    ensures some { IfSome result
        (λ i. (slice_index places.now.items page ≡ i + 1) × (entry page (pages_of fresh.now.items) ≡ None)) }
    ensures none { IfNone result
        ((slice_index places.now.items page ≡ 0) ⊎ (entry page (pages_of fresh.now.items) ≢ None)) }
{
    let Some(place) = place_in(places, page) else {
        return None;
    };
    match find(fresh, page) {
        Ok(_) => None,
        Err(_) => Some(place),
    }
}

/// Writes the places of all pages held into a table that tells places of held pages alone.
pub(crate) fn note_places(held: &Vec<Held>, places: &mut Vec<u32>)
    requires sorted { IsSorted (pages_of held.now.items) }
    requires fits { (p : ℕ) → has p (pages_in (pages_of held.now.items)) ≡ true → p < length places.old.items }
    requires known { (p : ℕ) → 1 ≤ slice_index places.old.items p → has p (pages_in (pages_of held.now.items)) ≡ true }
    ensures table { IsTable places.new.items (pages_of held.now.items) }
    ensures len { length places.new.items ≡ length places.old.items }
{
    for i in 0..held.len() {
        places[held[i].page.0 as usize] = (i + 1) as u32;
    }
}

/// Makes a table right again after pages may have been added, of which there were so many before.
#[inline(never)]
pub(crate) fn note_added(held: &Vec<Held>, places: &mut Vec<u32>, before: usize)
    requires sorted { IsSorted (pages_of held.now.items) }
    requires fits { (p : ℕ) → has p (pages_in (pages_of held.now.items)) ≡ true → p < length places.old.items }
    requires known { (p : ℕ) → 1 ≤ slice_index places.old.items p → has p (pages_in (pages_of held.now.items)) ≡ true }
    ensures table { (old : List Page) → IsSorted old → IsTable places.old.items old → length old ≡ before
        → ((p : ℕ) → has p (pages_in old) ≡ true → has p (pages_in (pages_of held.now.items)) ≡ true)
        → IsTable places.new.items (pages_of held.now.items) }
    ensures len { length places.new.items ≡ length places.old.items }
{
    if held.len() != before {
        note_places(held, places);
    }
}

/// Empties a table.
pub(crate) fn forget_places(places: &mut Vec<u32>)
    ensures none { (p : ℕ) → slice_index places.new.items p ≡ 0 }
    ensures len { length places.new.items ≡ length places.old.items }
{
    for i in 0..places.len() {
        places[i] = 0;
    }
}

/// A table that tells no place.
pub(crate) fn empty_table(alloc: Global, pages: usize) -> Result<Vec<u32>, Memory>
    ensures none { IfOk result (λ places. (p : ℕ) → slice_index places.items p ≡ 0) }
    ensures len { IfOk result (λ places. length places.items ≡ pages) }
{
    Ok(vec![in alloc; 0u32; pages]?)
}
