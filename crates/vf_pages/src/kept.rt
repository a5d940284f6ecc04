ghost use Rattle.std.specs.Prelude.{◌≡◌, ℕ, ◌<◌, true, map, vec_len, vec_capacity, slice_get, Some};
ghost use Rattle.vf_pages.specs.declared.held.Held.{Held};
ghost use Rattle.vf_pages.specs.Pages.{IsSorted};
ghost use Rattle.vf_pages.specs.Views.{pages_of};
ghost use Rattle.vf_pages.specs.Writes.{AreWrites, AllOn, touches};
ghost use Rattle.vf_pages.specs.Contents.{is_taken};
ghost use Rattle.vf_pages.specs.InPlace.{in_place, IsWrittenAt};
ghost use Rattle.vf_pages.specs.Places.{IsTable, AtHand};

use crate::held::Held;
use crate::places::kept_place;
use crate::search::split_page;
use vf_base::{PAGE_WORDS, Write};

// Writes the page at a place, whose words are taken out.
fn write_page(held: &mut Vec<Held>, place: usize, page: u32, own: &[Write])
    requires place { place < vec_len held.old }
    requires taken { (h : Held) → slice_get held.old.items place ≡ Some h → is_taken h.content ≡ true }
    requires own { AllOn page own.now }
    ensures written { IsWrittenAt place page own.now held.old.items held.new.items }
    ensures capacity { vec_capacity held.new ≡ vec_capacity held.old }
{
    held[place].content.write(page, own);
}

/// Writes the pages that have no fresh one where they are. Their words are taken out.
pub(crate) fn write_kept(
    held: &mut Vec<Held>,
    places: &Vec<u32>,
    fresh: &Vec<Held>,
    writes: &[Write],
    words: usize,
)
    requires sorted { IsSorted (pages_of held.old.items) }
    requires fresh { IsSorted (pages_of fresh.now.items) }
    requires writes { AreWrites words writes.now }
    requires table { IsTable places.now.items (pages_of held.old.items) }
    requires taken { (p : ℕ) → touches p writes.now ≡ true → AtHand held.old.items (pages_of fresh.now.items) p }
    ensures written { pages_of held.new.items ≡ map (in_place writes.now (pages_of fresh.now.items)) (pages_of held.old.items) }
    ensures capacity { vec_capacity held.new ≡ vec_capacity held.old }
{
    let mut rest = writes;
    while let Some(first) = rest.first() {
        let page = first.at / PAGE_WORDS;
        let (own, more) = split_page(page, rest);
        if let Some(place) = kept_place(places, fresh, page) {
            write_page(held, place, page, own);
        }
        rest = more;
    }
}
