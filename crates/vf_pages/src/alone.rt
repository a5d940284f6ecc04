ghost use Rattle.std.specs.Prelude.{◌≡◌, ◌<◌, [], ◌∷◌, List, ℕ, length, map, vec_len, MatchBool};
ghost use Rattle.vf_frames.specs.Holders.{Keeps, SamePool};
ghost use Rattle.vf_pages.specs.Pages.{IsSorted, IsHeld};
ghost use Rattle.vf_pages.specs.Views.{pages_of};
ghost use Rattle.vf_pages.specs.Writes.{AllOn, AreWrites};
ghost use Rattle.vf_pages.specs.InPlace.{in_place, IsWrittenAt};
ghost use Rattle.vf_pages.specs.Places.{IsTable};
ghost use Rattle.vf_pages.specs.Gathered.{Gathered, Noted};

use crate::held::Held;
use crate::places::place_in;
use vf_base::{PAGE_WORDS, Write};
use vf_frames::Frames;

// Writes the page at a place, unless another holder reads its words.
fn write_cell(held: &mut Vec<Held>, place: usize, page: u32, writes: &[Write]) -> bool
    requires place { place < vec_len held.old }
    requires own { AllOn page writes.now }
    ensures { MatchBool result
        (IsWrittenAt place page writes.now held.old.items held.new.items)
        (pages_of held.new.items ≡ pages_of held.old.items) }
{
    held[place].content.write_cell(page, writes)
}

/// Writes words of one held page, where this holder alone has its frame and reads its words. Elsewhere it
/// answers false, and nothing but notes of the holder may have come.
pub(crate) fn write_alone<F: Frames>(
    held: &mut Vec<Held>,
    places: &Vec<u32>,
    pool: &mut F,
    token: &mut F::Token,
    writes: &[Write],
    words: usize,
) -> bool
    requires name { (F.seen token.old).name ≡ F.name pool.old }
    requires sorted { IsSorted (pages_of held.old.items) }
    requires table { IsTable places.now.items (pages_of held.old.items) }
    requires held { IsHeld (pages_of held.old.items) (F.seen token.old).frames }
    requires writes { AreWrites words writes.now }
    ensures pages { MatchBool result
        (pages_of held.new.items ≡ map (in_place writes.now []) (pages_of held.old.items))
        (pages_of held.new.items ≡ pages_of held.old.items) }
    ensures gathered { MatchBool result
        ((zero : List ℕ) → Gathered zero (pages_of held.old.items) writes.now
        (F.numbers pool.old) (F.seen token.old) (F.numbers pool.new) (F.seen token.new) [])
        (Unit {0}) }
    ensures noted { Noted (F.seen token.old) (F.seen token.new) }
    ensures kept { Keeps (F.numbers pool.old) (F.seen token.old ∷ []) (F.numbers pool.new) (F.seen token.new ∷ []) }
    ensures pool { SamePool (F.name pool.old) (F.numbers pool.old) (F.name pool.new) (F.numbers pool.new) }
{
    let Some(first) = writes.first() else {
        return false;
    };
    let page = first.at / PAGE_WORDS;
    let Some(last) = writes.last() else {
        return false;
    };
    if last.at / PAGE_WORDS != page {
        return false;
    }
    let Some(place) = place_in(places, page) else {
        return false;
    };
    if !pool.look(token, held[place].frame) {
        return false;
    }
    write_cell(held, place, page, writes)
}
