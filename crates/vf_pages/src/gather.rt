ghost use Rattle.std.specs.Prelude.{◌≡◌, ℕ, ◌/◌, ◌<◌, [], ◌∷◌, true, length, vec_len, OnOk, OnErr, IfErr};
ghost use Rattle.vf_base.specs.declared.write.TheConstants.{PAGE_WORDS};
ghost use Rattle.vf_frames.specs.Holders.{Keeps, SamePool};
ghost use Rattle.vf_frames.specs.Calls.{SameRest, NotesGrow, NoWin};
ghost use Rattle.vf_pages.specs.Pages.{IsSorted, IsHeld, Owns, Covers, Gives, zero_page};
ghost use Rattle.vf_pages.specs.Views.{pages_of};
ghost use Rattle.vf_pages.specs.Writes.{AllOn, AreWrites, after, touches};
ghost use Rattle.vf_pages.specs.Places.{IsTable, AtHand, TakenAt, TakesPage};
ghost use Rattle.vf_pages.specs.Gathered.{Added, NoFrame, OnLack, Goes, Ends, Gathered, Short, Unmade};

use crate::content::{Content, written_words, zero_words};
use crate::held::{Held, PageNo};
use crate::places::place_in;
use crate::search::split_page;
use vf_base::{PAGE_WORDS, Write};
use vf_frames::Frames;

/// Why what writes need could not be had.
#[derive(Clone, Copy, Debug)]
pub(crate) enum Lack {
    Frame,
    Memory,
}

// Makes the content of one page more, these words after writes, and claims a frame for it. It is not
// inlined, so that no other function has room for a page among its locals.
#[inline(never)]
fn add_fresh<F: Frames>(
    pool: &mut F,
    token: &mut F::Token,
    page: u32,
    words: &[u64; 64],
    own: &[Write],
    fresh: &mut Vec<Held>,
) -> Result<(), Lack>
    requires name { (F.seen token.old).name ≡ F.name pool.old }
    requires own { AllOn page own.now }
    ensures ok { OnOk result (Added page (after own.now page words.now) (F.numbers pool.old) (F.seen token.old) (F.seen token.new)
        (pages_of fresh.old.items) (pages_of fresh.new.items)) }
    ensures err { OnErr result (pages_of fresh.new.items ≡ pages_of fresh.old.items) }
    ensures lack { IfErr result (λ lack. OnLack lack
        (NoFrame (F.numbers pool.old) (F.seen token.old) (F.seen token.new))
        (F.seen token.new ≡ F.seen token.old)) }
    ensures kept { Keeps (F.numbers pool.old) (F.seen token.old ∷ []) (F.numbers pool.new) (F.seen token.new ∷ []) }
    ensures pool { SamePool (F.name pool.old) (F.numbers pool.old) (F.name pool.new) (F.numbers pool.new) }
{
    let alloc = *fresh.allocator();
    let Ok(content) = Content::new(alloc, written_words(words, page, own)) else {
        return Err(Lack::Memory);
    };
    let Ok(()) = fresh.reserve(1) else {
        return Err(Lack::Memory);
    };
    let Some(frame) = pool.claim(token) else {
        return Err(Lack::Frame);
    };
    fresh.push_reserved(Held {
        page: PageNo(page),
        frame,
        content,
    });
    Ok(())
}

// Makes the content of a new page, the words at time zero after writes, and claims a frame for it.
#[inline(never)]
fn add_new<F: Frames>(
    zero: &[u64],
    pool: &mut F,
    token: &mut F::Token,
    page: u32,
    own: &[Write],
    fresh: &mut Vec<Held>,
) -> Result<(), Lack>
    requires name { (F.seen token.old).name ≡ F.name pool.old }
    requires own { AllOn page own.now }
    ensures ok { OnOk result (Added page (after own.now page (zero_page zero.now page)) (F.numbers pool.old) (F.seen token.old) (F.seen token.new)
        (pages_of fresh.old.items) (pages_of fresh.new.items)) }
    ensures err { OnErr result (pages_of fresh.new.items ≡ pages_of fresh.old.items) }
    ensures lack { IfErr result (λ lack. OnLack lack
        (NoFrame (F.numbers pool.old) (F.seen token.old) (F.seen token.new))
        (F.seen token.new ≡ F.seen token.old)) }
    ensures kept { Keeps (F.numbers pool.old) (F.seen token.old ∷ []) (F.numbers pool.new) (F.seen token.new ∷ []) }
    ensures pool { SamePool (F.name pool.old) (F.numbers pool.old) (F.name pool.new) (F.numbers pool.new) }
{
    add_fresh(pool, token, page, &zero_words(zero, page), own, fresh)
}

// Takes the words of a held page out to be written.
fn take_page(held: &mut Vec<Held>, place: usize) -> Result<(), Lack>
    requires { place < vec_len held.old }
    ensures pages { pages_of held.new.items ≡ pages_of held.old.items }
    ensures taken { OnOk result (TakenAt place held.old.items held.new.items) }
    ensures err { IfErr result (λ lack. lack ≡ Lack.Memory) }
{
    let alloc = *held.allocator();
    match held[place].content.take_or_copy(alloc) {
        Ok(()) => Ok(()),
        Err(_) => Err(Lack::Memory),
    }
}

// Finds out what writes need that fall on the page of an address, and has it made.
fn gather_page<F: Frames>(
    zero: &[u64],
    held: &mut Vec<Held>,
    places: &Vec<u32>,
    pool: &mut F,
    token: &mut F::Token,
    at: u32,
    own: &[Write],
    fresh: &mut Vec<Held>,
) -> Result<(), Lack>
    requires name { (F.seen token.old).name ≡ F.name pool.old }
    requires sorted { IsSorted (pages_of held.old.items) }
    requires table { IsTable places.now.items (pages_of held.old.items) }
    requires owns { Owns (pages_of held.old.items) (pages_of fresh.old.items) (F.seen token.old).frames }
    requires some { 0 < length own.now }
    requires own { AllOn (at / PAGE_WORDS) own.now }
    ensures pages { pages_of held.new.items ≡ pages_of held.old.items }
    ensures taken { OnOk result (TakesPage (at / PAGE_WORDS) held.old.items (pages_of fresh.old.items)
        held.new.items (pages_of fresh.new.items)) }
    ensures ok { OnOk result (Goes zero.now (pages_of held.old.items) (at / PAGE_WORDS) own.now
        (F.numbers pool.old) (F.seen token.old) (pages_of fresh.old.items)
        (F.numbers pool.new) (F.seen token.new) (pages_of fresh.new.items)) }
    ensures err { IfErr result (Ends zero.now (pages_of held.old.items) (at / PAGE_WORDS) own.now
        (F.numbers pool.old) (F.seen token.old) (pages_of fresh.old.items)
        (F.numbers pool.new) (F.seen token.new) (pages_of fresh.new.items)) }
    ensures pool { SamePool (F.name pool.old) (F.numbers pool.old) (F.name pool.new) (F.numbers pool.new) }
{
    let page = at / PAGE_WORDS;
    let Some(place) = place_in(places, page) else {
        return add_new(zero, pool, token, page, own, fresh);
    };
    let frame = held[place].frame;
    if pool.look(token, frame) {
        return take_page(held, place);
    }
    add_fresh(pool, token, page, held[place].content.words(), own, fresh)
}

/// Makes the content and claims the frame of each page that is new or whose frame is shared, and takes the
/// words of the others out to be written.
pub(crate) fn gather<F: Frames>(
    zero: &[u64],
    held: &mut Vec<Held>,
    places: &Vec<u32>,
    pool: &mut F,
    token: &mut F::Token,
    writes: &[Write],
    fresh: &mut Vec<Held>,
) -> Result<(), Lack>
    requires name { (F.seen token.old).name ≡ F.name pool.old }
    requires sorted { IsSorted (pages_of held.old.items) }
    requires table { IsTable places.now.items (pages_of held.old.items) }
    requires held { IsHeld (pages_of held.old.items) (F.seen token.old).frames }
    requires writes { AreWrites (length zero.now) writes.now }
    requires none { fresh.old.items ≡ [] }
    ensures pages { pages_of held.new.items ≡ pages_of held.old.items }
    ensures taken { OnOk result ((p : ℕ) → touches p writes.now ≡ true
        → AtHand held.new.items (pages_of fresh.new.items) p) }
    ensures ok { OnOk result (Gathered zero.now (pages_of held.old.items) writes.now
        (F.numbers pool.old) (F.seen token.old) (F.numbers pool.new) (F.seen token.new) (pages_of fresh.new.items)) }
    ensures err { IfErr result (λ lack. OnLack lack
        (Short (pages_of held.old.items) writes.now
        (F.numbers pool.old) (F.seen token.old) (F.numbers pool.new) (F.seen token.new) (pages_of fresh.new.items))
        (Unmade (pages_of held.old.items)
        (F.numbers pool.old) (F.seen token.old) (F.numbers pool.new) (F.seen token.new) (pages_of fresh.new.items))) }
    ensures pool { SamePool (F.name pool.old) (F.numbers pool.old) (F.name pool.new) (F.numbers pool.new) }
{
    let mut rest = writes;
    while let Some(first) = rest.first() {
        let (own, more) = split_page(first.at / PAGE_WORDS, rest);
        if let Err(lack) = gather_page(zero, held, places, pool, token, first.at, own, fresh) {
            return Err(lack);
        }
        rest = more;
    }
    Ok(())
}

/// Releases the frames of fresh pages that are not to be.
#[inline(never)]
pub(crate) fn give_up<F: Frames>(pool: &mut F, token: &mut F::Token, mut fresh: Vec<Held>)
    requires name { (F.seen token.old).name ≡ F.name pool.old }
    requires owned { Covers (pages_of fresh.items) (F.seen token.old).frames }
    ensures released { Gives (pages_of fresh.items) (F.seen token.old).frames (F.seen token.new).frames }
    ensures rest { SameRest (F.seen token.old) (F.seen token.new) }
    ensures notes { NotesGrow NoWin (F.seen token.old).notes (F.seen token.new).notes }
    ensures kept { Keeps (F.numbers pool.old) (F.seen token.old ∷ []) (F.numbers pool.new) (F.seen token.new ∷ []) }
    ensures pool { SamePool (F.name pool.old) (F.numbers pool.old) (F.name pool.new) (F.numbers pool.new) }
{
    while let Some(one) = fresh.pop() {
        pool.release(token, one.frame);
    }
}
