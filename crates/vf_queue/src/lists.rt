ghost use Rattle.std.specs.Prelude.{◌≡◌, ◌≢◌, ◌+◌, ◌-◌, ◌<◌, ℕ, List, length, slice_index, slice_set, OnOk, IfOk, if◌then◌else◌, ◌&&◌, ◌==◌};
ghost use Rattle.vf_machine.specs.Writes.{written};
ghost use Rattle.vf_elaborated.specs.Addresses.{word_count};
ghost use Rattle.vf_layout.specs.Regions.{joined, taken, put_first, put_after, moved};
ghost use Rattle.vf_queue.specs.Writing.{FRONT, item_count, Writes, Leads, HasTail};

use crate::addresses::{ACTIVE, FUTURE};
use crate::writes::{event, front, link, put_front, put_link};
use vf_base::Memory;
use vf_elaborated::Design;
use vf_machine::Words;
use vf_patch::Patch;

/// An event joins the end of the list whose head stands at an address. Its own link is 0 already.
pub fn join<W: Words>(
    design: &Design,
    words: &W,
    patch: &mut Patch,
    at: u32,
    number: u32,
) -> Result<(), Memory>
    requires at { at + 1 < FRONT }
    requires long { length (W.contents words.now) ≡ word_count design.now }
    requires number { number < item_count design.now }
    requires tail { HasTail design.now at (written (W.contents words.now) patch.old) }
    ensures { OnOk result (Writes (W.contents words.now) (joined design.now at number) patch.old patch.new) }
{
    let to_it = u64::from(number) + 1;
    let head = front(design, words, patch, at);
    let tail = front(design, words, patch, at + 1);
    put_front(patch, at + 1, to_it);
    if head == 0 {
        put_front(patch, at, to_it);
        return Ok(());
    }
    put_link(design, patch, event(design, tail), to_it)
}

/// The tail of a list that has one becomes 0 where no event follows.
fn clear_tail(patch: &mut Patch, at: u32, tailed: bool, next: u64)
    requires { at + 1 < FRONT }
    ensures { (base : List ℕ) → at + 1 < length base → Writes base (λ words. if tailed && next == 0 then slice_set words (at + 1) 0 else words) patch.old patch.new }
{
    if tailed && next == 0 {
        put_front(patch, at + 1, 0);
    }
}

/// The first event of a list leaves it. Where the list has a tail, it stands in the word after the head.
pub fn take<W: Words>(
    design: &Design,
    words: &W,
    patch: &mut Patch,
    at: u32,
    tailed: bool,
) -> Result<u32, Memory>
    requires at { at + 1 < FRONT }
    requires long { length (W.contents words.now) ≡ word_count design.now }
    requires head { Leads design.now (slice_index (written (W.contents words.now) patch.old) at) }
    ensures { IfOk result (λ number. (slice_index (written (W.contents words.now) patch.old) at ≡ number + 1)
        × Writes (W.contents words.now) (taken design.now at tailed) patch.old patch.new) }
{
    let number = event(design, front(design, words, patch, at));
    let next = link(design, words, patch, number);
    clear_tail(patch, at, tailed, next);
    put_front(patch, at, next);
    put_link(design, patch, number, 0)?;
    Ok(number)
}

/// An event becomes the first of the future.
pub fn put_first<W: Words>(
    design: &Design,
    words: &W,
    patch: &mut Patch,
    number: u32,
) -> Result<(), Memory>
    requires long { length (W.contents words.now) ≡ word_count design.now }
    requires number { number < item_count design.now }
    ensures { OnOk result (Writes (W.contents words.now) (put_first design.now number) patch.old patch.new) }
{
    let head = front(design, words, patch, FUTURE);
    put_front(patch, FUTURE, u64::from(number) + 1);
    put_link(design, patch, number, head)
}

/// An event follows another one in the future.
pub fn put_after<W: Words>(
    design: &Design,
    words: &W,
    patch: &mut Patch,
    other: u32,
    number: u32,
) -> Result<(), Memory>
    requires long { length (W.contents words.now) ≡ word_count design.now }
    requires other { other < item_count design.now }
    requires number { number < item_count design.now }
    ensures { OnOk result (Writes (W.contents words.now) (put_after design.now other number) patch.old patch.new) }
{
    let next = link(design, words, patch, other);
    put_link(design, patch, number, next)?;
    put_link(design, patch, other, u64::from(number) + 1)
}

/// The list whose head stands at an address becomes the active one.
pub fn make_active<W: Words>(design: &Design, words: &W, patch: &mut Patch, at: u32)
    requires at { at + 1 < FRONT }
    requires long { length (W.contents words.now) ≡ word_count design.now }
    ensures { Writes (W.contents words.now) (moved at) patch.old patch.new }
{
    let head = front(design, words, patch, at);
    let tail = front(design, words, patch, at + 1);
    put_front(patch, ACTIVE, head);
    put_front(patch, ACTIVE + 1, tail);
    put_front(patch, at, 0);
    put_front(patch, at + 1, 0);
}
