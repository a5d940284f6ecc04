ghost use Rattle.std.specs.Prelude.{◌≡◌, ◌∷◌, ◌+◌, ◌/◌, ◌%◌, ◌^◌, ◌<◌, ◌≤◌, ℕ, length, take, slice_index, slice_set, OnOk, IfOk, cond};
ghost use Rattle.vf_machine.specs.Writes.{written};
ghost use Rattle.vf_elaborated.specs.Addresses.{word_count, slot_at, slot_size, has_wide};
ghost use Rattle.vf_scheduler.specs.State.{State};
ghost use Rattle.vf_scheduler.specs.Posting.{free_slots, is_free, strobe};
ghost use Rattle.vf_scheduler.specs.Sound.{IsSound, IsUpdate, slot_of};
ghost use Rattle.vf_scheduler.specs.Words.{update_words};
ghost use Rattle.vf_layout.specs.Puts.{put_all};
ghost use Rattle.vf_queue.specs.Writing.{Writes};
ghost use Rattle.vf_queue.specs.Holding.{Holds, IsUnderway};
ghost use Rattle.vf_queue.specs.Moves.{IsMove};
ghost use Rattle.vf_queue.specs.Slots.{IsLeastFree, IsTooLate};
ghost use Rattle.vf_queue.specs.Updates.{update_of};

use crate::addresses::STROBES;
use crate::lists::join;
use crate::update::Update;
use crate::writes::put;
use vf_base::{Ending, Memory};
use vf_elaborated::Design;
use vf_machine::Words;
use vf_patch::Patch;

/// Writes words from an address on.
fn put_words<W: Words>(
    design: &Design,
    words: &W,
    patch: &mut Patch,
    at: u32,
    list: &[u64],
) -> Result<(), Memory>
    requires long { length (W.contents words.now) ≡ word_count design.now }
    requires inside { at + length list.now ≤ word_count design.now }
    ensures { OnOk result (Writes (W.contents words.now) (put_all at list.now) patch.old patch.new) }
{
    // The addresses fit, since a design has few words.
    let _processes = &design.processes;
    let mut place = at;
    for word in list {
        put_changed(words, patch, place, *word)?;
        place += 1;
    }
    Ok(())
}

/// Writes a word where it is another one: most words of a slot stay 0.
fn put_changed<W: Words>(words: &W, patch: &mut Patch, at: u32, word: u64) -> Result<(), Memory>
    requires { at < length (W.contents words.now) }
    ensures { OnOk result (Writes (W.contents words.now) (λ words. slice_set words at word) patch.old patch.new) }
{
    if patch.read(words, at) == word {
        return Ok(());
    }
    put(patch, at, word)
}

/// The least free event slot.
pub fn least_free<W: Words>(design: &Design, words: &W, patch: &Patch) -> Option<u32>
    requires { IsUnderway design.now (W.contents words.now) patch.now }
    ensures { (s : State) → IsSound design.now s → Holds design.now (W.contents words.now) patch.now s → IsLeastFree s result }
{
    for slot in 0..design.slots {
        if patch.read(words, design.slot_at(slot)) == 0 {
            return Some(slot);
        }
    }
    None
}

/// Why a posting of so many updates at a time that does not fit 64 bits ends the run: first too few slots, then the time.
pub fn too_late<W: Words>(design: &Design, words: &W, patch: &Patch, count: usize) -> Ending
    requires { IsUnderway design.now (W.contents words.now) patch.now }
    ensures { (s : State) → IsSound design.now s → Holds design.now (W.contents words.now) patch.now s → IsTooLate s count result }
{
    if free_slots(design, words, patch) < count {
        Ending::Events
    } else {
        Ending::Time
    }
}

/// How many slots are free.
fn free_slots<W: Words>(design: &Design, words: &W, patch: &Patch) -> usize
    requires { IsUnderway design.now (W.contents words.now) patch.now }
    ensures { (s : State) → IsSound design.now s → Holds design.now (W.contents words.now) patch.now s → result ≡ free_slots s }
{
    let mut count = 0;
    for slot in 0..design.slots {
        count += count_free(design, words, patch, slot);
    }
    count
}

/// 1 where a slot is free, else 0.
fn count_free<W: Words>(design: &Design, words: &W, patch: &Patch, slot: u32) -> usize
    requires underway { IsUnderway design.now (W.contents words.now) patch.now }
    requires slot { slot < design.now.slots }
    ensures free { (s : State) → IsSound design.now s → Holds design.now (W.contents words.now) patch.now s → result ≡ cond (is_free (slot_of s slot)) 1 0 }
    ensures few { result ≤ 1 }
{
    if patch.read(words, design.slot_at(slot)) == 0 {
        1
    } else {
        0
    }
}

/// `$strobe` of a show (IEEE Std 1364-2005, 17.1.2): it takes the least free slot, and prints at the end of this time step.
/// `Some(Ending::Events)` tells that no slot is free; then nothing is written.
pub fn strobe<W: Words>(
    design: &Design,
    words: &W,
    patch: &mut Patch,
    show: u32,
) -> Result<Option<Ending>, Memory>
    requires { IsUnderway design.now (W.contents words.now) patch.old }
    ensures { IfOk result (λ end. (s : State) → IsSound design.now s → Holds design.now (W.contents words.now) patch.old s
        → IsMove design.now (W.contents words.now) patch.new (strobe show s s) end) }
{
    let Some(slot) = least_free(design, words, patch) else {
        return Ok(Some(Ending::Events));
    };
    put_slot(
        design,
        words,
        patch,
        slot,
        [STROBE, 0, 0, u64::from(show), 0, 0, 0, 0, 0, 0],
    )?;
    join(design, words, patch, STROBES, number(design, slot))?;
    Ok(None)
}

/// A slot takes an update: one of now, or of a time of the future.
pub fn put_update<W: Words>(
    design: &Design,
    words: &W,
    patch: &mut Patch,
    slot: u32,
    kind: u64,
    time: u64,
    update: &Update,
) -> Result<(), Memory>
    requires long { length (W.contents words.now) ≡ word_count design.now }
    requires slot { slot < design.now.slots }
    requires fits { IsUpdate design.now (update_of update.now) }
    ensures { OnOk result (Writes (W.contents words.now) (put_all (slot_at design.now slot) (kind ∷ 0 ∷ time ∷ update_words (has_wide design.now) (update_of update.now))) patch.old patch.new) }
{
    let place = u64::from(update.low) * 256 + u64::from(update.value.width());
    let ones = update.value.ones();
    let unknown = update.value.unknown();
    let all = [
        kind,
        0,
        time,
        u64::from(update.sig.0),
        u64::from(update.element),
        place,
        low_half(ones),
        low_half(unknown),
        high_half(ones),
        high_half(unknown),
    ];
    put_slot(design, words, patch, slot, all)
}

/// The low 64 bits.
fn low_half(plane: u128) -> u64
    ensures { result ≡ plane % 2 ^ 64 }
{
    (plane % (1 << 64)) as u64
}

/// The bits above.
fn high_half(plane: u128) -> u64
    ensures { result ≡ plane / 2 ^ 64 }
{
    (plane / (1 << 64)) as u64
}

/// Writes what a slot holds: 8 words, or 10 where some signal is above 64 bits.
pub fn put_slot<W: Words>(
    design: &Design,
    words: &W,
    patch: &mut Patch,
    slot: u32,
    all: [u64; 10],
) -> Result<(), Memory>
    requires long { length (W.contents words.now) ≡ word_count design.now }
    requires slot { slot < design.now.slots }
    ensures { OnOk result (Writes (W.contents words.now) (put_all (slot_at design.now slot) (take (slot_size design.now) all)) patch.old patch.new) }
{
    put_words(
        design,
        words,
        patch,
        design.slot_at(slot),
        &all[..slot_size(design)],
    )
}

/// How many words a slot has.
fn slot_size(design: &Design) -> usize
    ensures size { result ≡ slot_size design.now }
    ensures most { result ≤ 10 }
{
    if design.has_wide() { 10 } else { 8 }
}

/// The number of a slot as an event: the processes are numbered first.
pub fn number(design: &Design, slot: u32) -> u32
    requires { slot < design.now.slots }
    ensures { result ≡ length design.now.processes + slot }
{
    design.processes.len() as u32 + slot
}

// The word of what a slot holds.
const STROBE: u64 = 3;
