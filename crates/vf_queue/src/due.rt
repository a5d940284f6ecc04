ghost use Rattle.std.specs.Prelude.{◌≡◌, ◌+◌, ◌<◌, ◌∷◌, ℕ, List, length, slice_index, OnOk, IfOk};
ghost use Rattle.vf_machine.specs.Writes.{written};
ghost use Rattle.vf_elaborated.specs.Addresses.{word_count, slot_at, slot_size, has_wide};
ghost use Rattle.vf_scheduler.specs.State as model;
ghost use Rattle.vf_scheduler.specs.State.{State, Free, Due, Strobed, of_slot};
ghost use Rattle.vf_scheduler.specs.Posting.{put_slot};
ghost use Rattle.vf_scheduler.specs.Sound.{IsSound, IsUpdate, slot_of};
ghost use Rattle.vf_layout.specs.Addresses.{HasShape};
ghost use Rattle.vf_queue.specs.Holding.{Holds};
ghost use Rattle.vf_queue.specs.Updates.{update_of};
ghost use Rattle.vf_queue.specs.Due.{plane_in, UpdateStands, HoldsUpdate, IsTaken, HasStrobe};

use crate::addresses::STROBES;
use crate::lists::take;
use crate::slots::put_slot;
use crate::update::Update;
use vf_base::{Memory, SigNo};
use vf_elaborated::Design;
use vf_fours::Fours;
use vf_machine::Words;
use vf_patch::Patch;

/// A word of a slot, counted from its kind.
fn slot_word<W: Words>(design: &Design, words: &W, patch: &Patch, slot: u32, at: u32) -> u64
    requires long { length (W.contents words.now) ≡ word_count design.now }
    requires slot { slot < design.now.slots }
    requires at { at < slot_size design.now }
    ensures { result ≡ slice_index (written (W.contents words.now) patch.now) (slot_at design.now slot + at) }
{
    // The addresses fit, since a design has few words.
    let _processes = &design.processes;
    patch.read(words, design.slot_at(slot) + at)
}

/// A plane of the value that a slot holds: 64 bits, or 128 where some signal is above 64 bits. The plane of ones is at 0, and that of
/// unknown bits at 1.
fn plane<W: Words>(design: &Design, words: &W, patch: &Patch, slot: u32, at: u32) -> u128
    requires long { length (W.contents words.now) ≡ word_count design.now }
    requires slot { slot < design.now.slots }
    requires at { at < 2 }
    ensures { result ≡ plane_in (has_wide design.now) (written (W.contents words.now) patch.now) (slot_at design.now slot + (6 + at)) }
{
    let low = u128::from(slot_word(design, words, patch, slot, 6 + at));
    if design.has_wide() {
        low + (u128::from(slot_word(design, words, patch, slot, 8 + at)) << 64)
    } else {
        low
    }
}

/// The update that a slot holds.
fn update_in<W: Words>(design: &Design, words: &W, patch: &Patch, slot: u32) -> Update
    requires long { length (W.contents words.now) ≡ word_count design.now }
    requires slot { slot < design.now.slots }
    requires holds { HoldsUpdate design.now (written (W.contents words.now) patch.now) slot }
    ensures { (u : model.Update) → IsUpdate design.now u → UpdateStands design.now (written (W.contents words.now) patch.now) slot u → update_of result ≡ u }
{
    // The numbers fit, since a design has few signals and elements.
    let _processes = &design.processes;
    let place = slot_word(design, words, patch, slot, 5);
    let ones = plane(design, words, patch, slot, 0);
    let unknown = plane(design, words, patch, slot, 1);
    Update {
        sig: SigNo(slot_word(design, words, patch, slot, 3) as u32),
        element: slot_word(design, words, patch, slot, 4) as u32,
        low: (place / 256) as u32,
        value: Fours::new((place % 256) as u32, false, ones, unknown),
    }
}

/// A slot is free again.
fn free<W: Words>(design: &Design, words: &W, patch: &mut Patch, slot: u32) -> Result<(), Memory>
    requires long { length (W.contents words.now) ≡ word_count design.now }
    requires slot { slot < design.now.slots }
    ensures { OnOk result ((s : State) → HasShape design.now s → Holds design.now (W.contents words.now) patch.old s
        → Holds design.now (W.contents words.now) patch.new (put_slot slot Free s)) }
{
    put_slot(design, words, patch, slot, [0; 10])
}

/// The update that was the first active event is performed next: its slot is free again.
pub fn take_update<W: Words>(
    design: &Design,
    words: &W,
    patch: &mut Patch,
    slot: u32,
) -> Result<Update, Memory>
    requires { IsTaken design.now (W.contents words.now) patch.old slot }
    ensures { IfOk result (λ update. (s : State) (rest : List model.Item) → IsSound design.now s → s.active ≡ of_slot slot ∷ rest
        → Holds design.now (W.contents words.now) patch.old (record s { active = rest })
        → (slot_of s slot ≡ Due (update_of update)) × Holds design.now (W.contents words.now) patch.new (put_slot slot Free (record s { active = rest }))) }
{
    let update = update_in(design, words, patch, slot);
    free(design, words, patch, slot)?;
    Ok(update)
}

/// The first strobe of this time step leaves its list, and its slot is free again (IEEE Std 1364-2005, 17.1.2). The number of its show is
/// told.
pub fn take_strobe<W: Words>(design: &Design, words: &W, patch: &mut Patch) -> Result<usize, Memory>
    requires { HasStrobe design.now (W.contents words.now) patch.old }
    ensures { IfOk result (λ show. (s : State) (slot : ℕ) (rest : List model.Item) → IsSound design.now s → s.strobes ≡ of_slot slot ∷ rest
        → Holds design.now (W.contents words.now) patch.old s
        → (slot_of s slot ≡ Strobed show) × Holds design.now (W.contents words.now) patch.new (record (put_slot slot Free s) { strobes = rest })) }
{
    let number = take(design, words, patch, STROBES, true)?;
    let slot = number - design.processes.len() as u32;
    let show = slot_word(design, words, patch, slot, 3);
    free(design, words, patch, slot)?;
    Ok(show as usize)
}
