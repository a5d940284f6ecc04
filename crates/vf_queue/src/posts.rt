ghost use Rattle.std.specs.Prelude.{◌≡◌, ◌+◌, ◌++◌, ◌∷◌, [], map, OnOk, IfOk};
ghost use Rattle.std.specs.List.{All};
ghost use Rattle.vf_scheduler.specs.State as model;
ghost use Rattle.vf_scheduler.specs.State.{State};
ghost use Rattle.vf_scheduler.specs.Posting.{joins_future};
ghost use Rattle.vf_scheduler.specs.Posting as posting;
ghost use Rattle.vf_scheduler.specs.Sound.{IsSound, IsUpdate};
ghost use Rattle.vf_queue.specs.Holding.{Holds, IsUnderway};
ghost use Rattle.vf_queue.specs.Moves.{IsMove};
ghost use Rattle.vf_queue.specs.Slots.{IsFreeIn, HasFree, ComesAt, IsPosted};
ghost use Rattle.vf_queue.specs.Updates.{update_of};
ghost use Rattle.vf_queue.specs.declared.update.Update.{Update};

use crate::addresses::{NONBLOCKING, TIME};
use crate::future::{last_until, put_in};
use crate::lists::join;
use crate::slots::{least_free, number, put_update, too_late};
use crate::update::Update;
use crate::writes::front;
use vf_base::{Ending, Memory};
use vf_elaborated::Design;
use vf_machine::Words;
use vf_patch::Patch;

/// A nonblocking assignment (IEEE Std 1364-2005, 9.2.2): each update takes the least free slot, and joins the nonblocking ones of now, or those of
/// a time to come. `Some(Ending::Events)` tells that too few slots are free, `Some(Ending::Time)` that the time would not fit 64 bits;
/// the run ends there, so what the patch then holds is of no use.
pub fn post<W: Words>(
    design: &Design,
    words: &W,
    patch: &mut Patch,
    updates: &[Update],
    delay: u64,
) -> Result<Option<Ending>, Memory>
    requires underway { IsUnderway design.now (W.contents words.now) patch.old }
    requires fits { All (λ (update : Update). IsUpdate design.now (update_of update)) updates.now }
    ensures { IfOk result (λ end. (s : State) → IsSound design.now s → Holds design.now (W.contents words.now) patch.old s
        → IsMove design.now (W.contents words.now) patch.new (posting.post delay (map update_of updates.now) s s) end) }
{
    let now = front(design, words, patch, TIME);
    let Some(at) = now.checked_add(delay) else {
        return Ok(Some(too_late(design, words, patch, updates.len())));
    };
    for update in updates {
        if !post_one(design, words, patch, update, delay, at)? {
            return Ok(Some(Ending::Events));
        }
    }
    Ok(None)
}

/// An update takes the least free slot. False tells that there is none; then nothing is written.
fn post_one<W: Words>(
    design: &Design,
    words: &W,
    patch: &mut Patch,
    update: &Update,
    delay: u64,
    at: u64,
) -> Result<bool, Memory>
    requires comes { ComesAt design.now (W.contents words.now) patch.old delay at }
    requires fits { IsUpdate design.now (update_of update.now) }
    ensures { IfOk result (λ found. (s : State) → IsSound design.now s → s.time + delay ≡ at → Holds design.now (W.contents words.now) patch.old s
        → IsPosted design.now (W.contents words.now) patch.new s delay (update_of update.now) found) }
{
    let Some(slot) = least_free(design, words, patch) else {
        return Ok(false);
    };
    if delay == 0 {
        post_now(design, words, patch, slot, update)?;
    } else {
        post_later(design, words, patch, slot, update, at)?;
    }
    Ok(true)
}

/// An update of now takes a free slot, and is the last of the nonblocking ones.
fn post_now<W: Words>(
    design: &Design,
    words: &W,
    patch: &mut Patch,
    slot: u32,
    update: &Update,
) -> Result<(), Memory>
    requires free { HasFree design.now (W.contents words.now) patch.old slot }
    requires fits { IsUpdate design.now (update_of update.now) }
    ensures { OnOk result ((s : State) → IsSound design.now s → IsFreeIn s slot → Holds design.now (W.contents words.now) patch.old s
        → Holds design.now (W.contents words.now) patch.new
        (record (posting.put_slot slot (model.Due (update_of update.now)) s) { nonblocking = s.nonblocking ++ model.of_slot slot ∷ [] })) }
{
    put_update(design, words, patch, slot, DUE_UPDATE, 0, update)?;
    join(design, words, patch, NONBLOCKING, number(design, slot))
}

/// An update of a time to come takes a free slot, and joins the future.
fn post_later<W: Words>(
    design: &Design,
    words: &W,
    patch: &mut Patch,
    slot: u32,
    update: &Update,
    at: u64,
) -> Result<(), Memory>
    requires free { HasFree design.now (W.contents words.now) patch.old slot }
    requires fits { IsUpdate design.now (update_of update.now) }
    ensures { OnOk result ((s : State) → IsSound design.now s → IsFreeIn s slot → Holds design.now (W.contents words.now) patch.old s
        → Holds design.now (W.contents words.now) patch.new (joins_future at (model.of_slot slot) (posting.put_slot slot (model.Later at (update_of update.now)) s))) }
{
    let last = last_until(design, words, patch, at);
    put_update(design, words, patch, slot, LATER_UPDATE, at, update)?;
    put_in(design, words, patch, last, number(design, slot))
}

// The words of what a slot holds.
const LATER_UPDATE: u64 = 1;

const DUE_UPDATE: u64 = 2;
