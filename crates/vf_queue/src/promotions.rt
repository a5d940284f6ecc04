ghost use Rattle.std.specs.Prelude.{◌≡◌, ◌<◌, ◌≤◌, ◌∷◌, ◌++◌, [], ℕ, List, length, map, OnOk};
ghost use Rattle.vf_scheduler.specs.State as model;
ghost use Rattle.vf_scheduler.specs.State.{State, Later, Due, of_process, of_slot};
ghost use Rattle.vf_scheduler.specs.Posting.{put_slot, time_of};
ghost use Rattle.vf_scheduler.specs.Turning.{activated, advanced};
ghost use Rattle.vf_scheduler.specs.Sound.{IsSound, Rises, slot_of};
ghost use Rattle.vf_layout.specs.Laws.{IsWritten};
ghost use Rattle.vf_queue.specs.Holding.{Holds, IsUnderway};
ghost use Rattle.vf_queue.specs.Promotions.{promoted, promoted_all, came, came_all, CanJoin, HasInactive, HasFuture, HasLater, ComesNext};

use crate::addresses::{ACTIVE, FUTURE, INACTIVE, NONBLOCKING, TIME};
use crate::future::event_count;
use crate::lists::{join, take};
use crate::slots::number;
use crate::writes::{event, front, put, put_front, time};
use vf_base::Memory;
use vf_elaborated::Design;
use vf_machine::Words;
use vf_patch::Patch;

/// Where no event is active, the inactive ones become active, in order (IEEE Std 1364-2005, 11.3).
pub fn promote_inactive<W: Words>(
    design: &Design,
    words: &W,
    patch: &mut Patch,
) -> Result<(), Memory>
    requires { IsUnderway design.now (W.contents words.now) patch.old }
    ensures { OnOk result ((s : State) → IsSound design.now s → Holds design.now (W.contents words.now) patch.old s
        → Holds design.now (W.contents words.now) patch.new (promoted_all s)) }
{
    for _ in 0..event_count(design) {
        if front(design, words, patch, INACTIVE) == 0 {
            return Ok(());
        }
        promote_one(design, words, patch)?;
    }
    Ok(())
}

/// The first inactive event becomes the last active one.
fn promote_one<W: Words>(design: &Design, words: &W, patch: &mut Patch) -> Result<(), Memory>
    requires { HasInactive design.now (W.contents words.now) patch.old }
    ensures { OnOk result ((s : State) (first : model.Item) (rest : List model.Item) → IsSound design.now s → s.inactive ≡ first ∷ rest
        → Holds design.now (W.contents words.now) patch.old s → Holds design.now (W.contents words.now) patch.new (promoted first rest s)) }
{
    let process = take(design, words, patch, INACTIVE, true)?;
    activate(design, words, patch, process)
}

/// A process that stands in no list becomes the last active event.
fn activate<W: Words>(
    design: &Design,
    words: &W,
    patch: &mut Patch,
    process: u32,
) -> Result<(), Memory>
    requires joins { CanJoin design.now (W.contents words.now) patch.old }
    requires process { process < length design.now.processes }
    ensures { OnOk result ((s : State) → IsWritten design.now s → Holds design.now (W.contents words.now) patch.old s
        → Holds design.now (W.contents words.now) patch.new (record (activated (of_process process) s) { active = s.active ++ of_process process ∷ [] })) }
{
    let at = design.thread_at(process);
    put(patch, at + 1, ACTIVE_STATUS)?;
    put(patch, at + 3, 0)?;
    join(design, words, patch, ACTIVE, process)
}

/// An update of a time to come, that stands in no list, is one of now: the last of the nonblocking ones.
fn make_due<W: Words>(
    design: &Design,
    words: &W,
    patch: &mut Patch,
    slot: u32,
) -> Result<(), Memory>
    requires later { HasLater design.now (W.contents words.now) patch.old slot }
    requires slot { slot < design.now.slots }
    ensures { OnOk result ((s : State) (at : ℕ) (u : model.Update) → IsWritten design.now s → slot_of s slot ≡ Later at u
        → Holds design.now (W.contents words.now) patch.old s
        → Holds design.now (W.contents words.now) patch.new (record (put_slot slot (Due u) s) { nonblocking = s.nonblocking ++ of_slot slot ∷ [] })) }
{
    // The addresses fit, since a design has few words.
    let _processes = &design.processes;
    let at = design.slot_at(slot);
    put(patch, at, DUE_UPDATE)?;
    put(patch, at + 2, 0)?;
    join(design, words, patch, NONBLOCKING, number(design, slot))
}

/// The first event of the future comes.
fn arrive_one<W: Words>(design: &Design, words: &W, patch: &mut Patch) -> Result<(), Memory>
    requires { HasFuture design.now (W.contents words.now) patch.old }
    ensures { OnOk result ((s : State) (first : model.Item) (rest : List model.Item) → IsSound design.now s → s.future ≡ first ∷ rest
        → Holds design.now (W.contents words.now) patch.old s → Holds design.now (W.contents words.now) patch.new (came first rest s)) }
{
    let number = take(design, words, patch, FUTURE, false)?;
    let processes = design.processes.len() as u32;
    if number < processes {
        activate(design, words, patch, number)
    } else {
        make_due(design, words, patch, number - processes)
    }
}

/// All events of a time come, in order, where no event of the future is before it.
fn arrive_all<W: Words>(
    design: &Design,
    words: &W,
    patch: &mut Patch,
    at: u64,
) -> Result<(), Memory>
    requires { ComesNext design.now (W.contents words.now) patch.old at }
    ensures { OnOk result ((s : State) → IsSound design.now s → Rises at (map (time_of s) s.future) → Holds design.now (W.contents words.now) patch.old s
        → Holds design.now (W.contents words.now) patch.new (came_all at s)) }
{
    for _ in 0..event_count(design) {
        let next = front(design, words, patch, FUTURE);
        if next == 0 {
            return Ok(());
        }
        if time(design, words, patch, event(design, next)) != at {
            return Ok(());
        }
        arrive_one(design, words, patch)?;
    }
    Ok(())
}

/// Where nothing is left of this time step, time goes on to that of the first event of the future (IEEE Std 1364-2005, 11.4). All events
/// of that time come, in order: processes become active, and updates join the nonblocking ones.
pub fn advance<W: Words>(design: &Design, words: &W, patch: &mut Patch) -> Result<(), Memory>
    requires { HasFuture design.now (W.contents words.now) patch.old }
    ensures { OnOk result ((s : State) (first : model.Item) (rest : List model.Item) → IsSound design.now s → s.active ≡ [] → s.nonblocking ≡ []
        → s.future ≡ first ∷ rest → Holds design.now (W.contents words.now) patch.old s
        → Holds design.now (W.contents words.now) patch.new (advanced (time_of s first) s)) }
{
    let first = event(design, front(design, words, patch, FUTURE));
    let at = time(design, words, patch, first);
    arrive_all(design, words, patch, at)?;
    put_front(patch, TIME, at);
    Ok(())
}

// The word of an active process, and that of a slot with an update of now.
const ACTIVE_STATUS: u64 = 2;

const DUE_UPDATE: u64 = 2;
