ghost use Rattle.std.specs.Prelude.{◌≡◌, ◌<◌, ℕ, List, [], ◌∷◌, ◌++◌, length, Some, true, false, IfOk, OnOk};
ghost use Rattle.vf_scheduler.specs.State as model;
ghost use Rattle.vf_scheduler.specs.State.{State, of_process, thread_of, put_thread};
ghost use Rattle.vf_scheduler.specs.Sound.{IsSound};
ghost use Rattle.vf_scheduler.specs.Turning.{take_item};
ghost use Rattle.vf_scheduler.specs.Updating.{is_waiting};
ghost use Rattle.vf_layout.specs.Regions.{number};
ghost use Rattle.vf_queue.specs.Holding.{Holds, IsUnderway};
ghost use Rattle.vf_queue.specs.Moves.{HasActive, CanWake};

use crate::addresses::{ACTIVE, DUE, MONITOR, NONBLOCKING, RUNNING};
use crate::lists::{join, make_active, take};
use crate::writes::{put, put_front};
use vf_base::Memory;
use vf_elaborated::Design;
use vf_machine::Words;
use vf_patch::Patch;

/// The first event of the active region leaves it (IEEE Std 1364-2005, 11.4). Its number is told: the processes are numbered first, then
/// the event slots.
pub fn take_active<W: Words>(design: &Design, words: &W, patch: &mut Patch) -> Result<u32, Memory>
    requires { HasActive design.now (W.contents words.now) patch.old }
    ensures { IfOk result (λ n. (s : State) (item : model.Item) (rest : List model.Item) → IsSound design.now s → s.active ≡ item ∷ rest
        → Holds design.now (W.contents words.now) patch.old s
        → (number design.now item ≡ n) × Holds design.now (W.contents words.now) patch.new (record s { active = rest })) }
{
    take(design, words, patch, ACTIVE, true)
}

/// A process that was the first active event runs.
pub fn run(design: &Design, patch: &mut Patch, process: u32) -> Result<(), Memory>
    requires { process < length design.now.processes }
    ensures { OnOk result ((base : List ℕ) (s : State) (rest : List model.Item) → IsSound design.now s → s.active ≡ of_process process ∷ rest
        → Holds design.now base patch.old (record s { active = rest })
        → Holds design.now base patch.new (take_item design.now (of_process process) (record s { active = rest }))) }
{
    put(patch, design.thread_at(process) + 1, RUNNING_STATUS)?;
    put_front(patch, RUNNING, u64::from(process) + 1);
    Ok(())
}

/// A waiting process wakes: it goes on at a place, as the last active event (IEEE Std 1364-2005, 9.7).
pub fn wake<W: Words>(
    design: &Design,
    words: &W,
    patch: &mut Patch,
    process: u32,
    place: u32,
) -> Result<(), Memory>
    requires { CanWake design.now (W.contents words.now) patch.old process }
    ensures { OnOk result ((s : State) → IsSound design.now s → is_waiting (thread_of s process).status ≡ true
        → Holds design.now (W.contents words.now) patch.old s
        → Holds design.now (W.contents words.now) patch.new
        (record (put_thread process (record { place = place; status = model.Active }) s) { active = s.active ++ of_process process ∷ [] })) }
{
    let at = design.thread_at(process);
    put(patch, at, u64::from(place))?;
    put(patch, at + 1, ACTIVE_STATUS)?;
    join(design, words, patch, ACTIVE, process)
}

/// Where no event is active or inactive, the nonblocking updates become active, in order.
pub fn promote_updates<W: Words>(design: &Design, words: &W, patch: &mut Patch)
    requires { IsUnderway design.now (W.contents words.now) patch.old }
    ensures { (s : State) → IsSound design.now s → s.active ≡ [] → s.inactive ≡ [] → Holds design.now (W.contents words.now) patch.old s
        → Holds design.now (W.contents words.now) patch.new (record s { active = s.nonblocking; nonblocking = [] }) }
{
    make_active(design, words, patch, NONBLOCKING);
}

/// `$monitor` of a show: it prints once at the end of this time step, and after each change of what it names (clause 17.1.3).
pub fn watch<W: Words>(design: &Design, words: &W, patch: &mut Patch, show: u32)
    requires { IsUnderway design.now (W.contents words.now) patch.old }
    ensures { (s : State) → Holds design.now (W.contents words.now) patch.old s
        → Holds design.now (W.contents words.now) patch.new (record s { monitor = Some show; due = true }) }
{
    put_front(patch, MONITOR, u64::from(show) + 1);
    put_front(patch, DUE, 1);
}

/// The monitor has printed, and is not due until a change.
pub fn settle_monitor<W: Words>(design: &Design, words: &W, patch: &mut Patch)
    requires { IsUnderway design.now (W.contents words.now) patch.old }
    ensures { (s : State) → Holds design.now (W.contents words.now) patch.old s → Holds design.now (W.contents words.now) patch.new (record s { due = false }) }
{
    put_front(patch, DUE, 0);
}

// The words of where a process stands.
const ACTIVE_STATUS: u64 = 2;

const RUNNING_STATUS: u64 = 5;
