ghost use Rattle.std.specs.Prelude.{◌≡◌, ◌++◌, ◌∷◌, [], Some, OnOk, IfOk};
ghost use Rattle.vf_scheduler.specs.State.{State, Inactive, Future, of_process, leaves};
ghost use Rattle.vf_scheduler.specs.Posting.{delayed, joins_future};
ghost use Rattle.vf_scheduler.specs.Sound.{IsSound};
ghost use Rattle.vf_queue.specs.Holding.{Holds};
ghost use Rattle.vf_queue.specs.Moves.{IsMove, IsRunning};

use crate::addresses::{INACTIVE, TIME};
use crate::future::{last_until, put_in};
use crate::lists::join;
use crate::threads::leave;
use crate::writes::front;
use vf_base::{Ending, Memory};
use vf_elaborated::Design;
use vf_machine::Words;
use vf_patch::Patch;

/// A delay control (IEEE Std 1364-2005, 9.7.1): the running process goes on at a place after a delay; without one it is an inactive event
/// of now. `Some(Ending::Time)` tells that the time would not fit 64 bits; then nothing is written.
pub fn delay<W: Words>(
    design: &Design,
    words: &W,
    patch: &mut Patch,
    process: u32,
    place: u32,
    delay: u64,
) -> Result<Option<Ending>, Memory>
    requires { IsRunning design.now (W.contents words.now) patch.old process }
    ensures { IfOk result (λ end. (s : State) → IsSound design.now s → s.running ≡ Some process → Holds design.now (W.contents words.now) patch.old s
        → IsMove design.now (W.contents words.now) patch.new (delayed process place delay s) end) }
{
    if delay == 0 {
        become_inactive(design, words, patch, process, place)?;
        return Ok(None);
    }
    let now = front(design, words, patch, TIME);
    let Some(at) = now.checked_add(delay) else {
        return Ok(Some(Ending::Time));
    };
    become_future(design, words, patch, process, place, at)?;
    Ok(None)
}

/// The running process is the last of the inactive events.
fn become_inactive<W: Words>(
    design: &Design,
    words: &W,
    patch: &mut Patch,
    process: u32,
    place: u32,
) -> Result<(), Memory>
    requires { IsRunning design.now (W.contents words.now) patch.old process }
    ensures { OnOk result ((s : State) → IsSound design.now s → s.running ≡ Some process → Holds design.now (W.contents words.now) patch.old s
        → Holds design.now (W.contents words.now) patch.new (record (leaves process place Inactive s) { inactive = s.inactive ++ of_process process ∷ [] })) }
{
    leave(design, patch, process, place, INACTIVE_STATUS, 0)?;
    join(design, words, patch, INACTIVE, process)
}

/// The running process is an event of the future.
fn become_future<W: Words>(
    design: &Design,
    words: &W,
    patch: &mut Patch,
    process: u32,
    place: u32,
    at: u64,
) -> Result<(), Memory>
    requires { IsRunning design.now (W.contents words.now) patch.old process }
    ensures { OnOk result ((s : State) → IsSound design.now s → s.running ≡ Some process → Holds design.now (W.contents words.now) patch.old s
        → Holds design.now (W.contents words.now) patch.new (joins_future at (of_process process) (leaves process place (Future at) s))) }
{
    let last = last_until(design, words, patch, at);
    leave(design, patch, process, place, FUTURE_STATUS, at)?;
    put_in(design, words, patch, last, process)
}

// The words of where a process stands.
const INACTIVE_STATUS: u64 = 3;

const FUTURE_STATUS: u64 = 4;
