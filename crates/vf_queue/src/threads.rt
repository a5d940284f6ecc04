ghost use Rattle.std.specs.Prelude.{◌≡◌, ◌+◌, ◌<◌, ℕ, List, length, Some, OnOk};
ghost use Rattle.vf_scheduler.specs.State.{State, Status, Waiting, Halted, thread_of, goes_to, leaves};
ghost use Rattle.vf_scheduler.specs.Posting.{time_in};
ghost use Rattle.vf_scheduler.specs.Sound.{IsSound};
ghost use Rattle.vf_scheduler.specs.Words.{status_word};
ghost use Rattle.vf_queue.specs.Holding.{Holds};

use crate::addresses::RUNNING;
use crate::writes::{put, put_front};
use vf_base::Memory;
use vf_elaborated::Design;
use vf_patch::Patch;

/// The running process goes on to a place in its code.
pub fn go_to(design: &Design, patch: &mut Patch, process: u32, place: u32) -> Result<(), Memory>
    requires { process < length design.now.processes }
    ensures { OnOk result ((base : List ℕ) (s : State) → IsSound design.now s → s.running ≡ Some process
        → Holds design.now base patch.old s → Holds design.now base patch.new (goes_to process place s)) }
{
    put(patch, design.thread_at(process), u64::from(place))
}

/// The running process stays at its place and waits there.
pub fn wait(design: &Design, patch: &mut Patch, process: u32) -> Result<(), Memory>
    requires { process < length design.now.processes }
    ensures { OnOk result ((base : List ℕ) (s : State) → IsSound design.now s → s.running ≡ Some process
        → Holds design.now base patch.old s → Holds design.now base patch.new (leaves process (thread_of s process).place Waiting s)) }
{
    rest(design, patch, process, WAITING)
}

/// The running process has ended.
pub fn halt(design: &Design, patch: &mut Patch, process: u32) -> Result<(), Memory>
    requires { process < length design.now.processes }
    ensures { OnOk result ((base : List ℕ) (s : State) → IsSound design.now s → s.running ≡ Some process
        → Holds design.now base patch.old s → Holds design.now base patch.new (leaves process (thread_of s process).place Halted s)) }
{
    rest(design, patch, process, HALTED)
}

/// The running process leaves for a place, in a status with a time.
pub fn leave(
    design: &Design,
    patch: &mut Patch,
    process: u32,
    place: u32,
    word: u64,
    time: u64,
) -> Result<(), Memory>
    requires { process < length design.now.processes }
    ensures { OnOk result ((base : List ℕ) (s : State) (status : Status) → status_word status ≡ word → time_in status ≡ time
        → IsSound design.now s → s.running ≡ Some process
        → Holds design.now base patch.old s → Holds design.now base patch.new (leaves process place status s)) }
{
    let at = design.thread_at(process);
    put(patch, at, u64::from(place))?;
    put(patch, at + 1, word)?;
    put(patch, at + 3, time)?;
    put_front(patch, RUNNING, 0);
    Ok(())
}

/// The running process stays at its place, in a status that has no time.
fn rest(design: &Design, patch: &mut Patch, process: u32, word: u64) -> Result<(), Memory>
    requires { process < length design.now.processes }
    ensures { OnOk result ((base : List ℕ) (s : State) (status : Status) → status_word status ≡ word → time_in status ≡ 0
        → IsSound design.now s → s.running ≡ Some process
        → Holds design.now base patch.old s → Holds design.now base patch.new (leaves process (thread_of s process).place status s)) }
{
    put(patch, design.thread_at(process) + 1, word)?;
    put_front(patch, RUNNING, 0);
    Ok(())
}

// The words of where a process stands.
const HALTED: u64 = 0;

const WAITING: u64 = 1;
