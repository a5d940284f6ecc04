ghost use Rattle.std.specs.Prelude.{◌≡◌, ◌-◌, ◌<◌, ◌≤◌, ◌^◌, [], ◌∷◌, Some, slice_get, IfOk, if◌then◌else◌};
ghost use Rattle.vf_machine.specs.Run.{turn_of};
ghost use Rattle.vf_design.specs.Program.{Program};
ghost use Rattle.vf_design.specs.Step as defined;
ghost use Rattle.vf_design.specs.Words.{machine_of};
ghost use Rattle.vf_kernel.specs.declared.state.Status.TheVariants as statuses;
ghost use Rattle.vf_kernel.specs.State.{state_of};
ghost use Rattle.vf_kernel.specs.Turns.{IsBegun, Tells};

use crate::state::State;
use crate::write::{assign, go, halt};
use vf_base::{Ending, Header, Limits, Memory, SaveKind};
use vf_design::{Condition, Instr, Mark, Turn};

/// Does the instruction of a running process. The turn is begun, and no limit stands before it.
pub fn perform(
    instr: Instr,
    state: State,
    header: &Header,
    stim: &[u8],
    limits: &Limits,
    into: &mut Turn,
) -> Result<(), Memory>
    requires running { state.status ≡ statuses.Running }
    requires place { state.place < 65536 }
    requires reads { header.now.reads < 2 ^ 64 - 1 }
    requires turns { header.now.turns < limits.now.turns }
    requires output { header.now.written ≤ limits.now.output }
    requires begun { IsBegun header.now into.old }
    ensures { IfOk result (λ _. (p : Program) → defined.instruction p (state_of state) ≡ Some instr
        → Tells p (state_of state) (turn_of (machine_of p) stim.now limits.now (record { state = state_of state; header = header.now })) into.new) }
{
    let next = state.place + 1;
    match instr {
        Instr::Getc => {
            into.header.reads += 1;
            go(state.place, next, &mut into.writes)?;
            let byte = next_byte(stim, header.reads);
            assign(state.value, read_value(byte), &mut into.writes)
        }
        Instr::Jump(to) => go(state.place, to, &mut into.writes),
        Instr::Unless { condition, to } => {
            let place = branch(holds(condition, state.value), next, to);
            go(state.place, place, &mut into.writes)
        }
        Instr::Show => {
            if header.written >= limits.output {
                into.mark = Mark::Ended(Ending::Output);
                return Ok(());
            }
            into.header.written += 1;
            into.text.push_all(&[shown(state.value)])?;
            go(state.place, next, &mut into.writes)
        }
        Instr::Save => {
            into.mark = Mark::Saved(SaveKind::Full);
            go(state.place, next, &mut into.writes)
        }
        Instr::IncSave => {
            into.mark = Mark::Saved(SaveKind::Incr);
            go(state.place, next, &mut into.writes)
        }
        Instr::Finish(number) => {
            into.mark = Mark::Ended(Ending::Finish(number));
            Ok(())
        }
        Instr::Halt => halt(&mut into.writes),
    }
}

/// The place after a condition.
fn branch(holds: bool, next: u32, to: u32) -> u32
    ensures { result ≡ (if holds then next else to) }
{
    if holds { next } else { to }
}

/// The next byte of the stimulus, where one is left.
fn next_byte(stim: &[u8], at: u64) -> Option<u8>
    ensures { result ≡ slice_get stim.now at }
{
    stim.get(at as usize).copied()
}

/// What `$fgetc` gives.
fn read_value(byte: Option<u8>) -> u32
    ensures { result ≡ defined.read_value byte }
{
    match byte {
        Some(byte) => u32::from(byte),
        None => u32::MAX,
    }
}

fn holds(condition: Condition, value: Option<u32>) -> bool
    ensures { result ≡ defined.holds condition value }
{
    match value {
        None => false,
        Some(n) => (n == condition.number) == condition.equal,
    }
}

/// The byte that `%c` writes.
fn shown(value: Option<u32>) -> u8
    ensures { result ∷ [] ≡ defined.shown value }
{
    match value {
        None => 0,
        Some(n) => (n % 256) as u8,
    }
}
