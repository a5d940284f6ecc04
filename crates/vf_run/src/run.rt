ghost use Rattle.std.specs.Prelude.{◌≡◌, ℕ, ◌+◌, ◌-◌, ◌<◌, ◌≤◌, ◌^◌, true, false, List, Option, Some, [], ◌∷◌, IfOk, IfSome, IfNone};
ghost use Rattle.vf_base.specs.declared.names.NodeNo.{NodeNo};
ghost use Rattle.vf_machine.specs.Run.{is_ending};
ghost use Rattle.vf_frames.specs.declared.holder.Holder.{Holder};
ghost use Rattle.vf_frames.specs.Holders.{Keeps, SamePool};
ghost use Rattle.vf_jobs.specs.Setup.{IsInRange};
ghost use Rattle.vf_image.specs.Runs.{limits_for, GoesPast};
ghost use Rattle.vf_image.specs.Simulators.{IsSimulator, IsNext};
ghost use Rattle.vf_image.specs.Standing.{IsAtSave};
ghost use Rattle.vf_run.specs.Stops.{Stops, TokenAt, HasKept, IsUnsaved, IsAnswer, reads_in, turns_made};

use crate::stop::Stop;
use std::alloc::Global;
use std::sync::ledger::Ledger;
use vf_base::{Job, Limits, Memory, SaveKind, Steps};
use vf_design::{Mark, Turn};
use vf_frames::Frames;
use vf_image::Sim;
use vf_jobs::limits_of;
use vf_kernel::{reads_next, turn};
use vf_pages::PageRefusal;

/// The kind of checkpoint, where the run that reaches a node is at the node's save point.
fn saved_here<F: Frames>(sim: &Sim<F>) -> Option<SaveKind>
    ensures some { IfSome result (λ kind. (node : NodeNo) × IsAtSave sim.now node × (sim.now.saved ≡ Some kind)) }
    ensures none { IfNone result (IsUnsaved sim.now.setup sim.now.job sim.now.header.turns) }
    ensures kept { IsSimulator sim.now }
{
    let Job::Reach(_) = sim.job() else {
        return None;
    };
    let Some(kind) = sim.saved() else {
        return None;
    };
    if sim.header().reads != sim.stimulus().len() as u64 {
        return None;
    }
    Some(kind)
}

/// Whether the turn reads, where nothing tells so but the design itself if the turn ends the run.
fn reads<F: Frames>(sim: &Sim<F>, next: &Turn) -> bool
    requires { IsNext sim.now next.now }
    ensures { result ≡ reads_in sim.now }
{
    match next.mark {
        Mark::Ended(_) => reads_next(&sim.setup().design, sim),
        Mark::Plain => sim.header().reads < next.header.reads,
        Mark::Saved(_) => sim.header().reads < next.header.reads,
    }
}

/// Whether the run that reaches a node would read past the node's stimulus by its next turn.
fn reads_past<F: Frames>(sim: &Sim<F>, next: &Turn) -> bool
    requires { IsNext sim.now next.now }
    ensures answer { IsAnswer sim.now.setup sim.now.job sim.now.header.turns result }
    ensures kept { IsSimulator sim.now }
{
    let Job::Reach(_) = sim.job() else {
        return false;
    };
    if sim.header().reads != sim.stimulus().len() as u64 {
        return false;
    }
    reads(sim, next)
}

/// Why the run stops before the turn that comes next, if it does.
fn stand<F: Frames>(sim: &Sim<F>, next: &Turn) -> Option<Stop>
    requires next { IsNext sim.now next.now }
    requires unsaved { IsUnsaved sim.now.setup sim.now.job sim.now.header.turns }
    ensures some { (numbers : Option (List ℕ)) (first : Holder) → IfSome result (λ stop. Stops numbers first sim.now stop) }
    ensures token { IfSome result (λ stop. TokenAt stop sim.now.pages.holder sim.now.pages.holder) }
    ensures once { IfSome result (λ stop. (sim.now.header.turns ≤ turns_made sim.now stop) × (turns_made sim.now stop ≤ sim.now.header.turns + 1)) }
    ensures within { IfSome result (λ stop. turns_made sim.now stop ≤ (limits_for sim.now.setup sim.now.job).turns) }
    ensures none { IfNone result (GoesPast sim.now.setup sim.now.job sim.now.header.turns × (is_ending next.now.mark ≡ false)) }
{
    if reads_past(sim, next) {
        return Some(Stop::ReadPast);
    }
    match next.mark {
        Mark::Ended(ending) => Some(Stop::Ended {
            ending,
            turns: next.header.turns,
        }),
        Mark::Plain => None,
        Mark::Saved(_) => None,
    }
}

/// Makes the turn that comes next.
fn next_turn<F: Frames>(sim: &Sim<F>, limits: &Limits, next: &mut Turn) -> Result<(), Memory>
    requires limits { limits.now ≡ limits_for sim.now.setup sim.now.job }
    requires range { IsInRange limits.now }
    ensures { IfOk result (λ _. IsNext sim.now next.new) }
{
    turn(
        &sim.setup().design,
        sim,
        sim.header(),
        sim.stimulus(),
        limits,
        next,
    )
}

/// Performs the next turn, or says why none is performed.
fn advance<F: Frames>(
    sim: &mut Sim<F>,
    pool: &mut F,
    limits: &Limits,
    next: &mut Turn,
) -> Option<Stop>
    requires name { sim.old.pages.holder.name ≡ F.name pool.old }
    requires limits { limits.now ≡ limits_for sim.old.setup sim.old.job }
    requires range { IsInRange limits.now }
    ensures some { IfSome result (λ stop. Stops (F.numbers pool.old) sim.old.pages.holder sim.new stop) }
    ensures none { IfNone result (sim.new.header.turns ≡ sim.old.header.turns + 1) }
    ensures stayed { IfSome result (λ _. sim.new.header.turns ≡ sim.old.header.turns) }
    ensures setup { sim.new.setup ≡ sim.old.setup }
    ensures job { sim.new.job ≡ sim.old.job }
    ensures token { IfSome result (λ stop. TokenAt stop sim.old.pages.holder sim.new.pages.holder) }
    ensures token_kept { IfNone result (HasKept sim.old.pages.holder sim.new.pages.holder) }
    ensures once { IfSome result (λ stop. (sim.new.header.turns ≤ turns_made sim.new stop) × (turns_made sim.new stop ≤ sim.new.header.turns + 1)) }
    ensures within { IfSome result (λ stop. turns_made sim.new stop ≤ (limits_for sim.old.setup sim.old.job).turns) }
    ensures less { IfNone result (sim.old.header.turns < (limits_for sim.old.setup sim.old.job).turns) }
    ensures kept { Keeps (F.numbers pool.old) (sim.old.pages.holder ∷ []) (F.numbers pool.new) (sim.new.pages.holder ∷ []) }
    ensures pool { SamePool (F.name pool.old) (F.numbers pool.old) (F.name pool.new) (F.numbers pool.new) }
{
    if let Some(kind) = saved_here(sim) {
        return Some(Stop::AtSave(kind));
    }
    let Ok(()) = next_turn(sim, limits, next) else {
        return Some(Stop::Memory);
    };
    if let Some(stop) = stand(sim, next) {
        return Some(stop);
    }
    match sim.advance(pool, next) {
        Ok(()) => None,
        Err(PageRefusal::Short(pages)) => Some(Stop::Short(pages)),
        Err(PageRefusal::Memory) => Some(Stop::Memory),
    }
}

/// Counts the turn that ends the run, where it counts.
fn count_end<F: Frames, L: Ledger>(sim: &Sim<F>, stop: Stop, steps: &mut Steps<L>)
    requires once { (sim.now.header.turns ≤ turns_made sim.now stop) × (turns_made sim.now stop ≤ sim.now.header.turns + 1) }
    requires room { steps.old.count + turns_made sim.now stop < 2 ^ 64 + sim.now.header.turns }
    ensures steps { steps.new.count + sim.now.header.turns ≡ steps.old.count + turns_made sim.now stop }
    ensures parts { steps.new.parts ≡ steps.old.parts }
{
    if let Stop::Ended { ending: _, turns } = stop {
        if turns > sim.header().turns {
            steps.tick();
        }
    }
}

/// Runs a simulator on, turn by turn, and says why it stops. The run that reaches a node stops at the
/// node's save point, or where it would read past the node's stimulus; every run stops at its ending.
/// The step counter moves by the turns made, the ending turn with them where it counts. After `Short` or
/// `Memory` the simulator stands at its last whole turn, and a later call goes on from there. The token
/// keeps its parts; its notes only grow, and its misses grow by one where the answer is `Short`.
pub fn go<F: Frames, L: Ledger>(
    alloc: Global,
    sim: &mut Sim<F>,
    pool: &mut F,
    steps: &mut Steps<L>,
) -> Stop
    requires name { sim.old.pages.holder.name ≡ F.name pool.old }
    requires room { steps.old.count + (limits_for sim.old.setup sim.old.job).turns < 2 ^ 64 }
    ensures stop { Stops (F.numbers pool.old) sim.old.pages.holder sim.new result }
    ensures setup { sim.new.setup ≡ sim.old.setup }
    ensures job { sim.new.job ≡ sim.old.job }
    ensures forward { sim.old.header.turns ≤ sim.new.header.turns }
    ensures token { TokenAt result sim.old.pages.holder sim.new.pages.holder }
    ensures steps { steps.new.count + sim.old.header.turns ≡ steps.old.count + turns_made sim.new result }
    ensures within { turns_made sim.new result ≤ (limits_for sim.old.setup sim.old.job).turns }
    ensures parts { steps.new.parts ≡ steps.old.parts }
    ensures kept { Keeps (F.numbers pool.old) (sim.old.pages.holder ∷ []) (F.numbers pool.new) (sim.new.pages.holder ∷ []) }
    ensures pool { SamePool (F.name pool.old) (F.numbers pool.old) (F.name pool.new) (F.numbers pool.new) }
{
    let limits = limits_of(sim.setup(), sim.job());
    let mut next = Turn::new(alloc);
    'turns: loop {
        if let Some(stop) = advance(sim, pool, &limits, &mut next) {
            count_end(sim, stop, steps);
            return stop;
        }
        steps.tick();
    }
}
