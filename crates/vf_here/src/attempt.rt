//! One job at a time, from its start until it is over.

ghost use Rattle.std.specs.Prelude.{◌≡◌, ℕ, ◌+◌, ◌<◌, ◌≤◌, ◌^◌, List, [], Some, None};
ghost use Rattle.vf_plan.specs.declared.limits.TheConstants.{MOST_TURNS};
ghost use Rattle.vf_journal.specs.Records.{Attempt};
ghost use Rattle.vf_journal.specs.Effects.{IsRunning};
ghost use Rattle.vf_records.specs.declared.next.Next.TheVariants as nexts;
ghost use Rattle.vf_records.specs.Account.{next_job_of, records_in, IsAccount};
ghost use Rattle.vf_image.specs.Runs.{limits_for};
ghost use Rattle.vf_image.specs.Standing.{IsEnding, IsOver};
ghost use Rattle.vf_run.specs.Stops.{turns_made};
ghost use Rattle.vf_here.specs.Work.{IsIdle, IsAtWork, IsClosing, Closes, turns_in, left_in};

use std::alloc::Global;
use std::sync::ledger::Ledger;
use vf_base::{Ending, Job, Memory, Steps};
use vf_book::Book;
use vf_frames::Frames;
use vf_image::Sim;
use vf_jobs::limits_of;
use vf_records::Records;
use vf_run::{Stop, go};

/// What the type of the records keeps.
pub(crate) fn known(records: &Records)
    ensures { IsAccount records.now }
{
    let _ = records.journal();
}

/// A run makes no more turns than a job may have.
fn limited<F: Frames>(sim: &Sim<F>)
    ensures { (limits_for sim.now.setup sim.now.job).turns ≤ MOST_TURNS }
{
    let job = sim.job();
    let _ = limits_of(sim.setup(), job);
}

/// Ends an attempt with the ending of its run.
fn end<F: Frames>(
    book: &mut Book<F>,
    pool: &mut F,
    hand: &mut F::Token,
    sim: Sim<F>,
    ending: Ending,
    turns: u64,
)
    requires work { IsAtWork (F.name pool.old) (F.numbers pool.old) book.old (F.seen hand.old) sim }
    requires ending { IsEnding sim ending turns }
    ensures idle { IsIdle (F.name pool.new) (F.numbers pool.new) book.new (F.seen hand.new) }
    ensures closed { Closes sim.job turns book.old.account book.new.account }
    ensures later { sim.header.turns ≤ turns }
{
    match sim.job() {
        Job::Reach(_) => book.note_ended(pool, hand, sim, ending, turns),
        Job::Finish(_) => book.finish(pool, hand, sim, ending, turns),
    }
}

/// Ends an attempt whose run stops for another reason than that a frame is lacking.
fn close<F: Frames>(book: &mut Book<F>, pool: &mut F, hand: &mut F::Token, sim: Sim<F>, stop: Stop)
    requires work { IsAtWork (F.name pool.old) (F.numbers pool.old) book.old (F.seen hand.old) sim }
    requires stop { IsClosing sim stop }
    ensures idle { IsIdle (F.name pool.new) (F.numbers pool.new) book.new (F.seen hand.new) }
    ensures closed { Closes sim.job (turns_made sim stop) book.old.account book.new.account }
    ensures later { sim.header.turns ≤ turns_made sim stop }
{
    match stop {
        Stop::AtSave(kind) => book.put_image(pool, hand, sim, kind),
        Stop::ReadPast => book.note_passed(pool, hand, sim),
        Stop::Ended { ending, turns } => end(book, pool, hand, sim, ending, turns),
        Stop::Short(_) => unreachable!(),
        Stop::Memory => book.lose(pool, hand, sim),
    }
}

/// Ends an attempt whose run would pass the budget with its next turn.
fn pass_budget<F: Frames>(
    book: &mut Book<F>,
    pool: &mut F,
    hand: &mut F::Token,
    sim: Sim<F>,
    pages: u32,
)
    requires work { IsAtWork (F.name pool.old) (F.numbers pool.old) book.old (F.seen hand.old) sim }
    requires none { (records_in book.old.account).held ≡ [] }
    requires over { IsOver sim pages }
    ensures idle { IsIdle (F.name pool.new) (F.numbers pool.new) book.new (F.seen hand.new) }
    ensures closed { Closes sim.job sim.header.turns book.old.account book.new.account }
{
    book.over(pool, hand, sim, pages);
}

/// Runs an attempt until its job is over. Where a frame is lacking an image is given back and the run
/// goes on; where no image is held, the run has passed the budget.
fn run<F: Frames, L: Ledger>(
    alloc: Global,
    book: &mut Book<F>,
    pool: &mut F,
    hand: &mut F::Token,
    sim: Sim<F>,
    steps: &mut Steps<L>,
)
    requires work { IsAtWork (F.name pool.old) (F.numbers pool.old) book.old (F.seen hand.old) sim }
    requires room { steps.old.count < 2 ^ 63 }
    ensures idle { IsIdle (F.name pool.new) (F.numbers pool.new) book.new (F.seen hand.new) }
    ensures setup { book.new.account.setup ≡ book.old.account.setup }
    ensures less { left_in book.new.account < left_in book.old.account }
    ensures turns { (attempt : Attempt) → IsRunning (records_in book.old.account) sim.job attempt
        → steps.new.count + sim.header.turns + turns_in book.old.account ≡ steps.old.count + turns_in book.new.account + attempt.since }
    ensures most { steps.new.count ≤ steps.old.count + MOST_TURNS }
    ensures parts { steps.new.parts ≡ steps.old.parts }
{
    limited(&sim);
    let mut sim = sim;
    'turns: loop {
        known(book.records());
        let stop = go(alloc, &mut sim, pool, steps);
        let Stop::Short(pages) = stop else {
            close(book, pool, hand, sim, stop);
            return;
        };
        if !book.evict_one(pool, hand, &mut sim) {
            pass_budget(book, pool, hand, sim, pages);
            return;
        }
    }
}

/// The job that comes next is started and run until it is over, or lost where it cannot be started.
pub(crate) fn run_job<F: Frames, L: Ledger>(
    alloc: Global,
    book: &mut Book<F>,
    pool: &mut F,
    hand: &mut F::Token,
    job: Job,
    steps: &mut Steps<L>,
)
    requires idle { IsIdle (F.name pool.old) (F.numbers pool.old) book.old (F.seen hand.old) }
    requires next { next_job_of book.old.account ≡ nexts.Job job }
    requires room { steps.old.count < 2 ^ 63 }
    ensures idle { IsIdle (F.name pool.new) (F.numbers pool.new) book.new (F.seen hand.new) }
    ensures setup { book.new.account.setup ≡ book.old.account.setup }
    ensures less { left_in book.new.account < left_in book.old.account }
    ensures turns { steps.new.count + turns_in book.old.account ≡ steps.old.count + turns_in book.new.account }
    ensures most { steps.new.count ≤ steps.old.count + MOST_TURNS }
    ensures parts { steps.new.parts ≡ steps.old.parts }
{
    known(book.records());
    match book.fork_for(alloc, pool, hand, job) {
        Ok(sim) => run(alloc, book, pool, hand, sim, steps),
        Err(Memory) => book.lose_unstarted(pool, hand, job),
    }
}
