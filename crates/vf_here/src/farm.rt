ghost use Rattle.std.specs.Prelude.{◌≡◌, ℕ, ◌+◌, ◌*◌, ◌<◌, ◌^◌, List, Some, None, IfOk, OnErr};
ghost use Rattle.std.specs.Arc.{arc_value};
ghost use Rattle.vf_jobs.specs.Setup.{IsSetup};
ghost use Rattle.vf_records.specs.Account.{IsAccount};
ghost use Rattle.vf_here.specs.Finished.{HasRun, AreAllOver};
ghost use Rattle.vf_here.specs.Work.{IsIdle, turns_in, left_in};

use crate::attempt::{known, run_job};
use std::alloc::Global;
use std::sync::Arc;
use std::sync::ledger::Ledger;
use vf_base::{Memory, Steps};
use vf_book::Book;
use vf_frames::{Frames, PlainPool};
use vf_jobs::Setup;
use vf_records::{Next, Records};

/// The budget of a setup, which keeps its rules.
fn budget(setup: &Setup) -> u32
    ensures budget { result ≡ setup.now.budget }
    ensures kept { IsSetup setup.now }
{
    setup.budget
}

/// Runs the jobs one after another until all are over.
fn run_all<F: Frames, L: Ledger>(
    alloc: Global,
    book: &mut Book<F>,
    pool: &mut F,
    hand: &mut F::Token,
    steps: &mut Steps<L>,
)
    requires idle { IsIdle (F.name pool.old) (F.numbers pool.old) book.old (F.seen hand.old) }
    requires count { steps.old.count < 2 ^ 62 }
    ensures idle { IsIdle (F.name pool.new) (F.numbers pool.new) book.new (F.seen hand.new) }
    ensures setup { book.new.account.setup ≡ book.old.account.setup }
    ensures kept { IsAccount book.new.account }
    ensures over { AreAllOver book.new.account }
    ensures turns { steps.new.count + turns_in book.old.account ≡ steps.old.count + turns_in book.new.account }
    ensures parts { steps.new.parts ≡ steps.old.parts }
{
    known(book.records());
    'jobs: loop {
        known(book.records());
        let Next::Job(job) = book.next_job() else {
            return;
        };
        run_job(alloc, book, pool, hand, job, steps);
    }
}

/// Runs the whole farm of a setup with one simulator at a time, over a pool of as many frames as the
/// budget has pages. In the records every job is over; their journal is lawful, so each outcome that is
/// told is that of the job's solo run; no image was given back that there was room for. The counter moves
/// by the turns of the journal. Where there is no memory for the pool or the book, nothing has run.
pub fn farm_here<L: Ledger>(
    alloc: Global,
    setup: &Arc<Setup>,
    steps: &mut Steps<L>,
) -> Result<Records, Memory>
    requires { steps.old.count < 2 ^ 62 }
    ensures farm { IfOk result (λ records. HasRun (arc_value setup.now) records steps.old steps.new) }
    ensures none { OnErr result (steps.new.count ≡ steps.old.count) }
    ensures parts { steps.new.parts ≡ steps.old.parts }
{
    let (mut pool, mut hand) = PlainPool::new(alloc, budget(setup))?;
    let mut book = Book::new(alloc, setup)?;
    run_all(alloc, &mut book, &mut pool, &mut hand, steps);
    Ok(book.strip(&mut pool, &mut hand))
}
