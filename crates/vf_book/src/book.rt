ghost use Rattle.std.specs.Prelude.{◌≡◌, ◌≤◌, [], ◌∷◌, List, Option, Some, None, length, true, false, if◌then◌else◌, IfOk, OnErr, MatchResult, MatchBool, option_map};
ghost use Rattle.std.specs.Arc.{arc_value};
ghost use Rattle.vf_base.specs.declared.names.NodeNo.{NodeNo};
ghost use Rattle.vf_base.specs.declared.names.Job.TheVariants.{Reach, Finish};
ghost use Rattle.vf_frames.specs.Holders.{Keeps, SamePool};
ghost use Rattle.vf_jobs.specs.Jobs.{node_of};
ghost use Rattle.vf_journal.specs.Records.{is_ready};
ghost use Rattle.vf_journal.specs.Effects.{IsAlone};
ghost use Rattle.vf_records.specs.Account.{farm_of, records_in, next_job_of, IsAccount};
ghost use Rattle.vf_image.specs.Runs.{touched_in};
ghost use Rattle.vf_image.specs.Simulators.{IsSimulator};
ghost use Rattle.vf_image.specs.Standing.{IsAtSave, IsPassing, IsEnding, IsOver};
ghost use Rattle.vf_book.specs.Book.{holders, Appends, IsBook, Evicts, HandKept, HandLent, IsOf, Saves, Serves};
ghost use Rattle.vf_book.specs.Attempts.{IsOpen, Starts};

use crate::fork::{keep, put, start_from};
use crate::images::{end_attempt, entries, give_back, no_images, release_all, release_retired};
use std::alloc::Global;
use std::marker::Model;
use std::sync::Arc;
use vf_base::{Ending, Header, Job, Memory, Outcome, SaveKind};
use vf_frames::Frames;
use vf_image::{Image, Sim};
use vf_jobs::{Setup, node_of};
use vf_journal::Entry;
use vf_records::{HeldImage, Next, Records};

/// The records of a farm, and the images that they hold, by the numbers of their nodes. The type
/// keeps that an image is there exactly where the records hold one. It takes all the memory that it
/// needs when it is made, but for the simulators.
#[derive(Drop)]
pub struct Book<F: Frames> {
    records: Records,
    images: Vec<Option<Image<F>>>,
}

/// What the type of the records keeps.
fn known(records: &Records)
    ensures { IsAccount records.now }
{
    let _ = records.journal();
}

/// The job of a simulator, and what it has counted. The pages that it has touched are frames of its
/// pool.
fn stand<F: Frames>(sim: &Sim<F>) -> (Job, Header)
    ensures job { result.0 ≡ sim.now.job }
    ensures header { result.1 ≡ sim.now.header }
    ensures kept { IsSimulator sim.now }
    ensures within { touched_in sim.now.setup sim.now.job sim.now.header.turns ≤ sim.now.pages.holder.name.frames }
{
    let _ = sim.pages();
    (sim.job(), *sim.header())
}

impl<F: Frames> Model for Book<F> {
    ghost use Rattle.vf_book.specs.Book.{BookView, IsBook};

    ghost Value = { BookView };

    ghost view = { λ b. record { account = b.records; images = b.images.items } };

    ghost invariant = { λ b. IsBook (record { account = b.records; images = b.images.items }) };
}

impl<F: Frames> Book<F> {
    /// The book of a farm in which nothing has been done.
    pub fn new(alloc: Global, setup: &Arc<Setup>) -> Result<Book<F>, Memory>
        ensures account { IfOk result (λ book. book.account ≡ record { setup = arc_value setup.now; journal = [] }) }
        ensures images { IfOk result (λ book. holders book.images ≡ []) }
    {
        let records = Records::new(alloc, setup)?;
        let plan = &setup.plan;
        let images = no_images(alloc, plan.nodes.len())?;
        Ok(Book { records, images })
    }

    /// What is known of jobs and images, and the journal.
    pub fn records(&self) -> &Records
        ensures records { result.now ≡ self.now.account }
        ensures kept { IsBook self.now }
    {
        &self.records
    }

    /// The job that comes next: the first one that is ready.
    pub fn next_job(&self) -> Next
        ensures { result ≡ next_job_of self.now.account }
    {
        self.records.next_job()
    }

    /// A simulator's job is over at the read past its node's stimulus, and its frames are given
    /// back.
    pub fn note_passed(&mut self, pool: &mut F, hand: &mut F::Token, sim: Sim<F>)
        requires pool { Serves (F.name pool.old) self.old (F.seen hand.old) }
        requires sim { IsOf (F.name pool.old) sim.pages.holder }
        requires open { IsOpen self.old.account sim }
        requires passing { IsPassing sim (record { 0 = node_of sim.job }) }
        ensures entry { Appends (Entry.Pass (record { 0 = node_of sim.job }) sim.header.turns) self.old.account self.new.account }
        ensures pool { Serves (F.name pool.new) self.new (F.seen hand.new) }
        ensures hand { HandKept (F.seen hand.old) (F.seen hand.new) }
        ensures kept { Keeps (F.numbers pool.old) (F.seen hand.old ∷ sim.pages.holder ∷ holders self.old.images)
            (F.numbers pool.new) (F.seen hand.new ∷ holders self.new.images) }
        ensures same { SamePool (F.name pool.old) (F.numbers pool.old) (F.name pool.new) (F.numbers pool.new) }
    {
        let (job, header) = stand(&sim);
        let since = entries(&self.records);
        self.records.pass(node_of(job), header.turns);
        end_attempt(&self.records, since, &mut self.images, pool, hand, sim);
    }

    /// A simulator's job is over without an outcome, since memory ran out, and its frames are given
    /// back.
    pub fn lose(&mut self, pool: &mut F, hand: &mut F::Token, sim: Sim<F>)
        requires pool { Serves (F.name pool.old) self.old (F.seen hand.old) }
        requires sim { IsOf (F.name pool.old) sim.pages.holder }
        requires open { IsOpen self.old.account sim }
        ensures entry { Appends (Entry.Lost sim.job sim.header.turns) self.old.account self.new.account }
        ensures pool { Serves (F.name pool.new) self.new (F.seen hand.new) }
        ensures hand { HandKept (F.seen hand.old) (F.seen hand.new) }
        ensures kept { Keeps (F.numbers pool.old) (F.seen hand.old ∷ sim.pages.holder ∷ holders self.old.images)
            (F.numbers pool.new) (F.seen hand.new ∷ holders self.new.images) }
        ensures same { SamePool (F.name pool.old) (F.numbers pool.old) (F.name pool.new) (F.numbers pool.new) }
    {
        let (job, header) = stand(&sim);
        let since = entries(&self.records);
        self.records.lose(job, header.turns);
        end_attempt(&self.records, since, &mut self.images, pool, hand, sim);
    }

    /// The job that comes next is over without an outcome, since memory ran out before it could
    /// start.
    pub fn lose_unstarted(&mut self, pool: &mut F, hand: &mut F::Token, job: Job)
        requires pool { Serves (F.name pool.old) self.old (F.seen hand.old) }
        requires ready { is_ready (farm_of self.old.account.setup) (records_in self.old.account) job ≡ true }
        ensures entry { Appends (Entry.Lost job 0) self.old.account self.new.account }
        ensures pool { Serves (F.name pool.new) self.new (F.seen hand.new) }
        ensures hand { HandKept (F.seen hand.old) (F.seen hand.new) }
        ensures kept { Keeps (F.numbers pool.old) (F.seen hand.old ∷ holders self.old.images)
            (F.numbers pool.new) (F.seen hand.new ∷ holders self.new.images) }
        ensures same { SamePool (F.name pool.old) (F.numbers pool.old) (F.name pool.new) (F.numbers pool.new) }
    {
        let since = entries(&self.records);
        self.records.lose(job, 0);
        release_retired(&self.records, since, &mut self.images, pool, hand);
    }

    // A simulator's job is over with an ending.
    fn end(&mut self, pool: &mut F, hand: &mut F::Token, sim: Sim<F>, ending: Ending, turns: u64)
        requires pool { Serves (F.name pool.old) self.old (F.seen hand.old) }
        requires sim { IsOf (F.name pool.old) sim.pages.holder }
        requires open { IsOpen self.old.account sim }
        requires ending { IsEnding sim ending turns }
        ensures entry { Appends (Entry.End sim.job turns) self.old.account self.new.account }
        ensures pool { Serves (F.name pool.new) self.new (F.seen hand.new) }
        ensures hand { HandKept (F.seen hand.old) (F.seen hand.new) }
        ensures kept { Keeps (F.numbers pool.old) (F.seen hand.old ∷ sim.pages.holder ∷ holders self.old.images)
            (F.numbers pool.new) (F.seen hand.new ∷ holders self.new.images) }
        ensures same { SamePool (F.name pool.old) (F.numbers pool.old) (F.name pool.new) (F.numbers pool.new) }
    {
        let (job, header) = stand(&sim);
        let counts = Header {
            turns,
            reads: header.reads,
            written: header.written,
        };
        let text = sim.give_back(pool, hand);
        let outcome = Outcome::Done {
            ending,
            text,
            turns,
        };
        let since = entries(&self.records);
        self.records.end(job, counts, outcome);
        release_retired(&self.records, since, &mut self.images, pool, hand);
    }

    /// The job of a simulator that reaches a node is over with an ending: its next turn ends the
    /// run, which has counted so many turns then. Jobs of the node's subtree that the ending fits
    /// are over with it, and the simulator's frames are given back.
    pub fn note_ended(
        &mut self,
        pool: &mut F,
        hand: &mut F::Token,
        sim: Sim<F>,
        ending: Ending,
        turns: u64,
    )
        requires reach { sim.job ≡ Reach (record { 0 = node_of sim.job }) }
        requires pool { Serves (F.name pool.old) self.old (F.seen hand.old) }
        requires sim { IsOf (F.name pool.old) sim.pages.holder }
        requires open { IsOpen self.old.account sim }
        requires ending { IsEnding sim ending turns }
        ensures entry { Appends (Entry.End sim.job turns) self.old.account self.new.account }
        ensures pool { Serves (F.name pool.new) self.new (F.seen hand.new) }
        ensures hand { HandKept (F.seen hand.old) (F.seen hand.new) }
        ensures kept { Keeps (F.numbers pool.old) (F.seen hand.old ∷ sim.pages.holder ∷ holders self.old.images)
            (F.numbers pool.new) (F.seen hand.new ∷ holders self.new.images) }
        ensures same { SamePool (F.name pool.old) (F.numbers pool.old) (F.name pool.new) (F.numbers pool.new) }
    {
        self.end(pool, hand, sim, ending, turns);
    }

    /// The job of a simulator that finishes a test is over with an ending: its next turn ends the
    /// run, which has counted so many turns then. The simulator's frames are given back.
    pub fn finish(
        &mut self,
        pool: &mut F,
        hand: &mut F::Token,
        sim: Sim<F>,
        ending: Ending,
        turns: u64,
    )
        requires finish { sim.job ≡ Finish (record { 0 = node_of sim.job }) }
        requires pool { Serves (F.name pool.old) self.old (F.seen hand.old) }
        requires sim { IsOf (F.name pool.old) sim.pages.holder }
        requires open { IsOpen self.old.account sim }
        requires ending { IsEnding sim ending turns }
        ensures entry { Appends (Entry.End sim.job turns) self.old.account self.new.account }
        ensures pool { Serves (F.name pool.new) self.new (F.seen hand.new) }
        ensures hand { HandKept (F.seen hand.old) (F.seen hand.new) }
        ensures kept { Keeps (F.numbers pool.old) (F.seen hand.old ∷ sim.pages.holder ∷ holders self.old.images)
            (F.numbers pool.new) (F.seen hand.new ∷ holders self.new.images) }
        ensures same { SamePool (F.name pool.old) (F.numbers pool.old) (F.name pool.new) (F.numbers pool.new) }
    {
        self.end(pool, hand, sim, ending, turns);
    }

    /// A simulator's job is over at the budget: no image is held, no other job runs, and with the
    /// next turn the run would have touched so many pages, which are more than the budget. The
    /// simulator's frames are given back.
    pub fn over(&mut self, pool: &mut F, hand: &mut F::Token, sim: Sim<F>, pages: u32)
        requires pool { Serves (F.name pool.old) self.old (F.seen hand.old) }
        requires sim { IsOf (F.name pool.old) sim.pages.holder }
        requires open { IsOpen self.old.account sim }
        requires alone { IsAlone (records_in self.old.account) sim.job }
        requires none { (records_in self.old.account).held ≡ [] }
        requires over { IsOver sim pages }
        ensures entry { Appends (Entry.Pages sim.job sim.header.turns pages) self.old.account self.new.account }
        ensures pool { Serves (F.name pool.new) self.new (F.seen hand.new) }
        ensures hand { HandKept (F.seen hand.old) (F.seen hand.new) }
        ensures kept { Keeps (F.numbers pool.old) (F.seen hand.old ∷ sim.pages.holder ∷ holders self.old.images)
            (F.numbers pool.new) (F.seen hand.new ∷ holders self.new.images) }
        ensures same { SamePool (F.name pool.old) (F.numbers pool.old) (F.name pool.new) (F.numbers pool.new) }
    {
        let (job, header) = stand(&sim);
        let since = entries(&self.records);
        self.records.pass_budget(job, header.turns, pages);
        end_attempt(&self.records, since, &mut self.images, pool, hand, sim);
    }

    /// Where a simulator is short of a frame, the image that the setup's order chooses is given
    /// back, and the simulator is not short any more. Where no image is held the answer is false,
    /// and all is as it was.
    pub fn evict_one(&mut self, pool: &mut F, hand: &mut F::Token, sim: &mut Sim<F>) -> bool
        requires pool { Serves (F.name pool.old) self.old (F.seen hand.old) }
        requires open { IsOpen self.old.account sim.old }
        requires short { sim.old.short ≡ true }
        ensures evicted { MatchBool result (Evicts self.old.account self.new.account) ((self.new ≡ self.old) × ((records_in self.old.account).held ≡ []) × (holders self.old.images ≡ [])) }
        ensures sim { sim.new ≡ (if result then record sim.old { short = false } else sim.old) }
        ensures open { IsOpen self.new.account sim.new }
        ensures pool { Serves (F.name pool.new) self.new (F.seen hand.new) }
        ensures hand { HandKept (F.seen hand.old) (F.seen hand.new) }
        ensures kept { Keeps (F.numbers pool.old) (F.seen hand.old ∷ holders self.old.images)
            (F.numbers pool.new) (F.seen hand.new ∷ holders self.new.images) }
        ensures same { SamePool (F.name pool.old) (F.numbers pool.old) (F.name pool.new) (F.numbers pool.new) }
    {
        known(&self.records);
        let Some(node) = self.records.choose_evicted() else {
            return false;
        };
        self.records.evict(node);
        give_back(&mut self.images, node, pool, hand);
        sim.settle();
        true
    }

    /// The job that comes next starts, at its origin. Where it is out of memory all is as it was.
    pub fn fork_for(
        &mut self,
        alloc: Global,
        pool: &mut F,
        hand: &mut F::Token,
        job: Job,
    ) -> Result<Sim<F>, Memory>
        requires pool { Serves (F.name pool.old) self.old (F.seen hand.old) }
        requires parts { 2 ≤ (F.seen hand.old).parts }
        requires next { next_job_of self.old.account ≡ Next.Job job }
        ensures ok { IfOk result (λ sim. Starts job self.old self.new sim) }
        ensures lent { IfOk result (λ sim. HandLent (F.name pool.new) (F.seen hand.old) (F.seen hand.new) sim.pages.holder) }
        ensures err { OnErr result ((self.new ≡ self.old) × (F.seen hand.new ≡ F.seen hand.old)) }
        ensures pool { Serves (F.name pool.new) self.new (F.seen hand.new) }
        ensures kept { MatchResult result
            (λ sim. Keeps (F.numbers pool.old) (F.seen hand.old ∷ holders self.old.images) (F.numbers pool.new) (F.seen hand.new ∷ sim.pages.holder ∷ holders self.new.images))
            (λ _. Keeps (F.numbers pool.old) (F.seen hand.old ∷ holders self.old.images) (F.numbers pool.new) (F.seen hand.new ∷ holders self.new.images)) }
        ensures same { SamePool (F.name pool.old) (F.numbers pool.old) (F.name pool.new) (F.numbers pool.new) }
    {
        known(&self.records);
        let origin = self.records.origin(job);
        let setup = self.records.setup();
        let sim = start_from(alloc, setup, &self.images, pool, hand, origin, job)?;
        self.records.start(job);
        Ok(sim)
    }

    /// A simulator is kept as the image of its node, at the node's save point with this kind of
    /// checkpoint, and its job is over. Where the design asked for an incremental checkpoint, the
    /// job started from an image, and the full image that this one is or is based on is still held,
    /// only the pages are kept that this base has not; else the simulator's frames are the image's.
    pub fn put_image(&mut self, pool: &mut F, hand: &mut F::Token, sim: Sim<F>, kind: SaveKind)
        requires pool { Serves (F.name pool.old) self.old (F.seen hand.old) }
        requires sim { IsOf (F.name pool.old) sim.pages.holder }
        requires open { IsOpen self.old.account sim }
        requires at_save { IsAtSave sim (record { 0 = node_of sim.job }) }
        requires kind { sim.saved ≡ Some kind }
        ensures entry { Saves self.old.account self.new.account (record { 0 = node_of sim.job }) sim.header.turns kind }
        ensures pool { Serves (F.name pool.new) self.new (F.seen hand.new) }
        ensures hand { HandKept (F.seen hand.old) (F.seen hand.new) }
        ensures kept { Keeps (F.numbers pool.old) (F.seen hand.old ∷ sim.pages.holder ∷ holders self.old.images)
            (F.numbers pool.new) (F.seen hand.new ∷ holders self.new.images) }
        ensures same { SamePool (F.name pool.old) (F.numbers pool.old) (F.name pool.new) (F.numbers pool.new) }
    {
        let (job, header) = stand(&sim);
        let node = node_of(job);
        known(&self.records);
        let base = self.records.base_for(node, kind);
        let image = keep(&self.images, pool, sim, base);
        let held = HeldImage {
            node,
            counts: header,
            pages: image.own_pages(),
            base,
        };
        put(&mut self.images, node, image);
        let since = entries(&self.records);
        self.records.save(held);
        release_retired(&self.records, since, &mut self.images, pool, hand);
    }

    /// All images are given back, and the records are left.
    pub fn strip(self, pool: &mut F, hand: &mut F::Token) -> Records
        requires pool { Serves (F.name pool.old) self (F.seen hand.old) }
        ensures records { result ≡ self.account }
        ensures hand { HandKept (F.seen hand.old) (F.seen hand.new) }
        ensures kept { Keeps (F.numbers pool.old) (F.seen hand.old ∷ holders self.images)
            (F.numbers pool.new) (F.seen hand.new ∷ []) }
        ensures same { SamePool (F.name pool.old) (F.numbers pool.old) (F.name pool.new) (F.numbers pool.new) }
    {
        let Book {
            records,
            mut images,
        } = self;
        release_all(&records, &mut images, pool, hand);
        records
    }
}
