ghost use Rattle.std.specs.Prelude.{◌≡◌, ℕ, ◌+◌, ◌<◌, List, [], true, Option, Some, None, length, map, option_map, get_or, slice_get, IfOk, IfSome};
ghost use Rattle.std.specs.Arc.{arc_value};
ghost use Rattle.vf_jobs.specs.Jobs as jobs;
ghost use Rattle.vf_jobs.specs.Jobs.{node_of};
ghost use Rattle.vf_jobs.specs.Setup.{IsSetup};
ghost use Rattle.vf_journal.specs.Records.{is_job, state_of, told_by, outcome_told, image_of};
ghost use Rattle.vf_journal.specs.Effects.{origin_of};
ghost use Rattle.vf_journal.specs.Journal.{first_ready, next_evicted, base_for};
ghost use Rattle.vf_records.specs.Tables.{held_of, attempt_of};
ghost use Rattle.vf_records.specs.Account.{farm_of, solo_of, records_in, records_after, with_entry, IsAccount, IsLawful, attempt_at, next_job_of};

use crate::next::Next;
use crate::row::{Attempt, HeldImage};
use crate::spread::{Reached, Spread, spread_of};
use crate::tables::Tables;
use std::alloc::Global;
use std::marker::Model;
use std::sync::Arc;
use vf_base::{Header, Job, Memory, NodeNo, Outcome, SaveKind};
use vf_jobs::{Setup, limits_of};
use vf_journal::{Entry, JobState, Kind, Told};

/// The records of a farm. Contracts see the setup, the journal, and the records that the journal comes
/// to. The type keeps that the journal is lawful for its setup, with jobs and images chosen in order;
/// so each outcome that is told is that of the job's solo run.
#[derive(Drop)]
pub struct Records {
    setup: Arc<Setup>,
    tables: Tables,
}

impl Model for Records {
    ghost use Rattle.vf_records.specs.Tables.{held_of};
    ghost use Rattle.vf_records.specs.Account.{Account};

    ghost Value = { Account };

    ghost use Rattle.vf_records.specs.Inner.{account_of, IsKept};

    ghost view = { account_of };

    ghost invariant = { IsKept };
}

/// The budget of a setup, which keeps its rules.
fn budget(setup: &Setup) -> u32
    ensures { IsSetup setup.now }
{
    setup.budget
}

impl Records {
    /// The records of a farm in which nothing has been done. It takes all the memory that later calls
    /// need.
    pub fn new(alloc: Global, setup: &Arc<Setup>) -> Result<Records, Memory>
        ensures { IfOk result (λ records. records ≡ record { setup = arc_value setup.now; journal = [] }) }
    {
        let setup = Arc::try_clone(setup)?;
        let tables = Tables::new(alloc, &setup)?;
        Ok(Records { setup, tables })
    }

    /// What the farm's runs are given.
    pub fn setup(&self) -> &Arc<Setup>
        ensures { arc_value result.now ≡ self.now.setup }
    {
        &self.setup
    }

    /// The entries so far. They are a lawful journal, and all that follows from that stands with them.
    pub fn journal(&self) -> &[Entry]
        ensures journal { result.now ≡ self.now.journal }
        ensures kept { IsAccount self.now }
    {
        let _budget = budget(&self.setup);
        &self.tables.journal
    }

    /// What is known of the kinds of the nodes, by their numbers.
    pub fn kinds(&self) -> &[Kind]
        ensures length { length result.now ≡ length self.now.setup.plan }
        ensures kinds { (n : ℕ) → get_or result.now n Kind.Unknown ≡ (records_in self.now).kinds n }
    {
        &self.tables.kinds
    }

    /// The jobs of the plan, in their order.
    pub fn jobs(&self) -> &[Job]
        ensures { result.now ≡ jobs.jobs self.now.setup.plan }
    {
        &self.tables.layout.jobs
    }

    /// How far a job of the plan has come.
    pub fn state(&self, job: Job) -> JobState
        requires { is_job self.now.setup.plan job ≡ true }
        ensures { result ≡ state_of (farm_of self.now.setup) (records_in self.now) job }
    {
        self.tables.state(&self.setup, job)
    }

    /// What each job tells, in the order of the jobs. A job that is not over tells nothing, nor does one
    /// that reached its node's save point or passed it.
    pub fn told(&self) -> &[Option<Told>]
        ensures { result.now ≡ map (λ job. told_by ((records_in self.now).stages job)) (jobs.jobs self.now.setup.plan) }
    {
        &self.tables.told
    }

    /// The outcome that is told of a job: that of its own run, or of the run whose outcome it has. None is
    /// told of a job that is not over, that was lost, or that reached its node's save point or passed it.
    pub fn outcome(&self, job: Job) -> Option<&Outcome>
        ensures { option_map (λ outcome. outcome.now) result ≡ outcome_told (records_in self.now) job }
    {
        self.tables.outcome(&self.setup, job)
    }

    /// The images that are held, in the order in which they were saved.
    pub fn held(&self) -> &[HeldImage]
        ensures { map held_of result.now ≡ (records_in self.now).held }
    {
        &self.tables.held
    }

    /// The image of a node, where it is held.
    pub fn image(&self, node: NodeNo) -> Option<HeldImage>
        ensures image { option_map held_of result ≡ image_of (records_in self.now) node }
        ensures counts { IfSome result (λ h. h.counts ≡ (solo_of self.now.setup).counts (held_of h)) }
    {
        self.tables.image(node)
    }

    /// The attempt of a job of the plan, where it runs.
    pub fn attempt(&self, job: Job) -> Option<Attempt>
        requires { is_job self.now.setup.plan job ≡ true }
        ensures { option_map attempt_of result ≡ attempt_at ((records_in self.now).stages job) }
    {
        self.tables.attempt(&self.setup, job)
    }

    /// The node whose image is the base of an image that is saved now: where the design asked for an
    /// incremental checkpoint, the full image that the origin of the job is or is based on, if it is still
    /// held.
    pub fn base_for(&self, node: NodeNo, kind: SaveKind) -> Option<NodeNo>
        requires { is_job self.now.setup.plan (Job.Reach node) ≡ true }
        ensures { result ≡ option_map (λ h. h.node) (base_for (records_in self.now) node kind) }
    {
        self.tables.base_for(&self.setup, node, kind)
    }

    /// The job that comes next: the first one that is ready.
    pub fn next_job(&self) -> Next
        ensures { result ≡ next_job_of self.now }
    {
        self.tables.next_job(&self.setup)
    }

    /// The node from whose image a job starts: the nearest one on its way whose image is held and fits
    /// the job. None is time zero.
    pub fn origin(&self, job: Job) -> Option<NodeNo>
        requires { node_of job < length self.now.setup.plan }
        ensures { result ≡ origin_of (farm_of self.now.setup) (solo_of self.now.setup) (records_in self.now) job }
    {
        self.tables.origin(&self.setup, job)
    }

    /// The first ready job starts, from its origin.
    pub fn start(&mut self, job: Job) -> Option<NodeNo>
        requires { first_ready (farm_of self.old.setup) (records_in self.old) ≡ Some job }
        ensures origin { result ≡ origin_of (farm_of self.old.setup) (solo_of self.old.setup) (records_in self.old) job }
        ensures journal { self.new ≡ with_entry (Entry.Start job result) self.old }
        ensures records { records_in self.new ≡ records_after (Entry.Start job result) self.old }
    {
        self.tables.begin(&self.setup, job)
    }

    /// The job that reaches an image's node is over at its save point, and the image is held.
    pub fn save(&mut self, image: HeldImage)
        requires lawful { IsLawful self.old (Entry.Saved image.node image.counts.turns image.pages image.base) }
        requires counts { image.counts ≡ (solo_of self.old.setup).counts (held_of image) }
        ensures journal { self.new ≡ with_entry (Entry.Saved image.node image.counts.turns image.pages image.base) self.old }
        ensures records { records_in self.new ≡ records_after (Entry.Saved image.node image.counts.turns image.pages image.base) self.old }
    {
        let _budget = budget(&self.setup);
        self.tables.keep(&self.setup, image);
    }

    /// The job that reaches a node is over: its next turn would read past the node's stimulus.
    pub fn pass(&mut self, node: NodeNo, turn: u64)
        requires { IsLawful self.old (Entry.Pass node turn) }
        ensures journal { self.new ≡ with_entry (Entry.Pass node turn) self.old }
        ensures records { records_in self.new ≡ records_after (Entry.Pass node turn) self.old }
    {
        let entry = Entry::Pass { node, turn };
        self.tables.settle(
            &self.setup,
            entry,
            Job::Reach(node),
            None,
            Kind::Passed,
            None,
        );
    }

    /// A job is over with the ending of its run, which has these counts.
    pub fn end(&mut self, job: Job, counts: Header, outcome: Outcome)
        requires lawful { IsLawful self.old (Entry.End job counts.turns) }
        requires counts { counts ≡ (solo_of self.old.setup).ending job }
        requires outcome { outcome ≡ (solo_of self.old.setup).outcome job }
        ensures journal { self.new ≡ with_entry (Entry.End job counts.turns) self.old }
        ensures records { records_in self.new ≡ records_after (Entry.End job counts.turns) self.old }
    {
        let entry = Entry::End {
            job,
            turn: counts.turns,
        };
        let spread = spread_of(job, Kind::Ended, Reached::Ending(counts));
        let tells = Some(Told::Own(outcome));
        self.tables
            .settle(&self.setup, entry, job, tells, Kind::Ended, spread);
    }

    /// A job is over: the turn after so many would bring its touched pages above the budget.
    pub fn pass_budget(&mut self, job: Job, turn: u64, pages: u32)
        requires { IsLawful self.old (Entry.Pages job turn pages) }
        ensures journal { self.new ≡ with_entry (Entry.Pages job turn pages) self.old }
        ensures records { records_in self.new ≡ records_after (Entry.Pages job turn pages) self.old }
    {
        let entry = Entry::Pages { job, turn, pages };
        let reached = Reached::Passing {
            turns: turn,
            limits: limits_of(&self.setup, job),
        };
        let spread = spread_of(job, Kind::Over, reached);
        let tells = Some(Told::Own(Outcome::Pages(pages)));
        self.tables
            .settle(&self.setup, entry, job, tells, Kind::Over, spread);
    }

    /// A job is over without an outcome: memory ran out. One that has not started is at turn 0.
    pub fn lose(&mut self, job: Job, turn: u64)
        requires { IsLawful self.old (Entry.Lost job turn) }
        ensures journal { self.new ≡ with_entry (Entry.Lost job turn) self.old }
        ensures records { records_in self.new ≡ records_after (Entry.Lost job turn) self.old }
    {
        let entry = Entry::Lost { job, turn };
        self.tables.settle(&self.setup, entry, job, Some(Told::Lost), Kind::Lost, None);
    }

    /// The node of the image that is to be evicted: the one that the setup's order chooses among the held
    /// images on which no incremental one stands. There is one wherever an image is held.
    pub fn choose_evicted(&self) -> Option<NodeNo>
        ensures chosen { result ≡ option_map (λ h. h.node) (next_evicted (farm_of self.now.setup) (records_in self.now)) }
        ensures none { result ≡ None → (records_in self.now).held ≡ [] }
    {
        let _budget = budget(&self.setup);
        self.tables.chosen(&self.setup)
    }

    /// The image of a node is given back for its frames.
    pub fn evict(&mut self, node: NodeNo)
        requires { IsLawful self.old (Entry.Evict node) }
        ensures journal { self.new ≡ with_entry (Entry.Evict node) self.old }
        ensures records { records_in self.new ≡ records_after (Entry.Evict node) self.old }
    {
        self.tables.give_back(&self.setup, Entry::Evict(node), node);
    }
}
