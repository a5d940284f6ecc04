//! Which jobs are ready, and from which image a job starts.

ghost use Rattle.std.specs.Prelude.{◌≡◌, ℕ, ◌+◌, ◌<◌, ◌&&◌, not, true, false, List, [], ◌∷◌, Some, None, length, get_or, slice_get, map, option_map, IfSome};
ghost use Rattle.std.specs.List.{list_any, find};
ghost use Rattle.vf_base.specs.declared.run.Limits.{Limits};
ghost use Rattle.vf_base.specs.declared.run.Header.{Header};
ghost use Rattle.vf_base.specs.declared.names.Job.{Job};
ghost use Rattle.vf_jobs.specs.Jobs as jobs;
ghost use Rattle.vf_jobs.specs.Jobs.{node_of, first_fitting, holds_fitting, node_no};
ghost use Rattle.vf_plan.specs.Paths.{at_parent, grown, with_number};
ghost use Rattle.vf_journal.specs.Records as seen;
ghost use Rattle.vf_journal.specs.Records.{is_job, is_known, state_of, is_ready, is_over, image_of, some_job};
ghost use Rattle.vf_journal.specs.Effects.{origin_of, started_from};
ghost use Rattle.vf_journal.specs.Journal.{first_ready, base_for};
ghost use Rattle.vf_records.specs.Account.{attempt_at, full_held};
ghost use Rattle.vf_records.specs.Account.{farm_of, solo_of, next_of, is_left};
ghost use Rattle.vf_records.specs.Layout.{no_place};
ghost use Rattle.vf_records.specs.Tables.{AreCounted, AreImaged, attempt_of, held_of, records_of, AreTables, is_over_progress, is_idle_progress};

use crate::next::Next;
use crate::row::{Attempt, HeldImage, Progress};
use crate::spread::fits;
use crate::tables::Tables;
use vf_base::{Job, Limits, NodeNo, SaveKind};
use vf_jobs::{Setup, limits_of};
use vf_journal::{JobState, Kind};
use vf_plan::Plan;

/// The image at a place, where there is one.
pub(crate) fn image_at(images: &Vec<Option<HeldImage>>, at: usize) -> Option<HeldImage>
    ensures { result ≡ get_or images.now.items at None }
{
    if at < images.len() { images[at] } else { None }
}

impl Tables {
    fn is_known(&self, node: NodeNo) -> bool
        requires { node.0 < length self.now.kinds.items }
        ensures { result ≡ is_known (get_or self.now.kinds.items node.0 Kind.Unknown) }
    {
        !matches!(self.kinds[node.0 as usize], Kind::Unknown)
    }

    /// Whether a node is a root or its parent's kind is known.
    fn is_open(&self, plan: &Plan, node: NodeNo) -> bool
        requires node { node.0 < length plan.now }
        requires kinds { length self.now.kinds.items ≡ length plan.now }
        ensures { result ≡ jobs.is_open (λ n. is_known (get_or self.now.kinds.items n Kind.Unknown)) (slice_get plan.now node.0) }
    {
        match plan.nodes[node.0 as usize].parent {
            Some(parent) => self.is_known(parent),
            None => true,
        }
    }

    /// Whether nothing keeps a job waiting.
    fn is_free(&self, plan: &Plan, job: Job) -> bool
        requires node { node_of job < length plan.now }
        requires kinds { length self.now.kinds.items ≡ length plan.now }
        requires places { length self.now.layout.places.items ≡ length plan.now }
        requires inner { (n : ℕ) → n < length plan.now → (get_or self.now.layout.places.items n no_place).inner ≡ jobs.has_child plan.now n }
        ensures { result ≡ jobs.is_ready plan.now (λ n. is_known (get_or self.now.kinds.items n Kind.Unknown)) job }
    {
        match job {
            Job::Reach(node) => self.is_open(plan, node),
            Job::Finish(node) => {
                if self.layout.places[node.0 as usize].inner {
                    self.is_known(node)
                } else {
                    self.is_open(plan, node)
                }
            }
        }
    }

    fn is_idle_at(&self, at: usize) -> bool
        requires { at < length self.now.progress.items }
        ensures { result ≡ is_idle_progress (get_or self.now.progress.items at Progress.Idle) }
    {
        matches!(self.progress[at], Progress::Idle)
    }

    fn is_ready_at(&self, setup: &Setup, at: usize) -> bool
        requires tables { AreTables setup.now.plan (solo_of setup.now).counts self.now }
        requires at { at < length self.now.layout.jobs.items }
        ensures { (job : Job) → slice_get self.now.layout.jobs.items at ≡ Some job
            → result ≡ is_ready (farm_of setup.now) (records_of self.now) job }
    {
        if !self.is_idle_at(at) {
            return false;
        }
        self.is_free(&setup.plan, self.layout.jobs[at])
    }

    /// How far a job has come.
    pub(crate) fn state(&self, setup: &Setup, job: Job) -> JobState
        requires tables { AreTables setup.now.plan (solo_of setup.now).counts self.now }
        requires job { is_job setup.now.plan job ≡ true }
        ensures { result ≡ state_of (farm_of setup.now) (records_of self.now) job }
    {
        let at = self.place(job);
        match self.progress[at] {
            Progress::Running(_) => JobState::Running,
            Progress::Over => JobState::Over,
            Progress::Idle => {
                if self.is_ready_at(setup, at) {
                    JobState::Ready
                } else {
                    JobState::Waiting
                }
            }
        }
    }

    /// The attempt of a job that runs.
    pub(crate) fn attempt(&self, setup: &Setup, job: Job) -> Option<Attempt>
        requires tables { AreTables setup.now.plan (solo_of setup.now).counts self.now }
        requires job { is_job setup.now.plan job ≡ true }
        ensures { option_map attempt_of result ≡ attempt_at ((records_of self.now).stages job) }
    {
        let at = self.place(job);
        match self.progress[at] {
            Progress::Running(attempt) => Some(attempt),
            Progress::Idle => None,
            Progress::Over => None,
        }
    }

    /// The first ready job.
    fn first_ready(&self, setup: &Setup) -> Option<Job>
        requires { AreTables setup.now.plan (solo_of setup.now).counts self.now }
        ensures { result ≡ first_ready (farm_of setup.now) (records_of self.now) }
    {
        for at in self.first..self.layout.jobs.len() {
            if self.is_ready_at(setup, at) {
                return Some(self.layout.jobs[at]);
            }
        }
        None
    }

    /// Whether some job is not over.
    fn is_left(&self, setup: &Setup) -> bool
        requires { AreTables setup.now.plan (solo_of setup.now).counts self.now }
        ensures { result ≡ is_left setup.now (records_of self.now) }
    {
        for at in self.first..self.layout.jobs.len() {
            if !self.is_over_at(at) {
                return true;
            }
        }
        false
    }

    /// The first ready job; where there is none, whether some job is left.
    pub(crate) fn next_job(&self, setup: &Setup) -> Next
        requires { AreTables setup.now.plan (solo_of setup.now).counts self.now }
        ensures { result ≡ next_of (first_ready (farm_of setup.now) (records_of self.now)) (is_left setup.now (records_of self.now)) }
    {
        if let Some(job) = self.first_ready(setup) {
            return Next::Job(job);
        }
        if self.is_left(setup) {
            Next::Later
        } else {
            Next::Done
        }
    }

    /// The image of a node.
    pub(crate) fn image(&self, node: NodeNo) -> Option<HeldImage>
        requires { AreImaged self.now.held.items self.now.images.items }
        ensures is { option_map held_of result ≡ image_of (records_of self.now) node }
        ensures counted { (counts : seen.Held → Header) → AreCounted counts self.now.held.items → IfSome result (λ h. h.counts ≡ counts (held_of h)) }
    {
        image_at(&self.images, node.0 as usize)
    }

    /// Whether a node's image is held and fits a job with these limits.
    fn serves(&self, setup: &Setup, node: NodeNo, limits: Limits) -> bool
        requires { AreTables setup.now.plan (solo_of setup.now).counts self.now }
        ensures { result ≡ holds_fitting limits (option_map (solo_of setup.now).counts (image_of (records_of self.now) node)) }
    {
        match self.image(node) {
            Some(image) => fits(limits, image.counts),
            None => false,
        }
    }

    /// The nearest node from one up whose image is held and fits a job with these limits.
    fn nearest(&self, setup: &Setup, from: Option<NodeNo>, limits: Limits) -> Option<NodeNo>
        requires tables { AreTables setup.now.plan (solo_of setup.now).counts self.now }
        requires node { IfSome from (λ node. node.0 < length setup.now.plan) }
        ensures { result ≡ option_map node_no (first_fitting limits (λ n. option_map (solo_of setup.now).counts (image_of (records_of self.now) (node_no n)))
            (at_parent [] (grown with_number [] setup.now.plan) from)) }
    {
        let plan = &setup.plan;
        let mut at = from;
        'nodes: loop {
            let Some(node) = at else {
                return None;
            };
            if self.serves(setup, node, limits) {
                return Some(node);
            }
            at = plan.nodes[node.0 as usize].parent;
        }
    }

    /// The node from whose image a job starts; none is time zero.
    pub(crate) fn origin(&self, setup: &Setup, job: Job) -> Option<NodeNo>
        requires tables { AreTables setup.now.plan (solo_of setup.now).counts self.now }
        requires node { node_of job < length setup.now.plan }
        ensures { result ≡ origin_of (farm_of setup.now) (solo_of setup.now) (records_of self.now) job }
    {
        let limits = limits_of(setup, job);
        let plan = &setup.plan;
        match job {
            Job::Reach(node) => self.nearest(setup, plan.nodes[node.0 as usize].parent, limits),
            Job::Finish(node) => self.nearest(setup, Some(node), limits),
        }
    }

    /// The attempt that starts from the image of a node, or from time zero.
    pub(crate) fn attempt_from(&self, origin: Option<NodeNo>) -> Attempt
        requires { AreImaged self.now.held.items self.now.images.items }
        ensures { attempt_of result ≡ started_from (records_of self.now) origin }
    {
        if let Some(node) = origin
            && let Some(image) = self.image(node)
        {
            return Attempt {
                origin: Some(image.node),
                full: Some(image.base.unwrap_or(image.node)),
                since: image.counts.turns,
            };
        }
        Attempt {
            origin: None,
            full: None,
            since: 0,
        }
    }

    /// The node of the full image that an attempt's origin is or is based on, where it is held.
    fn still_held(&self, attempt: Option<Attempt>) -> Option<NodeNo>
        requires { AreImaged self.now.held.items self.now.images.items }
        ensures { result ≡ option_map (λ h. h.node) (full_held (records_of self.now) (option_map attempt_of attempt)) }
    {
        match self.image(attempt?.full?) {
            Some(image) => Some(image.node),
            None => None,
        }
    }

    /// The base of an image of the node that is saved now.
    pub(crate) fn base_for(&self, setup: &Setup, node: NodeNo, kind: SaveKind) -> Option<NodeNo>
        requires tables { AreTables setup.now.plan (solo_of setup.now).counts self.now }
        requires job { is_job setup.now.plan (Job.Reach node) ≡ true }
        ensures { result ≡ option_map (λ h. h.node) (base_for (records_of self.now) node kind) }
    {
        match kind {
            SaveKind::Full => None,
            SaveKind::Incr => self.still_held(self.attempt(setup, Job::Reach(node))),
        }
    }
}
