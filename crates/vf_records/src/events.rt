//! How the tables change where a job starts and where it is over.

ghost use Rattle.std.specs.Prelude.{◌≡◌, ◌==◌, if◌then◌else◌, is_some, IfSome, vec_capacity, ℕ, ◌+◌, ◌<◌, ◌≤◌, ◌&&◌, not, true, false, List, [], ◌∷◌, ◌++◌, Option, Some, None, length, get_or, slice_get, slice_set, map, option_map, option_and_then};
ghost use Rattle.std.specs.List.{list_any, find, filter};
ghost use Rattle.vf_base.specs.declared.names.Job.{Job};
ghost use Rattle.vf_plan.specs.declared.plan.Node.{Node};
ghost use Rattle.vf_jobs.specs.Subtree as subtree;
ghost use Rattle.vf_jobs.specs.Jobs.{node_of, node_no};
ghost use Rattle.vf_journal.specs.Records as seen;
ghost use Rattle.vf_journal.specs.Records.{Records, image_of, is_base, is_job, is_ready, is_over, running};
ghost use Rattle.vf_journal.specs.Effects.{with_stage, with_over, with_copies, copies, retirings, without_unneeded, is_copied, is_needed, is_retired, without_image, origin_of, started_from};
ghost use Rattle.vf_records.specs.Account.{farm_of, solo_of, AllServe, later, node_before};
ghost use Rattle.vf_records.specs.Counts.{one};
ghost use Rattle.vf_records.specs.Spreads.{spread_seen};
ghost use Rattle.vf_records.specs.Tables.{entries_ahead, kinds_with, held_of, records_of, AreOver, AreTables, is_over_progress};

use crate::counts::{count_up, nodes};
use crate::pins::{base_of, pin, unpin};
use crate::ready::image_at;
use crate::row::{HeldImage, Progress};
use crate::spread::Spread;
use crate::tables::Tables;
use vf_base::{Job, NodeNo};
use vf_jobs::{Setup, is_below, limits_of, node_of};
use vf_journal::{Entry, Kind, Told};
use vf_plan::Plan;

/// Writes what the job of a place tells.
fn tell(told: &mut Vec<Option<Told>>, place: usize, tells: Option<Told>)
    requires { place < length told.old.items }
    ensures { told.new.items ≡ slice_set told.old.items place tells }
{
    told[place] = tells;
}

/// Writes the kind of the node that a job reaches.
fn know(kinds: &mut Vec<Kind>, job: Job, kind: Kind)
    requires { node_of job < length kinds.old.items }
    ensures { kinds.new.items ≡ kinds_with job kind kinds.old.items }
{
    if let Job::Reach(node) = job {
        kinds[node.0 as usize] = kind;
    }
}

/// Writes the image of a node, or that it has none.
fn show(images: &mut Vec<Option<HeldImage>>, node: NodeNo, image: Option<HeldImage>)
    requires { node.0 < length images.old.items }
    ensures { images.new.items ≡ slice_set images.old.items node.0 image }
{
    images[node.0 as usize] = image;
}

fn is_over(progress: Progress) -> bool
    ensures { result ≡ is_over_progress progress }
{
    matches!(progress, Progress::Over)
}

/// The place from a first one on of a job that is not over; the jobs before it are over.
fn over_from(progress: &Vec<Progress>, first: usize) -> usize
    requires { AreOver progress.now.items first }
    ensures { AreOver progress.now.items result }
{
    let mut at = first;
    while at < progress.len() {
        if !is_over(progress[at]) {
            return at;
        }
        at += 1;
    }
    at
}

/// The node that comes before one where images are looked at downwards: the one with the number before,
/// down to a node, and from there its parent.
fn node_before(plan: &Plan, node: NodeNo, at: NodeNo) -> Option<NodeNo>
    requires { at.0 < length plan.now }
    ensures { result ≡ node_before plan.now node.0 at.0 }
{
    if node.0 < at.0 {
        Some(NodeNo(at.0 - 1))
    } else {
        plan.nodes[at.0 as usize].parent
    }
}

fn lesser(a: usize, b: usize) -> usize
    ensures a { result ≤ a }
    ensures b { result ≤ b }
    ensures is { (k : ℕ) → k < a → k < b → k < result }
{
    if a < b { a } else { b }
}

/// The one of two nodes that comes later.
fn later(a: NodeNo, b: NodeNo) -> NodeNo
    ensures { result ≡ later a b }
{
    if a.0 < b.0 { b } else { a }
}

impl Tables {
    /// A ready job starts.
    pub(crate) fn begin(&mut self, setup: &Setup, job: Job) -> Option<NodeNo>
        requires tables { AreTables setup.now.plan (solo_of setup.now).counts self.old }
        requires ready { is_ready (farm_of setup.now) (records_of self.old) job ≡ true }
        ensures origin { result ≡ origin_of (farm_of setup.now) (solo_of setup.now) (records_of self.old) job }
        ensures records { records_of self.new ≡ with_stage job (running (started_from (records_of self.old) result)) (records_of self.old) }
        ensures journal { self.new.journal.items ≡ self.old.journal.items ++ Entry.Start job result ∷ [] }
        ensures tables { AreTables setup.now.plan (solo_of setup.now).counts self.new }
    {
        let origin = self.origin(setup, job);
        let attempt = self.attempt_from(origin);
        let place = self.place(job);
        self.progress[place] = Progress::Running(attempt);
        self.journal.push_reserved(Entry::Start(job, origin));
        origin
    }

    /// Adds an entry, and a job is over by it. A job that is not over has the room for it.
    pub(crate) fn close(
        &mut self,
        setup: &Setup,
        entry: Entry,
        job: Job,
        tells: Option<Told>,
        kind: Kind,
    )
        requires tables { AreTables setup.now.plan (solo_of setup.now).counts self.old }
        requires job { is_job setup.now.plan job ≡ true }
        requires left { is_over ((records_of self.old).stages job) ≡ false }
        ensures records { records_of self.new ≡ with_over job tells kind (records_of self.old) }
        ensures journal { self.new.journal.items ≡ self.old.journal.items ++ entry ∷ [] }
        ensures layout { self.new.layout ≡ self.old.layout }
        ensures tables { AreTables setup.now.plan (solo_of setup.now).counts self.new }
        ensures slack { entries_ahead self.new + 1 ≤ entries_ahead self.old }
    {
        let place = self.place(job);
        self.progress[place] = Progress::Over;
        tell(&mut self.told, place, tells);
        know(&mut self.kinds, job, kind);
        self.first = over_from(&self.progress, self.first);
        count_up(nodes(setup), node_of(job), &mut self.done);
        self.journal.push_reserved(entry);
    }

    /// Whether the job of a place is over with a run that reaches a node above it.
    fn is_copied(&self, setup: &Setup, spread: Spread, at: usize) -> bool
        requires tables { AreTables setup.now.plan (solo_of setup.now).counts self.now }
        requires at { at < length self.now.layout.jobs.items }
        requires node { spread.node.0 < length setup.now.plan }
        ensures { (job : Job) → slice_get self.now.layout.jobs.items at ≡ Some job
            → result ≡ is_copied (farm_of setup.now) (records_of self.now) (spread_seen setup.now spread) job }
    {
        if self.is_over_at(at) {
            return false;
        }
        let job = self.layout.jobs[at];
        if !is_below(&setup.plan, spread.node, node_of(job)) {
            return false;
        }
        spread.reached.fits(limits_of(setup, job))
    }

    /// Each job of the node's subtree that the end of its run fits is over with it. Tells a node at or
    /// after all of theirs.
    fn copy(&mut self, setup: &Setup, spread: Spread) -> NodeNo
        requires tables { AreTables setup.now.plan (solo_of setup.now).counts self.old }
        requires node { spread.node.0 < length setup.now.plan }
        ensures records { records_of self.new ≡ with_copies (farm_of setup.now) (Some (spread_seen setup.now spread)) (records_of self.old) }
        ensures journal { self.new.journal.items ≡ self.old.journal.items ++ copies (farm_of setup.now) (Some (spread_seen setup.now spread)) (records_of self.old) }
        ensures tables { AreTables setup.now.plan (solo_of setup.now).counts self.new }
        ensures within { result.0 < length setup.now.plan }
        ensures node { spread.node.0 ≤ result.0 }
        ensures last { (job : Job) → is_copied (farm_of setup.now) (records_of self.old) (spread_seen setup.now spread) job ≡ true → node_of job ≤ result.0 }
    {
        let mut last = spread.node;
        let end = lesser(self.ends[spread.node.0 as usize], self.layout.jobs.len());
        for at in self.first..end {
            if self.is_copied(setup, spread, at) {
                let job = self.layout.jobs[at];
                let entry = Entry::Copy(job, spread.node);
                let tells = Some(Told::Copied(spread.node));
                self.close(setup, entry, job, tells, spread.kind);
                last = later(last, node_of(job));
            }
        }
        last
    }

    /// Whether some job of a node's subtree is not over.
    fn is_needed(&self, setup: &Setup, node: NodeNo) -> bool
        requires tables { AreTables setup.now.plan (solo_of setup.now).counts self.now }
        requires node { node.0 < length setup.now.plan }
        ensures { result ≡ is_needed (farm_of setup.now) (records_of self.now) node }
    {
        let at = node.0 as usize;
        let done = self.done[at];
        let all = self.all[at];
        done < all
    }

    /// Gives back the image of a node.
    fn release(&mut self, node: NodeNo)
        requires { node.0 < length self.old.images.items }
        ensures rest { self.new ≡ record self.old { held = self.new.held; images = self.new.images; pins = self.new.pins } }
        ensures pins { (n : ℕ) → n < length self.old.pins.items
            → one (is_base (node_no n) (option_and_then (λ h. h.base) (get_or self.old.images.items node.0 None))) ≤ get_or self.old.pins.items n 0
            → get_or self.new.pins.items n 0 + one (is_base (node_no n) (option_and_then (λ h. h.base) (get_or self.old.images.items node.0 None))) ≡ get_or self.old.pins.items n 0 }
        ensures pins_length { length self.new.pins.items ≡ length self.old.pins.items }
        ensures images { self.new.images.items ≡ slice_set self.old.images.items node.0 None }
        ensures held { self.new.held.items ≡ filter (λ h. not (h.node.0 == node.0)) self.old.held.items }
        ensures capacity { vec_capacity self.new.held ≡ vec_capacity self.old.held }
    {
        let base = base_of(image_at(&self.images, node.0 as usize));
        unpin(&mut self.pins, base);
        self.held.retain(|image| image.node.0 != node.0);
        show(&mut self.images, node, None);
    }

    /// Gives back the image of a node by an entry.
    pub(crate) fn give_back(&mut self, setup: &Setup, entry: Entry, node: NodeNo)
        requires tables { AreTables setup.now.plan (solo_of setup.now).counts self.old }
        requires image { is_some (image_of (records_of self.old) node) ≡ true }
        ensures records { records_of self.new ≡ record (records_of self.old) { held = without_image node (records_of self.old).held } }
        ensures journal { self.new.journal.items ≡ self.old.journal.items ++ entry ∷ [] }
        ensures layout { self.new.layout ≡ self.old.layout }
        ensures tables { AreTables setup.now.plan (solo_of setup.now).counts self.new }
    {
        self.release(node);
        self.journal.push_reserved(entry);
    }

    /// Whether the image of a node is held and no job needs it.
    fn is_retired(&self, setup: &Setup, node: NodeNo) -> bool
        requires tables { AreTables setup.now.plan (solo_of setup.now).counts self.now }
        requires node { node.0 < length setup.now.plan }
        ensures { result ≡ is_retired (farm_of setup.now) (records_of self.now) node }
    {
        if self.image(node).is_none() {
            return false;
        }
        !self.is_needed(setup, node)
    }

    /// Gives back the image of a node, where it is held and no job needs it.
    fn retire_one(&mut self, setup: &Setup, node: NodeNo)
        requires tables { AreTables setup.now.plan (solo_of setup.now).counts self.old }
        requires node { node.0 < length setup.now.plan }
        ensures records { records_of self.new ≡ (if is_retired (farm_of setup.now) (records_of self.old) node
            then record (records_of self.old) { held = without_image node (records_of self.old).held } else records_of self.old) }
        ensures journal { self.new.journal.items ≡ self.old.journal.items ++ (if is_retired (farm_of setup.now) (records_of self.old) node then Entry.Retire node ∷ [] else []) }
        ensures tables { AreTables setup.now.plan (solo_of setup.now).counts self.new }
    {
        if self.is_retired(setup, node) {
            self.give_back(setup, Entry::Retire(node), node);
        }
    }

    /// Gives back the images that no job needs, the highest node first: those of the nodes from the last
    /// one down to a node, and then those on its way up.
    fn retire(&mut self, setup: &Setup, last: NodeNo, node: NodeNo)
        requires tables { AreTables setup.now.plan (solo_of setup.now).counts self.old }
        requires last { last.0 < length setup.now.plan }
        requires node { node.0 ≤ last.0 }
        requires way { (n : ℕ) → is_retired (farm_of setup.now) (records_of self.old) (node_no n) ≡ true → (node.0 ≤ n → n ≤ last.0 → ⊥) → subtree.is_below setup.now.plan n node.0 ≡ true }
        ensures records { records_of self.new ≡ without_unneeded (farm_of setup.now) (records_of self.old) }
        ensures journal { self.new.journal.items ≡ self.old.journal.items ++ retirings (farm_of setup.now) (records_of self.old) }
        ensures tables { AreTables setup.now.plan (solo_of setup.now).counts self.new }
    {
        let mut at = Some(last);
        'nodes: loop {
            let Some(here) = at else {
                return;
            };
            self.retire_one(setup, here);
            at = node_before(&setup.plan, node, here);
        }
    }

    /// What follows where a job of a node is over: copies, where its run was one that reached the node and
    /// ended, and images that no job needs any more.
    fn follow(&mut self, setup: &Setup, node: NodeNo, spread: Option<Spread>)
        requires tables { AreTables setup.now.plan (solo_of setup.now).counts self.old }
        requires node { node.0 < length setup.now.plan }
        requires spread { IfSome spread (λ s. s.node.0 ≡ node.0) }
        requires way { (n : ℕ) → is_retired (farm_of setup.now) (records_of self.old) (node_no n) ≡ true → subtree.is_below setup.now.plan n node.0 ≡ true }
        ensures records { records_of self.new ≡ without_unneeded (farm_of setup.now) (with_copies (farm_of setup.now) (option_map (spread_seen setup.now) spread) (records_of self.old)) }
        ensures journal { self.new.journal.items ≡ self.old.journal.items ++ (copies (farm_of setup.now) (option_map (spread_seen setup.now) spread) (records_of self.old)
            ++ retirings (farm_of setup.now) (with_copies (farm_of setup.now) (option_map (spread_seen setup.now) spread) (records_of self.old))) }
        ensures tables { AreTables setup.now.plan (solo_of setup.now).counts self.new }
    {
        let _nodes = nodes(setup);
        match spread {
            Some(spread) => {
                let last = self.copy(setup, spread);
                self.retire(setup, last, node);
            }
            None => self.retire(setup, node, node),
        }
    }

    /// A job is over by an entry, with all that follows.
    pub(crate) fn settle(
        &mut self,
        setup: &Setup,
        entry: Entry,
        job: Job,
        tells: Option<Told>,
        kind: Kind,
        spread: Option<Spread>,
    )
        requires tables { AreTables setup.now.plan (solo_of setup.now).counts self.old }
        requires job { is_job setup.now.plan job ≡ true }
        requires left { is_over ((records_of self.old).stages job) ≡ false }
        requires spread { IfSome spread (λ s. s.node.0 ≡ node_of job) }
        requires serve { AllServe setup.now (records_of self.old) }
        ensures records { records_of self.new ≡ without_unneeded (farm_of setup.now) (with_copies (farm_of setup.now) (option_map (spread_seen setup.now) spread) (with_over job tells kind (records_of self.old))) }
        ensures journal { self.new.journal.items ≡ self.old.journal.items ++ entry ∷ (copies (farm_of setup.now) (option_map (spread_seen setup.now) spread) (with_over job tells kind (records_of self.old))
            ++ retirings (farm_of setup.now) (with_copies (farm_of setup.now) (option_map (spread_seen setup.now) spread) (with_over job tells kind (records_of self.old)))) }
        ensures tables { AreTables setup.now.plan (solo_of setup.now).counts self.new }
    {
        self.close(setup, entry, job, tells, kind);
        self.follow(setup, node_of(job), spread);
    }

    /// The job that reaches an image's node is over at its save point, and the image is held.
    pub(crate) fn keep(&mut self, setup: &Setup, image: HeldImage)
        requires tables { AreTables setup.now.plan (solo_of setup.now).counts self.old }
        requires job { is_job setup.now.plan (Job.Reach image.node) ≡ true }
        requires left { is_over ((records_of self.old).stages (Job.Reach image.node)) ≡ false }
        requires counts { image.counts ≡ (solo_of setup.now).counts (held_of image) }
        requires free { image_of (records_of self.old) image.node ≡ None }
        requires serve { AllServe setup.now (records_of self.old) }
        ensures records { records_of self.new ≡ without_unneeded (farm_of setup.now) (with_over (Job.Reach image.node) None (Kind.Saved image.counts.turns)
            (record (records_of self.old) { held = (records_of self.old).held ++ held_of image ∷ [] })) }
        ensures journal { self.new.journal.items ≡ self.old.journal.items ++ Entry.Saved image.node image.counts.turns image.pages image.base
            ∷ retirings (farm_of setup.now) (with_over (Job.Reach image.node) None (Kind.Saved image.counts.turns) (record (records_of self.old) { held = (records_of self.old).held ++ held_of image ∷ [] })) }
        ensures tables { AreTables setup.now.plan (solo_of setup.now).counts self.new }
    {
        let entry = Entry::Saved {
            node: image.node,
            turn: image.counts.turns,
            pages: image.pages,
            base: image.base,
        };
        let kind = Kind::Saved(image.counts.turns);
        self.close(setup, entry, Job::Reach(image.node), None, kind);
        self.held.push_reserved(image);
        show(&mut self.images, image.node, Some(image));
        pin(&mut self.pins, image.base);
        self.retire(setup, image.node, image.node);
    }
}
