ghost use Rattle.std.specs.Prelude.{◌≡◌, ℕ, suc, ◌+◌, ◌<◌, ◌≤◌, ◌++◌, Bool, None, true, false, List, [], ◌∷◌, length, IfSome, IfOk, IfErr, OnOk, OnErr, MatchResult};
ghost use Rattle.std.specs.Option.{option_map};
ghost use Rattle.std.specs.Arc.{arc_value};
ghost use Rattle.vf_jobs.specs.Jobs.{node_of};
ghost use Rattle.vf_jobs.specs.Kinds.{save_of};
ghost use Rattle.vf_frames.specs.declared.holder.Holder.{Holder};
ghost use Rattle.vf_frames.specs.Holders.{Accounts, Keeps, SamePool};
ghost use Rattle.vf_frames.specs.Calls.{Opened};
ghost use Rattle.vf_image.specs.Calls.{is_short};

use crate::image::Image;
use std::alloc::Global;
use std::marker::Model;
use std::sync::Arc;
use vf_base::{Header, Job, Memory, NodeNo, SaveKind, Text};
use vf_design::{Mark, Turn, Words};
use vf_frames::Frames;
use vf_jobs::Setup;
use vf_pages::{PageRefusal, Paged};
use vf_plan::joined;

/// A run of the design by a job, from time zero or an image on. At every moment it is turn
/// `header.turns` of the solo run of its job: it has the words, the header and all bytes written of that
/// turn, and the pages that the run touched.
#[derive(Drop)]
pub struct Sim<F: Frames> {
    setup: Arc<Setup>,
    job: Job,
    stimulus: Vec<u8>,
    header: Header,
    text: Text,
    saved: Option<SaveKind>,
    pages: Paged<F>,
    short: bool,
}

impl<F: Frames> Model for Sim<F> {
    ghost use Rattle.std.specs.Prelude.{◌≡◌};
    ghost use Rattle.std.specs.Arc.{arc_value};
    ghost use Rattle.vf_image.specs.Runs.{stimulus_of};
    ghost use Rattle.vf_image.specs.Simulators.{Simulator, IsSimulator};

    ghost Value = { Simulator };

    ghost view = { λ s. record { setup = arc_value s.setup; job = s.job; header = s.header; text = s.text; saved = s.saved; pages = s.pages; short = s.short } };

    ghost invariant = { λ s. IsSimulator (record { setup = arc_value s.setup; job = s.job; header = s.header; text = s.text; saved = s.saved; pages = s.pages; short = s.short })
        × (s.stimulus.items ≡ stimulus_of (arc_value s.setup) s.job) };
}

/// The node of a job.
pub(crate) fn node(job: Job) -> NodeNo
    ensures { result.0 ≡ node_of job }
{
    match job {
        Job::Reach(node) => node,
        Job::Finish(node) => node,
    }
}

fn save_of(mark: Mark) -> Option<SaveKind>
    ensures { result ≡ save_of mark }
{
    match mark {
        Mark::Saved(kind) => Some(kind),
        Mark::Plain => None,
        Mark::Ended(_) => None,
    }
}

// Appends the bytes of a turn; most turns have none.
fn append(bytes: &[u8], text: &mut Text) -> Result<(), Memory>
    ensures ok { OnOk result (text.new ≡ text.old ++ bytes.now) }
    ensures err { OnErr result (text.new ≡ text.old) }
{
    if bytes.is_empty() {
        return Ok(());
    }
    text.push_all(bytes)
}

fn is_short(refusal: &PageRefusal) -> bool
    ensures { result ≡ is_short refusal.now }
{
    match refusal {
        PageRefusal::Short(_) => true,
        PageRefusal::Memory => false,
    }
}

impl<F: Frames> Sim<F> {
    ghost use Rattle.vf_pages.specs.Calls.{Forked, ForkedOver, GivenBack, WroteAmong, IsShort, ShortAmong, OnRefusal, IsUnmade};
    ghost use Rattle.vf_machine.specs.Run.{is_ending};
    ghost use Rattle.vf_image.specs.Runs.{stimulus_of, touched_in, GoesPast};
    ghost use Rattle.vf_image.specs.Simulators.{IsSimulator, IsNext};
    ghost use Rattle.vf_image.specs.Calls.{Advanced, Stayed};
    ghost use Rattle.vf_image.specs.Images.{Serves, IsBaseOf, HasBase, ForkedFrom, base_holders};

    /// The run of a job at time zero, with one of the parts of `from`. Where it is out of memory all is as
    /// it was.
    pub fn at_zero(
        alloc: Global,
        pool: &mut F,
        from: &mut F::Token,
        setup: &Arc<Setup>,
        job: Job,
    ) -> Result<Sim<F>, Memory>
        requires name { (F.seen from.old).name ≡ F.name pool.old }
        requires parts { 2 ≤ (F.seen from.old).parts }
        requires job { node_of job < length (arc_value setup.now).plan }
        ensures setup { IfOk result (λ sim. (sim.setup ≡ arc_value setup.now) × (sim.job ≡ job)) }
        ensures turns { IfOk result (λ sim. (sim.header.turns ≡ 0) × (sim.short ≡ false)) }
        ensures opened { IfOk result (λ sim. Opened 1 (F.seen from.old) (F.seen from.new) sim.pages.holder) }
        ensures err { OnErr result (F.seen from.new ≡ F.seen from.old) }
        ensures kept { MatchResult result
            (λ sim. Keeps (F.numbers pool.old) (F.seen from.old ∷ []) (F.numbers pool.new) (F.seen from.new ∷ sim.pages.holder ∷ []))
            (λ _. Keeps (F.numbers pool.old) (F.seen from.old ∷ []) (F.numbers pool.new) (F.seen from.new ∷ [])) }
        ensures pool { SamePool (F.name pool.old) (F.numbers pool.old) (F.name pool.new) (F.numbers pool.new) }
    {
        let kept = Arc::try_clone(setup)?;
        let stimulus = joined(alloc, &setup.plan, node(job))?;
        let zero = Arc::try_clone(&setup.zero)?;
        let pages = Paged::at_zero(alloc, pool, from, zero)?;
        Ok(Sim {
            setup: kept,
            job,
            stimulus,
            header: Header {
                turns: 0,
                reads: 0,
                written: 0,
            },
            text: Text::new(Vec::new(alloc)),
            saved: None,
            pages,
            short: false,
        })
    }

    /// The run of a job from an image on, which stands on the way to the job's node and whose counts fit
    /// the job's limits. An image that has only the pages that its base has not needs the base. The
    /// simulator shares their pages and has one of the parts of `from`. Where it is out of memory all is as
    /// it was; it is answered too where both have a frame in common.
    pub fn from_image(
        alloc: Global,
        pool: &mut F,
        from: &mut F::Token,
        image: &Image<F>,
        base: Option<&Image<F>>,
        job: Job,
    ) -> Result<Sim<F>, Memory>
        requires name { (F.seen from.old).name ≡ F.name pool.old }
        requires image_name { image.now.pages.holder.name ≡ F.name pool.old }
        requires base_name { IfSome base (λ b. b.now.pages.holder.name ≡ F.name pool.old) }
        requires parts { 2 ≤ (F.seen from.old).parts }
        requires job { node_of job < length image.now.setup.plan }
        requires base { HasBase image.now (option_map (λ b. b.now) base) }
        requires serves { Serves image.now job }
        ensures setup { IfOk result (λ sim. (sim.setup ≡ image.now.setup) × (sim.job ≡ job)) }
        ensures header { IfOk result (λ sim. (sim.header ≡ image.now.header) × (sim.saved ≡ image.now.saved) × (sim.short ≡ false)) }
        ensures forked { IfOk result (λ sim. ForkedFrom image.now (option_map (λ b. b.now) base.entry) (F.seen from.old) (F.seen from.new) sim.pages) }
        ensures err { OnErr result (F.seen from.new ≡ F.seen from.old) }
        ensures kept { MatchResult result
            (λ sim. Keeps (F.numbers pool.old) (image.now.pages.holder ∷ (base_holders (option_map (λ b. b.now) base.entry) ++ F.seen from.old ∷ []))
            (F.numbers pool.new) (image.now.pages.holder ∷ (base_holders (option_map (λ b. b.now) base.entry) ++ F.seen from.new ∷ sim.pages.holder ∷ [])))
            (λ _. Keeps (F.numbers pool.old) (F.seen from.old ∷ []) (F.numbers pool.new) (F.seen from.new ∷ [])) }
        ensures pool { SamePool (F.name pool.old) (F.numbers pool.old) (F.name pool.new) (F.numbers pool.new) }
    {
        match base {
            Some(base) => Sim::from_incr(alloc, pool, from, image, base, job),
            None => Sim::from_full(alloc, pool, from, image, job),
        }
    }

    // The run of a job from a full image on.
    fn from_full(
        alloc: Global,
        pool: &mut F,
        from: &mut F::Token,
        image: &Image<F>,
        job: Job,
    ) -> Result<Sim<F>, Memory>
        requires name { (F.seen from.old).name ≡ F.name pool.old }
        requires image_name { image.now.pages.holder.name ≡ F.name pool.old }
        requires parts { 2 ≤ (F.seen from.old).parts }
        requires job { node_of job < length image.now.setup.plan }
        requires full { image.now.base ≡ None }
        requires serves { Serves image.now job }
        ensures setup { IfOk result (λ sim. (sim.setup ≡ image.now.setup) × (sim.job ≡ job)) }
        ensures header { IfOk result (λ sim. (sim.header ≡ image.now.header) × (sim.saved ≡ image.now.saved) × (sim.short ≡ false)) }
        ensures forked { IfOk result (λ sim. Forked image.now.pages (F.seen from.old) (F.seen from.new) sim.pages) }
        ensures err { OnErr result (F.seen from.new ≡ F.seen from.old) }
        ensures kept { MatchResult result
            (λ sim. Keeps (F.numbers pool.old) (image.now.pages.holder ∷ F.seen from.old ∷ [])
            (F.numbers pool.new) (image.now.pages.holder ∷ F.seen from.new ∷ sim.pages.holder ∷ []))
            (λ _. Keeps (F.numbers pool.old) (F.seen from.old ∷ []) (F.numbers pool.new) (F.seen from.new ∷ [])) }
        ensures pool { SamePool (F.name pool.old) (F.numbers pool.old) (F.name pool.new) (F.numbers pool.new) }
    {
        let setup = Arc::try_clone(&image.setup)?;
        let stimulus = joined(alloc, &setup.plan, node(job))?;
        let text = image.text.copy()?;
        let pages = image.pages.fork(pool, from)?;
        Ok(Sim {
            setup,
            job,
            stimulus,
            header: image.header,
            text,
            saved: image.saved,
            pages,
            short: false,
        })
    }

    // The run of a job from an image on that has only the pages that its base has not.
    fn from_incr(
        alloc: Global,
        pool: &mut F,
        from: &mut F::Token,
        image: &Image<F>,
        base: &Image<F>,
        job: Job,
    ) -> Result<Sim<F>, Memory>
        requires name { (F.seen from.old).name ≡ F.name pool.old }
        requires image_name { image.now.pages.holder.name ≡ F.name pool.old }
        requires base_name { base.now.pages.holder.name ≡ F.name pool.old }
        requires parts { 2 ≤ (F.seen from.old).parts }
        requires job { node_of job < length image.now.setup.plan }
        requires base { IsBaseOf image.now base.now }
        requires serves { Serves image.now job }
        ensures setup { IfOk result (λ sim. (sim.setup ≡ image.now.setup) × (sim.job ≡ job)) }
        ensures header { IfOk result (λ sim. (sim.header ≡ image.now.header) × (sim.saved ≡ image.now.saved) × (sim.short ≡ false)) }
        ensures forked { IfOk result (λ sim. ForkedOver image.now.pages base.now.pages (F.seen from.old) (F.seen from.new) sim.pages) }
        ensures err { OnErr result (F.seen from.new ≡ F.seen from.old) }
        ensures kept { MatchResult result
            (λ sim. Keeps (F.numbers pool.old) (image.now.pages.holder ∷ base.now.pages.holder ∷ F.seen from.old ∷ [])
            (F.numbers pool.new) (image.now.pages.holder ∷ base.now.pages.holder ∷ F.seen from.new ∷ sim.pages.holder ∷ []))
            (λ _. Keeps (F.numbers pool.old) (F.seen from.old ∷ []) (F.numbers pool.new) (F.seen from.new ∷ [])) }
        ensures pool { SamePool (F.name pool.old) (F.numbers pool.old) (F.name pool.new) (F.numbers pool.new) }
    {
        let setup = Arc::try_clone(&image.setup)?;
        let stimulus = joined(alloc, &setup.plan, node(job))?;
        let text = image.text.copy()?;
        let pages = image.pages.fork_over(pool, from, &base.pages)?;
        Ok(Sim {
            setup,
            job,
            stimulus,
            header: image.header,
            text,
            saved: image.saved,
            pages,
            short: false,
        })
    }

    /// The job.
    pub fn job(&self) -> Job
        ensures job { result ≡ self.now.job }
        ensures kept { IsSimulator self.now }
    {
        self.job
    }

    /// What the run has counted.
    pub fn header(&self) -> &Header
        ensures header { result.now ≡ self.now.header }
        ensures kept { IsSimulator self.now }
    {
        &self.header
    }

    /// All bytes written so far.
    pub fn text(&self) -> &Text
        ensures { result.now ≡ self.now.text }
    {
        &self.text
    }

    /// The checkpoint that the last turn asked for.
    pub fn saved(&self) -> Option<SaveKind>
        ensures { result ≡ self.now.saved }
    {
        self.saved
    }

    /// What the farm's runs are given.
    pub fn setup(&self) -> &Arc<Setup>
        ensures { arc_value result.now ≡ self.now.setup }
    {
        &self.setup
    }

    /// The stimulus of the job.
    pub fn stimulus(&self) -> &[u8]
        ensures { result.now ≡ stimulus_of self.now.setup self.now.job }
    {
        self.stimulus.as_slice()
    }

    /// How many pages are held: just those that the run has touched.
    pub fn pages(&self) -> u32
        ensures count { result ≡ length self.now.pages.pages }
        ensures budget { result ≤ self.now.pages.holder.name.frames }
        ensures touched { result ≡ touched_in self.now.setup self.now.job self.now.header.turns }
        ensures frames { length self.now.pages.holder.frames ≡ result }
    {
        self.pages.pages()
    }

    /// Performs the turn that comes next, as the kernel gave it on this state; it is no ending. After a
    /// refusal all is as before but the misses and notes. `Short` tells how many pages the run would have
    /// touched with that turn, and leaves the simulator short until its next turn, or until `settle`.
    pub fn advance(&mut self, pool: &mut F, turn: &Turn) -> Result<(), PageRefusal>
        requires name { self.old.pages.holder.name ≡ F.name pool.old }
        requires next { IsNext self.old turn.now }
        requires goes_on { is_ending turn.now.mark ≡ false }
        requires goes_past { GoesPast self.old.setup self.old.job self.old.header.turns }
        ensures ok { OnOk result (Advanced turn.now self.old self.new) }
        ensures ok_among { OnOk result ((others : List Holder)
            → Accounts (F.numbers pool.old) (self.old.pages.holder ∷ others) → WroteAmong turn.now.writes.items self.old.pages self.new.pages others) }
        ensures err { OnErr result (Stayed self.old self.new) }
        ensures refused { IfErr result (λ refusal. OnRefusal refusal
            (λ k. IsShort k turn.now.writes.items self.old.pages self.new.pages × (self.new.short ≡ true))
            (IsUnmade self.old.pages self.new.pages × (self.new.short ≡ self.old.short))) }
        ensures number { IfErr result (λ refusal. OnRefusal refusal
            (λ k. k ≡ touched_in self.old.setup self.old.job (suc self.old.header.turns)) (Unit {0})) }
        ensures refused_among { IfErr result (λ refusal. (others : List Holder)
            → Accounts (F.numbers pool.old) (self.old.pages.holder ∷ others)
            → OnRefusal refusal (λ k. ShortAmong k turn.now.writes.items self.old.pages others) (Unit {0})) }
        ensures kept { Keeps (F.numbers pool.old) (self.old.pages.holder ∷ []) (F.numbers pool.new) (self.new.pages.holder ∷ []) }
        ensures pool { SamePool (F.name pool.old) (F.numbers pool.old) (F.name pool.new) (F.numbers pool.new) }
    {
        let before = self.text.bytes().len();
        if append(turn.text.bytes(), &mut self.text).is_err() {
            return Err(PageRefusal::Memory);
        }
        match self.pages.write_all(pool, &turn.writes) {
            Ok(()) => {
                self.header = turn.header;
                self.saved = save_of(turn.mark);
                self.short = false;
                Ok(())
            }
            Err(refusal) => {
                self.text.truncate(before);
                self.short = self.short || is_short(&refusal);
                Err(refusal)
            }
        }
    }

    /// The simulator is not short any more; all else is as before.
    pub fn settle(&mut self)
        ensures { self.new ≡ record self.old { short = false } }
    {
        self.short = false;
    }

    // What a simulator is made of, but for the stimulus.
    pub(crate) fn into_parts(self) -> (Arc<Setup>, Job, Header, Text, Option<SaveKind>, Paged<F>)
        ensures setup { arc_value result.0 ≡ self.setup }
        ensures job { result.1 ≡ self.job }
        ensures header { result.2 ≡ self.header }
        ensures text { result.3 ≡ self.text }
        ensures saved { result.4 ≡ self.saved }
        ensures pages { result.5 ≡ self.pages }
        ensures kept { IsSimulator self }
    {
        let Sim {
            setup,
            job,
            stimulus: _,
            header,
            text,
            saved,
            pages,
            short: _,
        } = self;
        (setup, job, header, text, saved, pages)
    }

    /// Releases every frame, gives the misses and parts to another holder, and answers all bytes written.
    pub fn give_back(self, pool: &mut F, into: &mut F::Token) -> Text
        requires name { self.pages.holder.name ≡ F.name pool.old }
        requires into_name { (F.seen into.old).name ≡ F.name pool.old }
        ensures text { result ≡ self.text }
        ensures given { GivenBack self.pages (F.seen into.old) (F.seen into.new) }
        ensures kept { Keeps (F.numbers pool.old) (self.pages.holder ∷ F.seen into.old ∷ []) (F.numbers pool.new) (F.seen into.new ∷ []) }
        ensures pool { SamePool (F.name pool.old) (F.numbers pool.old) (F.name pool.new) (F.numbers pool.new) }
    {
        let Sim {
            setup: _,
            job: _,
            stimulus: _,
            header: _,
            text,
            saved: _,
            pages,
            short: _,
        } = self;
        pages.give_back(pool, into);
        text
    }
}

impl<F: Frames> Words for Sim<F> {
    ghost use Rattle.vf_image.specs.Simulators.{contents, is_past_end};

    ghost contents = { contents };

    ghost past_end = { is_past_end };

    fn read(&self, at: u32) -> u64 {
        self.pages.read(at)
    }

    fn past_end(&self) -> bool {
        self.header.reads > self.stimulus.len() as u64
    }
}
