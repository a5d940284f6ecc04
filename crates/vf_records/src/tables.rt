//! The tables of jobs and images.

ghost use Rattle.std.specs.Prelude.{◌≡◌, ℕ, ◌+◌, ◌<◌, ◌&&◌, not, true, false, List, [], ◌∷◌, ◌++◌, Some, None, length, get_or, slice_get, replicate, map, option_map, IfOk, vec_len, vec_capacity};
ghost use Rattle.std.specs.List.{list_any, find, filter};
ghost use Rattle.vf_jobs.specs.Jobs.{node_of};
ghost use Rattle.vf_jobs.specs.Jobs as jobs;
ghost use Rattle.vf_jobs.specs.Subtree.{is_below};

use crate::counts::{counted, nodes};
use crate::ends::ends_of;
use crate::layout::{Layout, filled};
use crate::row::{HeldImage, Progress};
use std::alloc::Global;
use vf_base::{Job, Memory};
use vf_jobs::Setup;
use vf_journal::{Entry, Kind, Told};

/// The tables of a plan's jobs, by their places, and of its nodes, by their numbers; the images held, in
/// the order in which they were saved, and by their nodes; and the journal.
#[derive(Drop)]
pub(crate) struct Tables {
    pub(crate) layout: Layout,
    pub(crate) progress: Vec<Progress>,
    pub(crate) told: Vec<Option<Told>>,
    pub(crate) kinds: Vec<Kind>,
    /// The jobs before this place are over.
    pub(crate) first: usize,
    pub(crate) held: Vec<HeldImage>,
    /// The image of each node, where it is held.
    pub(crate) images: Vec<Option<HeldImage>>,
    /// How many held images stand on the image of each node.
    pub(crate) pins: Vec<usize>,
    /// How many jobs there are in each node's subtree.
    pub(crate) all: Vec<usize>,
    /// How many of these are over.
    pub(crate) done: Vec<usize>,
    /// The jobs of each node's subtree stand before this place.
    pub(crate) ends: Vec<usize>,
    pub(crate) journal: Vec<Entry>,
}

/// As many places without an outcome as asked for.
fn untold(alloc: Global, count: usize) -> Result<Vec<Option<Told>>, Memory>
    ensures { IfOk result (λ told. told.items ≡ replicate count None) }
{
    let mut told = Vec::new(alloc);
    for _ in 0..count {
        told.push(None)?;
    }
    Ok(told)
}

impl Tables {
    ghost use Rattle.vf_journal.specs.Records.{Records, at_first, running, over, is_over, is_job, is_known, image_of, some_job};
    ghost use Rattle.vf_journal.specs.Records as seen;
    ghost use Rattle.vf_journal.specs.Effects.{with_stage, with_over};
    ghost use Rattle.vf_journal.specs.Journal.{first_ready};
    ghost use Rattle.vf_records.specs.Account.{farm_of, solo_of};
    ghost use Rattle.vf_records.specs.Tables.{records_of, AreTables, is_over_progress};
    ghost use Rattle.vf_records.specs.Layout.{no_place, place_in};

    /// The tables of a plan where nothing has been done. They have the room for all that may come.
    pub(crate) fn new(alloc: Global, setup: &Setup) -> Result<Tables, Memory>
        ensures records { IfOk result (λ tables. records_of tables ≡ at_first) }
        ensures journal { IfOk result (λ tables. tables.journal.items ≡ []) }
        ensures kept { IfOk result (λ tables. AreTables setup.now.plan (solo_of setup.now).counts tables) }
    {
        let layout = Layout::new(alloc, &setup.plan)?;
        let count = layout.jobs.len();
        let most = count * 3;
        let progress = filled(alloc, Progress::Idle, count)?;
        let told = untold(alloc, count)?;
        let kinds = filled(alloc, Kind::Unknown, setup.plan.nodes.len())?;
        let held = Vec::with_capacity(alloc, most)?;
        let images = filled(alloc, None, setup.plan.nodes.len())?;
        let pins = filled(alloc, 0, setup.plan.nodes.len())?;
        let all = counted(alloc, nodes(setup), &layout.jobs)?;
        let done = filled(alloc, 0, setup.plan.nodes.len())?;
        let ends = ends_of(alloc, nodes(setup), &layout.jobs)?;
        let journal = Vec::with_capacity(alloc, most)?;
        Ok(Tables {
            layout,
            progress,
            told,
            kinds,
            first: 0,
            held,
            images,
            pins,
            all,
            done,
            ends,
            journal,
        })
    }

    /// The place of a job.
    pub(crate) fn place(&self, job: Job) -> usize
        requires { node_of job < length self.now.layout.places.items }
        ensures { result ≡ place_in self.now.layout.places.items job }
    {
        match job {
            Job::Reach(node) => self.layout.places[node.0 as usize].reach,
            Job::Finish(node) => self.layout.places[node.0 as usize].finish,
        }
    }

    pub(crate) fn is_over_at(&self, place: usize) -> bool
        requires { place < length self.now.progress.items }
        ensures { result ≡ is_over_progress (get_or self.now.progress.items place Progress.Idle) }
    {
        matches!(self.progress[place], Progress::Over)
    }
}
