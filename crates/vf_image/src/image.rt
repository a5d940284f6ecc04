ghost use Rattle.std.specs.Prelude.{◌≡◌, ◌≢◌, ◌<◌, ◌≤◌, true, false, Some, None, [], ◌∷◌, length, IfOk, OnErr, MatchResult};
ghost use Rattle.std.specs.Arc.{arc_value};
ghost use Rattle.vf_base.specs.declared.names.NodeNo.{NodeNo};
ghost use Rattle.vf_base.specs.declared.names.Job.TheVariants.{Reach};
ghost use Rattle.vf_frames.specs.Holders.{Keeps, SamePool};
ghost use Rattle.vf_jobs.specs.Jobs.{node_of};
ghost use Rattle.vf_image.specs.Images.{Serves};
ghost use Rattle.vf_image.specs.Runs.{IsSavedAt};

use crate::sim::{Sim, node};
use std::marker::Model;
use std::sync::Arc;
use vf_base::{Header, NodeNo, SaveKind, Text};
use vf_frames::Frames;
use vf_jobs::Setup;
use vf_pages::{PageNo, Paged};

/// The state at the save point of a node, kept for the runs below it: a checkpoint.
#[derive(Drop)]
pub struct Image<F: Frames> {
    pub(crate) setup: Arc<Setup>,
    node: NodeNo,
    base: Option<NodeNo>,
    pub(crate) header: Header,
    pub(crate) text: Text,
    pub(crate) saved: Option<SaveKind>,
    pub(crate) pages: Paged<F>,
}

impl<F: Frames> Model for Image<F> {
    ghost use Rattle.std.specs.Arc.{arc_value};
    ghost use Rattle.vf_image.specs.Images.{Checkpoint, IsImage};

    ghost Value = { Checkpoint };

    ghost view = { λ i. record { setup = arc_value i.setup; node = i.node; base = i.base; header = i.header; text = i.text; saved = i.saved; pages = i.pages } };

    ghost invariant = { λ i. IsImage (record { setup = arc_value i.setup; node = i.node; base = i.base; header = i.header; text = i.text; saved = i.saved; pages = i.pages }) };
}

impl<F: Frames> Image<F> {
    ghost use Rattle.vf_pages.specs.Calls.{KeptChanged, GivenBack};
    ghost use Rattle.vf_pages.specs.Pages.{IsPageAt, IsSorted};
    ghost use Rattle.vf_image.specs.Images.{IsImage, IsOwnCount};

    /// Keeps the state of a simulator whose job reaches a node and that is at the node's save point. The
    /// image has the simulator's frames.
    pub fn take_full(sim: Sim<F>) -> Image<F>
        requires reach { sim.job ≡ Reach (record { 0 = node_of sim.job }) }
        requires saved { IsSavedAt sim.setup (record { 0 = node_of sim.job }) sim.header.turns }
        ensures setup { result.setup ≡ sim.setup }
        ensures node { result.node.0 ≡ node_of sim.job }
        ensures base { result.base ≡ None }
        ensures header { result.header ≡ sim.header }
        ensures text { result.text ≡ sim.text }
        ensures saved { result.saved ≡ sim.saved }
        ensures pages { result.pages ≡ sim.pages }
    {
        let (setup, job, header, text, saved, pages) = sim.into_parts();
        Image {
            setup,
            node: node(job),
            base: None,
            header,
            text,
            saved,
            pages,
        }
    }

    /// Keeps of the state of a simulator at its node's save point the pages that a full image of a node above
    /// does not have with the same words, and releases the others. It takes no memory.
    pub fn take_incr(pool: &mut F, sim: Sim<F>, base: &Image<F>) -> Image<F>
        requires name { sim.pages.holder.name ≡ F.name pool.old }
        requires reach { sim.job ≡ Reach (record { 0 = node_of sim.job }) }
        requires saved { IsSavedAt sim.setup (record { 0 = node_of sim.job }) sim.header.turns }
        requires full { base.now.base ≡ None }
        requires setup { base.now.setup ≡ sim.setup }
        requires serves { Serves base.now sim.job }
        requires proper { base.now.node.0 ≢ node_of sim.job }
        ensures setup { result.setup ≡ sim.setup }
        ensures node { result.node.0 ≡ node_of sim.job }
        ensures base { result.base ≡ Some base.now.node }
        ensures header { result.header ≡ sim.header }
        ensures text { result.text ≡ sim.text }
        ensures saved { result.saved ≡ sim.saved }
        ensures pages { KeptChanged base.now.pages sim.pages result.pages }
        ensures kept { Keeps (F.numbers pool.old) (sim.pages.holder ∷ []) (F.numbers pool.new) (result.pages.holder ∷ []) }
        ensures pool { SamePool (F.name pool.old) (F.numbers pool.old) (F.name pool.new) (F.numbers pool.new) }
    {
        let (setup, job, header, text, saved, mut pages) = sim.into_parts();
        pages.keep_changed(pool, &base.pages);
        Image {
            setup,
            node: node(job),
            base: Some(base.node),
            header,
            text,
            saved,
            pages,
        }
    }

    /// The node whose save point it is.
    pub fn node(&self) -> NodeNo
        ensures node { result ≡ self.now.node }
        ensures kept { IsImage self.now }
    {
        self.node
    }

    /// What the farm's runs are given.
    pub fn setup(&self) -> &Arc<Setup>
        ensures { arc_value result.now ≡ self.now.setup }
    {
        &self.setup
    }

    /// The node whose image has the pages that this one lacks; none for a full image.
    pub fn base(&self) -> Option<NodeNo>
        ensures { result ≡ self.now.base }
    {
        self.base
    }

    /// What had been counted at the save point.
    pub fn header(&self) -> &Header
        ensures { result.now ≡ self.now.header }
    {
        &self.header
    }

    /// All bytes written up to the save point.
    pub fn text(&self) -> &Text
        ensures { result.now ≡ self.now.text }
    {
        &self.text
    }

    /// How many pages the image has of its own: all that its run has touched up to the save point. An
    /// incremental one lacks those of them that the base's run has touched too and that have the same words
    /// at both save points.
    pub fn own_pages(&self) -> u32
        ensures count { result ≡ length self.now.pages.pages }
        ensures own { IsOwnCount self.now self.now.base result }
        ensures frames { length self.now.pages.holder.frames ≡ result }
        ensures sorted { IsSorted self.now.pages.pages }
    {
        self.pages.pages()
    }

    /// The number and the words of one of the image's own pages, by its place among them. The numbers
    /// rise.
    pub fn own_page(&self, at: u32) -> (PageNo, &[u64; 64])
        requires { at < length self.now.pages.pages }
        ensures { IsPageAt self.now.pages.pages at result.0.0 result.1.now }
    {
        self.pages.page(at)
    }

    /// Releases every frame and gives the misses and parts to another holder.
    pub fn give_back(self, pool: &mut F, into: &mut F::Token)
        requires name { self.pages.holder.name ≡ F.name pool.old }
        requires into_name { (F.seen into.old).name ≡ F.name pool.old }
        ensures given { GivenBack self.pages (F.seen into.old) (F.seen into.new) }
        ensures kept { Keeps (F.numbers pool.old) (self.pages.holder ∷ F.seen into.old ∷ []) (F.numbers pool.new) (F.seen into.new ∷ []) }
        ensures pool { SamePool (F.name pool.old) (F.numbers pool.old) (F.name pool.new) (F.numbers pool.new) }
    {
        let Image {
            setup: _,
            node: _,
            base: _,
            header: _,
            text: _,
            saved: _,
            pages,
        } = self;
        pages.give_back(pool, into);
    }
}
