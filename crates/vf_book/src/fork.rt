//! Simulators that begin at time zero or go on from images.

ghost use Rattle.std.specs.Prelude.{◌≡◌, ◌<◌, ◌≤◌, [], ◌∷◌, List, Option, Some, None, length, true, is_some, slice_set, IfOk, IfSome, OnErr, MatchResult, option_map};
ghost use Rattle.std.specs.Arc.{arc_value};
ghost use Rattle.vf_frames.specs.Holders.{Keeps, SamePool};
ghost use Rattle.vf_image.specs.Images.{Checkpoint, IsImage};
ghost use Rattle.vf_jobs.specs.Jobs.{node_of};
ghost use Rattle.vf_book.specs.Book.{image_at, holders, AreOf, HandLent};
ghost use Rattle.vf_book.specs.Forks.{base_in, IsSource, StandsAt, HasSource, StandsAtOrigin, HasBaseOf, IsKeptAs};
ghost use Rattle.vf_base.specs.declared.names.Job.TheVariants.{Reach};
ghost use Rattle.vf_frames.specs.Calls.{SameRest};
ghost use Rattle.vf_image.specs.Runs.{IsSavedAt};

use std::alloc::Global;
use std::sync::Arc;
use vf_base::{Job, Memory, NodeNo};
use vf_frames::Frames;
use vf_image::{Image, Sim};
use vf_jobs::Setup;

/// The image of a node that has one.
pub(crate) fn image_of<F: Frames>(images: &Vec<Option<Image<F>>>, node: NodeNo) -> &Image<F>
    requires inside { node.0 < length images.now.items }
    requires there { is_some (image_at images.now.items node.0) ≡ true }
    ensures image { image_at images.now.items node.0 ≡ Some result.now }
    ensures kept { IsImage result.now }
{
    let Some(image) = &images[node.0 as usize] else {
        unreachable!();
    };
    let _ = image.node();
    image
}

/// The base of an image, where it has one.
fn base_image<F: Frames>(images: &Vec<Option<Image<F>>>, base: Option<NodeNo>) -> Option<&Image<F>>
    requires { IfSome base (λ b. (b.0 < length images.now.items) × (is_some (image_at images.now.items b.0) ≡ true)) }
    ensures image { option_map (λ b. b.now) result ≡ base_in images.now.items base }
    ensures kept { IfSome result (λ b. IsImage b.now) }
{
    let Some(base) = base else {
        return None;
    };
    Some(image_of(images, base))
}

/// A simulator of a job at the save point of a node whose image is there.
pub(crate) fn fork<F: Frames>(
    alloc: Global,
    images: &Vec<Option<Image<F>>>,
    pool: &mut F,
    hand: &mut F::Token,
    node: NodeNo,
    job: Job,
) -> Result<Sim<F>, Memory>
    requires source { HasSource images.now.items (Some node) job }
    requires images { AreOf (F.name pool.old) images.now.items }
    requires hand { (F.seen hand.old).name ≡ F.name pool.old }
    requires parts { 2 ≤ (F.seen hand.old).parts }
    ensures ok { (i : Checkpoint) → image_at images.now.items node.0 ≡ Some i → IfOk result (λ sim. StandsAt i.setup job i.header.turns sim) }
    ensures lent { IfOk result (λ sim. HandLent (F.name pool.new) (F.seen hand.old) (F.seen hand.new) sim.pages.holder) }
    ensures err { OnErr result (F.seen hand.new ≡ F.seen hand.old) }
    ensures kept { MatchResult result
        (λ sim. Keeps (F.numbers pool.old) (F.seen hand.old ∷ holders images.now.items) (F.numbers pool.new) (F.seen hand.new ∷ sim.pages.holder ∷ holders images.now.items))
        (λ _. Keeps (F.numbers pool.old) (F.seen hand.old ∷ holders images.now.items) (F.numbers pool.new) (F.seen hand.new ∷ holders images.now.items)) }
    ensures pool { SamePool (F.name pool.old) (F.numbers pool.old) (F.name pool.new) (F.numbers pool.new) }
{
    let image = image_of(images, node);
    let base = base_image(images, image.base());
    Sim::from_image(alloc, pool, hand, image, base, job)
}

/// A simulator of a job at its origin: the image of a node that is there, or time zero.
pub(crate) fn start_from<F: Frames>(
    alloc: Global,
    setup: &Arc<Setup>,
    images: &Vec<Option<Image<F>>>,
    pool: &mut F,
    hand: &mut F::Token,
    origin: Option<NodeNo>,
    job: Job,
) -> Result<Sim<F>, Memory>
    requires source { HasSource images.now.items origin job }
    requires images { AreOf (F.name pool.old) images.now.items }
    requires hand { (F.seen hand.old).name ≡ F.name pool.old }
    requires parts { 2 ≤ (F.seen hand.old).parts }
    requires job { node_of job < length (arc_value setup.now).plan }
    ensures ok { IfOk result (λ sim. StandsAtOrigin (arc_value setup.now) images.now.items origin job sim) }
    ensures lent { IfOk result (λ sim. HandLent (F.name pool.new) (F.seen hand.old) (F.seen hand.new) sim.pages.holder) }
    ensures err { OnErr result (F.seen hand.new ≡ F.seen hand.old) }
    ensures kept { MatchResult result
        (λ sim. Keeps (F.numbers pool.old) (F.seen hand.old ∷ holders images.now.items) (F.numbers pool.new) (F.seen hand.new ∷ sim.pages.holder ∷ holders images.now.items))
        (λ _. Keeps (F.numbers pool.old) (F.seen hand.old ∷ holders images.now.items) (F.numbers pool.new) (F.seen hand.new ∷ holders images.now.items)) }
    ensures pool { SamePool (F.name pool.old) (F.numbers pool.old) (F.name pool.new) (F.numbers pool.new) }
{
    let Some(node) = origin else {
        return Sim::at_zero(alloc, pool, hand, setup, job);
    };
    fork(alloc, images, pool, hand, node, job)
}

/// Keeps a simulator at its save point as an image, over the image of a base if there is one.
pub(crate) fn keep<F: Frames>(
    images: &Vec<Option<Image<F>>>,
    pool: &mut F,
    sim: Sim<F>,
    base: Option<NodeNo>,
) -> Image<F>
    requires name { sim.pages.holder.name ≡ F.name pool.old }
    requires reach { sim.job ≡ Reach (record { 0 = node_of sim.job }) }
    requires saved { IsSavedAt sim.setup (record { 0 = node_of sim.job }) sim.header.turns }
    requires base { HasBaseOf images.now.items sim base }
    ensures image { IsKeptAs sim base result }
    ensures rest { SameRest sim.pages.holder result.pages.holder }
    ensures kept { Keeps (F.numbers pool.old) (sim.pages.holder ∷ []) (F.numbers pool.new) (result.pages.holder ∷ []) }
    ensures pool { SamePool (F.name pool.old) (F.numbers pool.old) (F.name pool.new) (F.numbers pool.new) }
{
    let Some(base) = base else {
        return Image::take_full(sim);
    };
    Image::take_incr(pool, sim, image_of(images, base))
}

/// Puts the image of a node into its place.
pub(crate) fn put<F: Frames>(images: &mut Vec<Option<Image<F>>>, node: NodeNo, image: Image<F>)
    requires { node.0 < length images.old.items }
    ensures { images.new.items ≡ slice_set images.old.items node.0 (Some image) }
{
    images[node.0 as usize] = Some(image);
}
