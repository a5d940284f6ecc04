//! The images of a plan's nodes, by the numbers of the nodes.

ghost use Rattle.std.specs.Prelude.{◌≡◌, ◌<◌, [], ◌∷◌, List, Option, Some, None, length, drop, replicate, slice_get, slice_set, IfOk, IfSome};
ghost use Rattle.vf_frames.specs.Holders.{Keeps, SamePool};
ghost use Rattle.vf_book.specs.Book.{image_at, holders, retired_by, retired_in, without, IsBook, Lags, IsOf, AreOf, HandKept};

use std::alloc::Global;
use vf_base::{Memory, NodeNo};
use vf_frames::Frames;
use vf_image::{Image, Sim};
use vf_journal::Entry;
use vf_records::Records;

/// As many places without an image as asked for.
pub(crate) fn no_images<F: Frames>(
    alloc: Global,
    count: usize,
) -> Result<Vec<Option<Image<F>>>, Memory>
    ensures { IfOk result (λ images. images.items ≡ replicate count None) }
{
    let mut images = Vec::new(alloc);
    for _ in 0..count {
        images.push(None)?;
    }
    Ok(images)
}

/// Takes the image of a node out of its place.
fn take_image<F: Frames>(images: &mut Vec<Option<Image<F>>>, node: NodeNo) -> Option<Image<F>>
    requires { node.0 < length images.old.items }
    ensures image { result ≡ image_at images.old.items node.0 }
    ensures rest { images.new.items ≡ slice_set images.old.items node.0 None }
{
    images[node.0 as usize].take()
}

/// Gives back the image of a node, if there is one.
pub(crate) fn give_back<F: Frames>(
    images: &mut Vec<Option<Image<F>>>,
    node: NodeNo,
    pool: &mut F,
    hand: &mut F::Token,
)
    requires node { node.0 < length images.old.items }
    requires images { AreOf (F.name pool.old) images.old.items }
    requires hand { (F.seen hand.old).name ≡ F.name pool.old }
    ensures images { images.new.items ≡ slice_set images.old.items node.0 None }
    ensures hand { HandKept (F.seen hand.old) (F.seen hand.new) }
    ensures kept { Keeps (F.numbers pool.old) (F.seen hand.old ∷ holders images.old.items)
        (F.numbers pool.new) (F.seen hand.new ∷ holders images.new.items) }
    ensures pool { SamePool (F.name pool.old) (F.numbers pool.old) (F.name pool.new) (F.numbers pool.new) }
{
    let Some(image) = take_image(images, node) else {
        return;
    };
    image.give_back(pool, hand);
}

/// How many entries the journal has.
pub(crate) fn entries(records: &Records) -> usize
    ensures { result ≡ length records.now.journal }
{
    records.journal().len()
}

/// The node whose image an entry retires.
fn retired(entry: Entry) -> Option<NodeNo>
    ensures { result ≡ retired_by entry }
{
    match entry {
        Entry::Retire(node) => Some(node),
        Entry::Start(_, _) => None,
        Entry::Saved { .. } => None,
        Entry::Pass { .. } => None,
        Entry::End { .. } => None,
        Entry::Pages { .. } => None,
        Entry::Copy(_, _) => None,
        Entry::Lost { .. } => None,
        Entry::Short { .. } => None,
        Entry::Evict(_) => None,
        Entry::Rest => None,
    }
}

/// The node whose image the entry of a place retires.
fn retired_at(journal: &[Entry], at: usize) -> Option<NodeNo>
    ensures { result ≡ retired_in (slice_get journal.now at) }
{
    let Some(entry) = journal.get(at) else {
        return None;
    };
    retired(*entry)
}

/// Gives back the image of a node, if one is named.
fn release_by<F: Frames>(
    gone: Option<NodeNo>,
    images: &mut Vec<Option<Image<F>>>,
    pool: &mut F,
    hand: &mut F::Token,
)
    requires inside { IfSome gone (λ node. node.0 < length images.old.items) }
    requires images { AreOf (F.name pool.old) images.old.items }
    requires hand { (F.seen hand.old).name ≡ F.name pool.old }
    ensures images { images.new.items ≡ without gone images.old.items }
    ensures hand { HandKept (F.seen hand.old) (F.seen hand.new) }
    ensures kept { Keeps (F.numbers pool.old) (F.seen hand.old ∷ holders images.old.items)
        (F.numbers pool.new) (F.seen hand.new ∷ holders images.new.items) }
    ensures pool { SamePool (F.name pool.old) (F.numbers pool.old) (F.name pool.new) (F.numbers pool.new) }
{
    let Some(node) = gone else {
        return;
    };
    give_back(images, node, pool, hand);
}

/// Gives back the images that the entries from one on retire.
pub(crate) fn release_retired<F: Frames>(
    records: &Records,
    since: usize,
    images: &mut Vec<Option<Image<F>>>,
    pool: &mut F,
    hand: &mut F::Token,
)
    requires lags { Lags records.now images.old.items (drop since records.now.journal) }
    requires images { AreOf (F.name pool.old) images.old.items }
    requires hand { (F.seen hand.old).name ≡ F.name pool.old }
    ensures book { IsBook (record { account = records.now; images = images.new.items }) }
    ensures images { AreOf (F.name pool.new) images.new.items }
    ensures hand { HandKept (F.seen hand.old) (F.seen hand.new) }
    ensures kept { Keeps (F.numbers pool.old) (F.seen hand.old ∷ holders images.old.items)
        (F.numbers pool.new) (F.seen hand.new ∷ holders images.new.items) }
    ensures pool { SamePool (F.name pool.old) (F.numbers pool.old) (F.name pool.new) (F.numbers pool.new) }
{
    let journal = records.journal();
    for at in since..journal.len() {
        release_by(retired_at(journal, at), images, pool, hand);
    }
}

/// Gives back all images.
pub(crate) fn release_all<F: Frames>(
    records: &Records,
    images: &mut Vec<Option<Image<F>>>,
    pool: &mut F,
    hand: &mut F::Token,
)
    requires long { length images.old.items ≡ length records.now.setup.plan }
    requires images { AreOf (F.name pool.old) images.old.items }
    requires hand { (F.seen hand.old).name ≡ F.name pool.old }
    ensures none { holders images.new.items ≡ [] }
    ensures hand { HandKept (F.seen hand.old) (F.seen hand.new) }
    ensures kept { Keeps (F.numbers pool.old) (F.seen hand.old ∷ holders images.old.items)
        (F.numbers pool.new) (F.seen hand.new ∷ holders images.new.items) }
    ensures pool { SamePool (F.name pool.old) (F.numbers pool.old) (F.name pool.new) (F.numbers pool.new) }
{
    let setup = records.setup();
    let plan = &setup.plan;
    for at in 0..plan.nodes.len() {
        give_back(images, NodeNo(at as u32), pool, hand);
    }
}

/// Gives back a simulator, and then the images that the entries from one on retire.
pub(crate) fn end_attempt<F: Frames>(
    records: &Records,
    since: usize,
    images: &mut Vec<Option<Image<F>>>,
    pool: &mut F,
    hand: &mut F::Token,
    sim: Sim<F>,
)
    requires lags { Lags records.now images.old.items (drop since records.now.journal) }
    requires images { AreOf (F.name pool.old) images.old.items }
    requires hand { (F.seen hand.old).name ≡ F.name pool.old }
    requires sim { sim.pages.holder.name ≡ F.name pool.old }
    ensures book { IsBook (record { account = records.now; images = images.new.items }) }
    ensures images { AreOf (F.name pool.new) images.new.items }
    ensures hand { HandKept (F.seen hand.old) (F.seen hand.new) }
    ensures kept { Keeps (F.numbers pool.old) (F.seen hand.old ∷ sim.pages.holder ∷ holders images.old.items)
        (F.numbers pool.new) (F.seen hand.new ∷ holders images.new.items) }
    ensures pool { SamePool (F.name pool.old) (F.numbers pool.old) (F.name pool.new) (F.numbers pool.new) }
{
    drop(sim.give_back(pool, hand));
    release_retired(records, since, images, pool, hand);
}
