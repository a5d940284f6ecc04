//! Runs of jobs over pages: where they stop, images that they go on from, and a pool that has no frame left.

ghost use Rattle.std.specs.Prelude.{◌≡◌, ◌≢◌, ◌+◌, ◌<◌, ◌≤◌, None, length, IfOk, IfSome, IsTrue};
ghost use Rattle.std.specs.Arc.{arc_value};
ghost use Rattle.vf_jobs.specs.Jobs.{node_of};
ghost use Rattle.vf_frames.specs.Plain.{token_seen, pool_name};
ghost use Rattle.vf_image.specs.Images.{IsBaseOf, Serves};

use crate::setups::{named, planned};
use std::alloc::Global;
use std::marker::Brand;
use std::sync::Arc;
use std::sync::ledger::{Blank, Ledger};
use vf_base::{Job, Memory, NodeNo, SaveKind, Steps, Text};
use vf_frames::{PlainPool, PlainToken};
use vf_image::{Image, Sim};
use vf_jobs::{Setup, is_below, limits_of};
use vf_run::{Stop, go};

/// Why the run of a job stops over so many frames, the turns of the simulator then, and the bytes written.
fn run<L: Ledger>(
    alloc: Global,
    setup: &Arc<Setup>,
    job: Job,
    frames: u32,
    blank: Blank,
) -> Result<(Stop, u64, Text), Memory>
    requires name { blank.name ≡ L.name }
    requires parts { blank.parts ≡ L.parts }
    requires frames { 1 ≤ frames }
    requires job { node_of job < length (arc_value setup.now).plan }
{
    let (_, share) = blank.open::<L>();
    let mut steps = Steps::new(share);
    let (mut pool, mut hand) = PlainPool::new(alloc, frames)?;
    let mut sim = Sim::at_zero(alloc, &mut pool, &mut hand, setup, job)?;
    let _ = limits_of(setup, job);
    let stop = go(alloc, &mut sim, &mut pool, &mut steps);
    let turns = sim.header().turns;
    let text = sim.give_back(&mut pool, &mut hand);
    Ok((stop, turns, text))
}

/// The same, told as text.
fn told_run(alloc: Global, setup: &Arc<Setup>, asked: Job, frames: u32) -> Result<String, Memory> {
    let Some(job) = planned(setup, asked) else {
        return Ok(String::from_str(alloc, "no job")?);
    };
    let frames = if frames == 0 { 1 } else { frames };
    let (stop, turns, text) = run::<Brand>(alloc, setup, job, frames, Blank::new(1))?;
    let text = String::from_utf8_lossy(alloc, text.bytes())?;
    Ok(format!(in alloc; "{stop:?} after {turns}, {text}")?)
}

/// The run that a row names.
pub fn run_of(alloc: Global, setup: &Arc<Setup>, told: &str) -> Result<String, Memory> {
    let (frames, job) = told.split_once(' ').unwrap_or((told, ""));
    told_run(alloc, setup, named(job), frames.parse::<u32>().unwrap_or(0))
}

/// Whether an image of a node above may serve a job.
fn serves(image: &Image<PlainPool>, job: Job) -> bool
    ensures { IsTrue result → (node_of job < length image.now.setup.plan) × Serves image.now job × (image.now.node.0 ≢ node_of job) }
{
    let setup = image.setup();
    let node = match job {
        Job::Reach(node) => node,
        Job::Finish(node) => node,
    };
    if (node.0 as usize) < setup.plan.nodes.len() {
        let limits = limits_of(setup, job);
        let header = image.header();
        image.node().0 != node.0
            && is_below(&setup.plan, image.node(), node)
            && header.turns <= limits.turns
            && header.written <= limits.output
    } else {
        false
    }
}

/// Of each image its own pages and its turn; the first page of the first; why the test that went on from them stops, its turns
/// then, and all bytes written.
#[derive(Drop)]
struct FromImages {
    first: (u32, u64),
    second: (u32, u64),
    page: String,
    stop: Stop,
    turns: u64,
    text: Text,
}

/// The first of an image's own pages, and its words that are not 0 with their places.
fn first_page(alloc: Global, image: &Image<PlainPool>) -> Result<String, Memory> {
    if image.own_pages() == 0 {
        return Ok(String::from_str(alloc, "none")?);
    }
    let (number, words) = image.own_page(0);
    let mut text = format!(in alloc; "{}", number.0)?;
    let mut at: u32 = 0;
    for word in words {
        if *word != 0 {
            write!(text, " {at}={word}")?;
        }
        at = at.saturating_add(1);
    }
    Ok(text)
}

/// A full image of node 0, at the save point of the run that reaches it from time zero.
fn first_image<L: Ledger>(
    alloc: Global,
    setup: &Arc<Setup>,
    pool: &mut PlainPool,
    hand: &mut PlainToken,
    blank: Blank,
) -> Result<Option<Image<PlainPool>>, Memory>
    requires name { blank.name ≡ L.name }
    requires parts { blank.parts ≡ L.parts }
    requires hand { (token_seen hand.old).name ≡ pool_name pool.old }
    requires spare { 2 ≤ (token_seen hand.old).parts }
    ensures image { IfOk result (λ made. IfSome made (λ image. (image.base ≡ None) × (image.setup ≡ arc_value setup.now) × (image.pages.holder.name ≡ pool_name pool.new))) }
    ensures hand { (token_seen hand.new).name ≡ pool_name pool.new }
    ensures spare { (token_seen hand.old).parts ≤ (token_seen hand.new).parts + 1 }
{
    let (_, share) = blank.open::<L>();
    let mut steps = Steps::new(share);
    let Some(job) = planned(setup, Job::Reach(NodeNo(0))) else {
        return Ok(None);
    };
    let mut sim = Sim::at_zero(alloc, pool, hand, setup, job)?;
    let _ = limits_of(setup, job);
    let Stop::AtSave(SaveKind::Full) = go(alloc, &mut sim, pool, &mut steps) else {
        return Ok(None);
    };
    Ok(Some(Image::take_full(sim)))
}

/// An image of node 1 over the one of node 0, at the save point of the run that goes on from there.
fn second_image<L: Ledger>(
    alloc: Global,
    first: &Image<PlainPool>,
    pool: &mut PlainPool,
    hand: &mut PlainToken,
    blank: Blank,
) -> Result<Option<Image<PlainPool>>, Memory>
    requires name { blank.name ≡ L.name }
    requires parts { blank.parts ≡ L.parts }
    requires full { first.now.base ≡ None }
    requires image { first.now.pages.holder.name ≡ pool_name pool.old }
    requires hand { (token_seen hand.old).name ≡ pool_name pool.old }
    requires spare { 2 ≤ (token_seen hand.old).parts }
    ensures image { IfOk result (λ made. IfSome made (λ image. IsBaseOf image first.now × (image.pages.holder.name ≡ pool_name pool.new))) }
    ensures first { first.now.pages.holder.name ≡ pool_name pool.new }
    ensures hand { (token_seen hand.new).name ≡ pool_name pool.new }
    ensures spare { (token_seen hand.old).parts ≤ (token_seen hand.new).parts + 1 }
{
    let (_, share) = blank.open::<L>();
    let mut steps = Steps::new(share);
    let job = Job::Reach(NodeNo(1));
    if !serves(first, job) {
        return Ok(None);
    }
    let mut sim = Sim::from_image(alloc, pool, hand, first, None, job)?;
    let _ = limits_of(first.setup(), job);
    let Stop::AtSave(SaveKind::Full) = go(alloc, &mut sim, pool, &mut steps) else {
        return Ok(None);
    };
    Ok(Some(Image::take_incr(pool, sim, first)))
}

/// Why the test 2 stops that goes on from an image and its base, its turns then, and all bytes written.
fn test<L: Ledger>(
    alloc: Global,
    first: &Image<PlainPool>,
    second: &Image<PlainPool>,
    pool: &mut PlainPool,
    hand: &mut PlainToken,
    blank: Blank,
) -> Result<Option<(Stop, u64, Text)>, Memory>
    requires name { blank.name ≡ L.name }
    requires parts { blank.parts ≡ L.parts }
    requires base { IsBaseOf second.now first.now }
    requires first { first.now.pages.holder.name ≡ pool_name pool.old }
    requires second { second.now.pages.holder.name ≡ pool_name pool.old }
    requires hand { (token_seen hand.old).name ≡ pool_name pool.old }
    requires spare { 2 ≤ (token_seen hand.old).parts }
    ensures first { first.now.pages.holder.name ≡ pool_name pool.new }
    ensures second { second.now.pages.holder.name ≡ pool_name pool.new }
    ensures hand { (token_seen hand.new).name ≡ pool_name pool.new }
{
    let (_, share) = blank.open::<L>();
    let mut steps = Steps::new(share);
    let job = Job::Finish(NodeNo(2));
    if !serves(second, job) {
        return Ok(None);
    }
    let mut sim = Sim::from_image(alloc, pool, hand, second, Some(first), job)?;
    let _ = limits_of(second.setup(), job);
    let stop = go(alloc, &mut sim, pool, &mut steps);
    let turns = sim.header().turns;
    let text = sim.give_back(pool, hand);
    Ok(Some((stop, turns, text)))
}

/// A full image of node 0, one of node 1 over it, and the test from both.
fn from_images(alloc: Global, setup: &Arc<Setup>, frames: u32) -> Result<Option<FromImages>, Memory>
    requires { 1 ≤ frames }
{
    let (mut pool, mut hand) = PlainPool::new(alloc, frames)?;
    let Some(first) = first_image::<Brand>(alloc, setup, &mut pool, &mut hand, Blank::new(1))?
    else {
        return Ok(None);
    };
    let Some(second) = second_image::<Brand>(alloc, &first, &mut pool, &mut hand, Blank::new(1))?
    else {
        return Ok(None);
    };
    let Some((stop, turns, text)) = test::<Brand>(
        alloc,
        &first,
        &second,
        &mut pool,
        &mut hand,
        Blank::new(1),
    )?
    else {
        return Ok(None);
    };
    let result = FromImages {
        first: (first.own_pages(), first.header().turns),
        second: (second.own_pages(), second.header().turns),
        page: first_page(alloc, &first)?,
        stop,
        turns,
        text,
    };
    second.give_back(&mut pool, &mut hand);
    first.give_back(&mut pool, &mut hand);
    Ok(Some(result))
}

/// Why a run stops beside an image and without it, the turns of the simulator each time, and its pages in the end.
#[derive(Clone, Copy)]
struct Wanted {
    short: (Stop, u64),
    whole: (Stop, u64),
    pages: u32,
}

/// Runs a simulator on: why it stops, and its turns then.
fn run_on<L: Ledger>(
    alloc: Global,
    sim: &mut Sim<PlainPool>,
    pool: &mut PlainPool,
    blank: Blank,
) -> (Stop, u64)
    requires name { blank.name ≡ L.name }
    requires parts { blank.parts ≡ L.parts }
    requires sim { sim.old.pages.holder.name ≡ pool_name pool.old }
    ensures sim { sim.new.pages.holder.name ≡ pool_name pool.new }
    ensures pool { pool_name pool.new ≡ pool_name pool.old }
{
    let (_, share) = blank.open::<L>();
    let mut steps = Steps::new(share);
    let _ = limits_of(sim.setup(), sim.job());
    let stop = go(alloc, sim, pool, &mut steps);
    (stop, sim.header().turns)
}

/// Why the run that reaches node 1 stops while an image of node 0 holds frames, and when the image has given them back.
fn wanting(alloc: Global, setup: &Arc<Setup>, frames: u32) -> Result<Option<Wanted>, Memory>
    requires { 1 ≤ frames }
{
    let (mut pool, mut hand) = PlainPool::new(alloc, frames)?;
    let Some(first) = first_image::<Brand>(alloc, setup, &mut pool, &mut hand, Blank::new(1))?
    else {
        return Ok(None);
    };
    let job = Job::Reach(NodeNo(1));
    if !serves(&first, job) {
        return Ok(None);
    }
    let mut sim = Sim::from_image(alloc, &mut pool, &mut hand, &first, None, job)?;
    let short = run_on::<Brand>(alloc, &mut sim, &mut pool, Blank::new(1));
    first.give_back(&mut pool, &mut hand);
    sim.settle();
    let whole = run_on::<Brand>(alloc, &mut sim, &mut pool, Blank::new(1));
    let pages = sim.pages();
    let _ = sim.give_back(&mut pool, &mut hand);
    Ok(Some(Wanted {
        short,
        whole,
        pages,
    }))
}

/// What stands in images of the nodes 0 and 1, the second over the first, and what the test 2 that goes on from both comes to.
pub fn images(alloc: Global, setup: &Arc<Setup>, frames: u64) -> Result<String, Memory> {
    let frames = if frames == 0 || frames > 1000 {
        1
    } else {
        frames as u32
    };
    let Some(made) = from_images(alloc, setup, frames)? else {
        return Ok(String::from_str(alloc, "no images")?);
    };
    let text = String::from_utf8_lossy(alloc, made.text.bytes())?;
    Ok(format!(in alloc;
        "pages {} at {}, page {}; pages {} at {}; {:?} after {}, {text}",
        made.first.0, made.first.1, made.page, made.second.0, made.second.1, made.stop, made.turns
    )?)
}

/// Why the run that reaches node 1 stops beside the image of node 0 that it went on from, and again once that has given its
/// frames back; and its pages then.
pub fn short(alloc: Global, setup: &Arc<Setup>, frames: u64) -> Result<String, Memory> {
    let frames = if frames == 0 || frames > 1000 {
        1
    } else {
        frames as u32
    };
    let Some(made) = wanting(alloc, setup, frames)? else {
        return Ok(String::from_str(alloc, "no image")?);
    };
    Ok(format!(in alloc;
        "{:?} after {}; {:?} after {}; pages {}",
        made.short.0, made.short.1, made.whole.0, made.whole.1, made.pages
    )?)
}
