//! Walks of the records of a farm. Each step is a word, and its answer tells:
//!
//! | Step | Answer |
//! |---|---|
//! | `jobs` | the jobs of the plan |
//! | `next` | what comes next |
//! | `lose` | the next job, which is lost before it starts |
//! | `start` | the next job, which starts; the node whose image it goes on from, and the turn of that image |
//! | `kinds` | the kind of each node |
//! | `told` | how many jobs an outcome is asked of |
//! | `outcome JOB` | whether the job has an outcome |
//! | `entries` | how many entries the journal has |
//! | `entry N` | the entry of this number, from 0 |
//! | `held` | how many images are held |
//! | `image N` | the image of node N |
//! | `evict` | the node whose image would be given back |

use crate::setups::{job_text, named};
use std::alloc::Global;
use std::sync::Arc;
use vf_base::{Job, Memory, NodeNo};
use vf_jobs::Setup;
use vf_records::{Next, Records};

/// The next job is lost before it starts.
fn lose_next(records: &mut Records) -> Option<Job> {
    let Next::Job(job) = records.next_job() else {
        return None;
    };
    records.lose(job, 0);
    Some(job)
}

/// Starts the next job, and tells at which turn its attempt started.
fn start_next(records: &mut Records) -> Option<(Job, Option<NodeNo>, u64)> {
    let Next::Job(job) = records.next_job() else {
        return None;
    };
    let origin = records.start(job);
    let attempt = records.attempt(job);
    Some((job, origin, attempt?.since))
}

/// The jobs of the plan.
fn jobs(alloc: Global, records: &Records) -> Result<String, Memory> {
    let mut text = String::new(alloc);
    for job in records.jobs() {
        let job = job_text(alloc, *job)?;
        write!(text, " {job}")?;
    }
    Ok(text)
}

fn lose(alloc: Global, records: &mut Records) -> Result<String, Memory> {
    match lose_next(records) {
        Some(job) => {
            let job = job_text(alloc, job)?;
            Ok(format!(in alloc; " {job}")?)
        }
        None => Ok(format!(in alloc; " no job")?),
    }
}

fn start(alloc: Global, records: &mut Records) -> Result<String, Memory> {
    match start_next(records) {
        Some((job, origin, since)) => {
            let job = job_text(alloc, job)?;
            Ok(format!(in alloc; " {job} {origin:?} {since}")?)
        }
        None => Ok(format!(in alloc; " no job")?),
    }
}

fn entry(alloc: Global, records: &Records, at: usize) -> Result<String, Memory> {
    match records.journal().get(at) {
        Some(entry) => Ok(format!(in alloc; " {entry:?}")?),
        None => Ok(format!(in alloc; " none")?),
    }
}

fn outcome(alloc: Global, records: &Records, job: Job) -> Result<String, Memory> {
    let has = records.outcome(job).is_some();
    Ok(format!(in alloc; " {has}")?)
}

/// Does a step, and tells its answer.
fn step(alloc: Global, records: &mut Records, step: &str) -> Result<String, Memory> {
    let (word, told) = step.split_once(' ').unwrap_or((step, ""));
    match word {
        "jobs" => jobs(alloc, records),
        "next" => Ok(format!(in alloc; " {:?}", records.next_job())?),
        "lose" => lose(alloc, records),
        "start" => start(alloc, records),
        "kinds" => Ok(format!(in alloc; " {:?}", records.kinds())?),
        "told" => Ok(format!(in alloc; " {}", records.told().len())?),
        "outcome" => outcome(alloc, records, named(told)),
        "entries" => Ok(format!(in alloc; " {}", records.journal().len())?),
        "entry" => entry(alloc, records, told.parse::<usize>().unwrap_or(0)),
        "held" => Ok(format!(in alloc; " {}", records.held().len())?),
        "image" => {
            let image = records.image(NodeNo(told.parse::<u32>().unwrap_or(0)));
            Ok(format!(in alloc; " {image:?}")?)
        }
        _ => Ok(format!(in alloc; " {:?}", records.choose_evicted())?),
    }
}

/// The answers of steps on new records.
pub fn walk(alloc: Global, setup: &Arc<Setup>, steps: &str) -> Result<String, Memory> {
    let mut records = Records::new(alloc, setup)?;
    let mut text = String::new(alloc);
    for one in steps.split(';') {
        let told = step(alloc, &mut records, one)?;
        write!(text, "{told};")?;
    }
    Ok(text)
}
