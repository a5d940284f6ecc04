//! Walks of two holders of pages.

use crate::bench::Bench;
use crate::writes::Rising;
use std::alloc::Global;
use vf_base::Memory;

/// A number of a step; 0 where there is none.
fn number(word: Option<&str>) -> u64 {
    match word {
        Some(word) => word.parse::<u64>().unwrap_or(0),
        None => 0,
    }
}

/// The writes that a step tells one by one.
fn told_writes(alloc: Global, words: u32, told: &str) -> Result<Rising, Memory> {
    let mut rising = Rising::new(alloc, words);
    for pair in told.split(' ') {
        let (at, word) = pair.split_once('=').unwrap_or((pair, ""));
        rising.add(number(Some(at)), number(Some(word)))?;
    }
    Ok(rising)
}

/// The writes of one word to addresses at the same distance, from 0 on.
fn even_writes(alloc: Global, words: u32, told: &str) -> Result<Rising, Memory> {
    let mut parts = told.split(' ');
    let distance = number(parts.next());
    let count = number(parts.next());
    let word = number(parts.next());
    let mut rising = Rising::new(alloc, words);
    let mut at: u64 = 0;
    for _ in 0..count {
        rising.add(at, word)?;
        at = at.saturating_add(distance);
    }
    Ok(rising)
}

fn write(alloc: Global, bench: &mut Bench, rising: &Rising) -> Result<String, Memory> {
    let answer = bench.write(rising);
    Ok(format!(in alloc; " {answer:?}")?)
}

/// The words at the addresses of a step.
fn read(alloc: Global, bench: &Bench, told: &str) -> Result<String, Memory> {
    let mut text = String::new(alloc);
    for at in told.split(' ') {
        let word = bench.read(number(Some(at)));
        write!(text, " {word}")?;
    }
    Ok(text)
}

/// The page at a place, and the word at a place of it.
fn page(alloc: Global, bench: &Bench, told: &str) -> Result<String, Memory> {
    let (at, place) = told.split_once(' ').unwrap_or((told, ""));
    match bench.page(number(Some(at)), number(Some(place))) {
        Some((page, word)) => Ok(format!(in alloc; " {page} {word}")?),
        None => Ok(format!(in alloc; " -")?),
    }
}

/// The answer of a step that gives none where it is done.
fn done(alloc: Global, answer: Result<(), Memory>) -> Result<String, Memory> {
    answer?;
    Ok(String::new(alloc))
}

/// Does a step, and tells its answer.
fn step(alloc: Global, bench: &mut Bench, step: &str) -> Result<String, Memory> {
    let (word, told) = step.split_once(' ').unwrap_or((step, ""));
    match word {
        "write" => {
            let rising = told_writes(alloc, bench.words(), told)?;
            write(alloc, bench, &rising)
        }
        "every" => {
            let rising = even_writes(alloc, bench.words(), told)?;
            write(alloc, bench, &rising)
        }
        "read" => read(alloc, bench, told),
        "count" => Ok(format!(in alloc; " {}", bench.count())?),
        "page" => page(alloc, bench, told),
        "misses" => {
            let (first, hand) = bench.misses();
            Ok(format!(in alloc; " {first} {hand}")?)
        }
        "swap" => {
            bench.swap();
            Ok(String::new(alloc))
        }
        "keep" => {
            bench.keep();
            Ok(String::new(alloc))
        }
        "fork" => done(alloc, bench.fork()),
        "over" => done(alloc, bench.over()),
        "anew" => done(alloc, bench.anew(alloc)),
        _ => Ok(format!(in alloc; " not a step")?),
    }
}

/// The answers of the steps of a row, after its numbers of frames and words.
pub fn walk(alloc: Global, row: &str) -> Result<String, Memory> {
    let (frames, rest) = row.split_once(' ').unwrap_or((row, ""));
    let (words, steps) = rest.split_once(' ').unwrap_or((rest, ""));
    let frames = frames.parse::<u32>().unwrap_or(1);
    let frames = if frames == 0 { 1 } else { frames };
    let words = words.parse::<u32>().unwrap_or(0);
    let mut bench = Bench::new(alloc, frames, words)?;
    let mut text = String::new(alloc);
    for one in steps.split(';') {
        text.push_str(step(alloc, &mut bench, one)?.as_str())?;
        text.push_str(";")?;
    }
    Ok(text)
}
