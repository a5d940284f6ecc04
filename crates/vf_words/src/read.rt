ghost use Rattle.std.specs.Prelude.{◌≡◌, codes, IfOk, map};
ghost use Rattle.std.specs.String.{string_bytes};
ghost use Rattle.clap.specs.Matches.{found_of};
ghost use Rattle.clap.specs.Walk.{first_of, rows_of};
ghost use Rattle.vf_words.specs.Answers.{Gives};
ghost use Rattle.vf_words.specs.Ranges.{IsCommand, IsAsked};
ghost use Rattle.vf_words.specs.Words.{is_true, command_in, asks, command_of};

use crate::limits::{NUMBER, OUTPUT, PAGES, SLOTS, TURNS, WORKERS};
use crate::options::{parsed, value};
use crate::values::{files_at, mode_at, number_at, order_at, test_in, text_at};
use crate::{Asked, Command, WordFault};
use clap::ArgMatches;
use std::alloc::Global;
use vf_base::Limits;

/// Whether the journal is asked for.
fn has_journal(matches: &ArgMatches<'_>) -> bool
    ensures { result ≡ is_true (first_of (codes "journal") (rows_of (found_of matches.now))) }
{
    match value(matches, "journal") {
        Some(text) => text == "true",
        None => false,
    }
}

/// The work that the options and files ask for.
#[tactic(auto, unfolding(crate::specs::Words::command_in))]
fn command_in(alloc: Global, matches: &ArgMatches<'_>) -> Result<Command, WordFault>
    ensures command { Gives result (command_in (rows_of (found_of matches.now))) }
    ensures ranges { IfOk result IsCommand }
{
    let mode = mode_at(alloc, matches)?;
    let workers = number_at(alloc, matches, "workers", WORKERS)? as u32;
    let pages = number_at(alloc, matches, "pages", PAGES)? as u32;
    let turns = number_at(alloc, matches, "turns", TURNS)?;
    let output = number_at(alloc, matches, "output", OUTPUT)?;
    let slots = number_at(alloc, matches, "slots", SLOTS)? as u32;
    let order = order_at(alloc, matches)?;
    let number = number_at(alloc, matches, "number", NUMBER)? as u32;
    let files = files_at(alloc, mode, matches)?;
    let test = test_in(alloc, mode, matches)?;
    Ok(Command {
        mode,
        workers,
        pages,
        limits: Limits { turns, output },
        slots,
        order,
        journal: has_journal(matches),
        top: text_at(alloc, matches, "top")?,
        test,
        number,
        files,
    })
}

/// Whether the first word is one of the two.
fn asks(words: &[String], long: &str, short: &str) -> bool
    ensures { result ≡ asks long.now short.now (map string_bytes words.now) }
{
    match words {
        [first, ..] => first.as_str() == long || first.as_str() == short,
        [] => false,
    }
}

/// Reads the words of a command line, without the program's name (docs/FORMATS.md, "Command words").
/// The answer is what they ask for, or their first fault; only `Memory` may come in place of either.
/// Each number of a command is in its range, and two files are named.
#[tactic(auto, unfolding(crate::specs::Words::command_of))]
pub fn read_words(alloc: Global, words: &[String]) -> Result<Asked, WordFault>
    ensures asked { Gives result (command_of (map string_bytes words.now)) }
    ensures ranges { IfOk result IsAsked }
{
    if asks(words, "--help", "-h") {
        return Ok(Asked::Help);
    }
    if asks(words, "--version", "-V") {
        return Ok(Asked::Version);
    }
    let matches = parsed(alloc, words)?;
    Ok(Asked::Work(command_in(alloc, &matches)?))
}
