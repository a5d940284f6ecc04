//! The words as options with their values, by clap.

ghost use Rattle.std.specs.Prelude.{◌≡◌, IfOk, map, option_map};
ghost use Rattle.std.specs.String.{string_bytes};
ghost use Rattle.clap.specs.Matches.{found_of};
ghost use Rattle.clap.specs.Simple.{app_of, with_rule};
ghost use Rattle.clap.specs.Walk.{first_of, rows_of};
ghost use Rattle.vf_words.specs.Answers.{Shows};
ghost use Rattle.vf_words.specs.Options.{option_rule, journal_rule, files_rule, vfarm, parsed};

use crate::WordFault;
use clap::error::ErrorKind;
use clap::{Arg, ArgAction, ArgMatches, Command};
use std::alloc::{AllocError, Global};

/// The command with an option that takes a value.
fn with_option<'a>(
    alloc: Global,
    command: Command<'a>,
    name: &'a str,
) -> Result<Command<'a>, AllocError>
    ensures { IfOk result (λ more. app_of more ≡ with_rule (app_of command.entry) (option_rule name.entry.now)) }
{
    command.arg(Arg::new(alloc, name).long(name).action(ArgAction::Set))
}

/// The command with the flag `--journal` and the files.
fn with_rest<'a>(alloc: Global, command: Command<'a>) -> Result<Command<'a>, AllocError>
    ensures { IfOk result (λ more. app_of more
        ≡ with_rule (with_rule (app_of command.entry) journal_rule) files_rule) }
{
    let journal = Arg::new(alloc, "journal")
        .long("journal")
        .action(ArgAction::SetTrue);
    let files = Arg::new(alloc, "files").action(ArgAction::Append);
    command.arg(journal)?.arg(files)
}

/// The command that the words go to.
fn command<'a>(alloc: Global) -> Result<Command<'a>, AllocError>
    ensures { IfOk result (λ command. app_of command ≡ vfarm) }
{
    let empty = Command::new(alloc, "vfarm")
        .no_binary_name(true)
        .disable_help_flag(true);
    let command = with_option(alloc, empty, "mode")?;
    let command = with_option(alloc, command, "workers")?;
    let command = with_option(alloc, command, "pages")?;
    let command = with_option(alloc, command, "turns")?;
    let command = with_option(alloc, command, "output")?;
    let command = with_option(alloc, command, "slots")?;
    let command = with_option(alloc, command, "top")?;
    let command = with_option(alloc, command, "evict")?;
    let command = with_option(alloc, command, "test")?;
    let command = with_option(alloc, command, "number")?;
    with_rest(alloc, command)
}

/// What the words give each option and flag, and which files they name.
#[tactic(auto, unfolding(crate::specs::Options::parsed))]
pub fn parsed<'a>(alloc: Global, words: &'a [String]) -> Result<ArgMatches<'a>, WordFault>
    ensures { Shows (λ matches. rows_of (found_of matches)) result (parsed (map string_bytes words.entry.now)) }
{
    match command(alloc)?.try_get_matches_from(words) {
        Ok(matches) => Ok(matches),
        Err(error) => match error.kind() {
            ErrorKind::OutOfMemory => Err(WordFault::Memory),
            _ => Err(WordFault::Refused),
        },
    }
}

/// The value of an option; a flag's is `true` where it stands among the words, and else `false`.
pub fn value<'a>(matches: &ArgMatches<'a>, option: &str) -> Option<&'a str>
    ensures { option_map (λ text. text.now) result ≡ first_of option.now (rows_of (found_of matches.now)) }
{
    matches.get_str(option)
}
