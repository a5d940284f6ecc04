//! The values of the options, in their ranges.

ghost use Rattle.std.specs.Prelude.{◌≡◌, ◌≢◌, ◌++◌, ◌≤◌, codes, IfOk, IfSome, IsUtf8, map, option_map};
ghost use Rattle.clap.specs.Matches.{found_of};
ghost use Rattle.clap.specs.Walk.{first_of, rows_of};
ghost use Rattle.vf_words.specs.declared.fault.WordFault.TheVariants as faults;
ghost use Rattle.vf_words.specs.Answers.{Gives};
ghost use Rattle.vf_words.specs.Options.{files_of};
ghost use Rattle.vf_words.specs.Ranges.{AreNamed};
ghost use Rattle.vf_words.specs.Words.{outside, mode_named, order_named, within, decimal_in, mode_at, order_at, number_at, no_files, two_files, files_in, one_test, no_test, test_in};

use crate::limits::Numbers;
use crate::options::value;
use crate::{Mode, WordFault};
use clap::ArgMatches;
use std::alloc::Global;
use vf_base::{Memory, Text, read_decimal};
use vf_jobs::Order;

/// The option as it stands among the words.
fn dashed(alloc: Global, option: &str) -> Result<Text, Memory>
    ensures { IfOk result (λ text. text ≡ codes "--" ++ option.now) }
{
    let mut bytes = Vec::from_slice(alloc, b"--")?;
    bytes.extend_from_slice(option.as_bytes())?;
    Ok(Text::new(bytes))
}

/// The fault of an option's value.
fn outside(alloc: Global, option: &str) -> WordFault
    ensures { result ≢ faults.Memory → result ≡ outside option.now }
{
    match dashed(alloc, option) {
        Ok(text) => WordFault::Range(text),
        Err(_) => WordFault::Memory,
    }
}

#[tactic(auto, unfolding(crate::specs::Words::mode_named))]
fn mode_named(text: &str) -> Option<Mode>
    ensures mode { result ≡ mode_named text.now }
    ensures listed { IfSome result (λ mode. mode ≢ Mode.Make) }
{
    if text == "run" {
        Some(Mode::Run)
    } else if text == "check" {
        Some(Mode::Check)
    } else if text == "solo" {
        Some(Mode::Solo)
    } else {
        None
    }
}

#[tactic(auto, unfolding(crate::specs::Words::order_named))]
fn order_named(text: &str) -> Option<Order>
    ensures { result ≡ order_named text.now }
{
    if text == "oldest" {
        Some(Order::Oldest)
    } else if text == "deepest" {
        Some(Order::Deepest)
    } else if text == "widest" {
        Some(Order::Widest)
    } else {
        None
    }
}

/// The number, if it is in the range.
fn within(numbers: Numbers, number: u64) -> Option<u64>
    ensures number { result ≡ within numbers number }
    ensures range { IfSome result (λ number. (numbers.least ≤ number) × (number ≤ numbers.most)) }
{
    if numbers.least <= number && number <= numbers.most {
        Some(number)
    } else {
        None
    }
}

/// The number that a text writes in decimal digits, if it is in the range.
fn decimal_in(numbers: Numbers, text: &str) -> Option<u64>
    ensures number { result ≡ decimal_in numbers text.now }
    ensures range { IfSome result (λ number. (numbers.least ≤ number) × (number ≤ numbers.most)) }
{
    match read_decimal(text.as_bytes()) {
        Some(number) => within(numbers, number),
        None => None,
    }
}

/// The mode, run where none is given.
pub fn mode_at(alloc: Global, matches: &ArgMatches<'_>) -> Result<Mode, WordFault>
    ensures mode { Gives result (mode_at (rows_of (found_of matches.now))) }
    ensures listed { IfOk result (λ mode. mode ≢ Mode.Make) }
{
    let Some(text) = value(matches, "mode") else {
        return Ok(Mode::Run);
    };
    match mode_named(text) {
        Some(mode) => Ok(mode),
        None => Err(outside(alloc, "mode")),
    }
}

/// The order in which checkpoints are given back, oldest where none is given.
pub fn order_at(alloc: Global, matches: &ArgMatches<'_>) -> Result<Order, WordFault>
    ensures { Gives result (order_at (rows_of (found_of matches.now))) }
{
    let Some(text) = value(matches, "evict") else {
        return Ok(Order::Oldest);
    };
    match order_named(text) {
        Some(order) => Ok(order),
        None => Err(outside(alloc, "evict")),
    }
}

/// The number that an option gives.
pub fn number_at(
    alloc: Global,
    matches: &ArgMatches<'_>,
    option: &str,
    numbers: Numbers,
) -> Result<u64, WordFault>
    requires { (numbers.least ≤ numbers.default) × (numbers.default ≤ numbers.most) }
    ensures number { Gives result (number_at option.now numbers (rows_of (found_of matches.now))) }
    ensures range { IfOk result (λ number. (numbers.least ≤ number) × (number ≤ numbers.most)) }
{
    let Some(text) = value(matches, option) else {
        return Ok(numbers.default);
    };
    match decimal_in(numbers, text) {
        Some(number) => Ok(number),
        None => Err(outside(alloc, option)),
    }
}

/// The text in memory of its own.
fn owned(alloc: Global, text: &str) -> Result<Text, Memory>
    ensures same { IfOk result (λ copy. copy ≡ text.now) }
    ensures utf8 { IfOk result (λ copy. IsUtf8 copy) }
{
    Ok(Text::new(Vec::from_slice(alloc, text.as_bytes())?))
}

/// The text that an option gives, if it stands among the words.
pub fn text_at(
    alloc: Global,
    matches: &ArgMatches<'_>,
    option: &str,
) -> Result<Option<Text>, Memory>
    ensures { IfOk result (λ text. text ≡ first_of option.now (rows_of (found_of matches.now))) }
{
    match value(matches, option) {
        Some(text) => Ok(Some(owned(alloc, text)?)),
        None => Ok(None),
    }
}

/// The names of the design's file and the plan's, as the mode wants them.
pub fn files_at(
    alloc: Global,
    mode: Mode,
    matches: &ArgMatches<'_>,
) -> Result<Option<(Text, Text)>, WordFault>
    ensures files { Gives result (files_in mode (files_of (rows_of (found_of matches.now)))) }
    ensures named { mode ≢ Mode.Make → IfOk result AreNamed }
{
    let files = matches.get_strs("files").unwrap_or(&[]);
    files_in(alloc, mode, files)
}

fn files_in(alloc: Global, mode: Mode, files: &[&str]) -> Result<Option<(Text, Text)>, WordFault>
    ensures files { Gives result (files_in mode (map (λ name. name.now) files.now)) }
    ensures named { mode ≢ Mode.Make → IfOk result AreNamed }
{
    match mode {
        Mode::Make => no_files(files),
        Mode::Run => two_files(alloc, files),
        Mode::Check => two_files(alloc, files),
        Mode::Solo => two_files(alloc, files),
    }
}

fn no_files(files: &[&str]) -> Result<Option<(Text, Text)>, WordFault>
    ensures { Gives result (no_files (map (λ name. name.now) files.now)) }
{
    match files {
        [] => Ok(None),
        [_, ..] => Err(WordFault::Files),
    }
}

fn two_files(alloc: Global, files: &[&str]) -> Result<Option<(Text, Text)>, WordFault>
    ensures files { Gives result (two_files (map (λ name. name.now) files.now)) }
    ensures named { IfOk result AreNamed }
{
    match files {
        [design, plan] => Ok(Some((owned(alloc, design)?, owned(alloc, plan)?))),
        [] | [_] | [_, _, _, ..] => Err(WordFault::Files),
    }
}

/// The name of the test, which stands among the words exactly in mode solo.
pub fn test_in(
    alloc: Global,
    mode: Mode,
    matches: &ArgMatches<'_>,
) -> Result<Option<Text>, WordFault>
    ensures { Gives result (test_in mode (first_of (codes "test") (rows_of (found_of matches.now)))) }
{
    match mode {
        Mode::Solo => one_test(alloc, value(matches, "test")),
        Mode::Run => no_test(value(matches, "test")),
        Mode::Check => no_test(value(matches, "test")),
        Mode::Make => no_test(value(matches, "test")),
    }
}

fn one_test(alloc: Global, test: Option<&str>) -> Result<Option<Text>, WordFault>
    ensures { Gives result (one_test (option_map (λ name. name.now) test.entry)) }
{
    match test {
        Some(name) => Ok(Some(owned(alloc, name)?)),
        None => Err(WordFault::Test),
    }
}

fn no_test(test: Option<&str>) -> Result<Option<Text>, WordFault>
    ensures { Gives result (no_test (option_map (λ name. name.now) test.entry)) }
{
    match test {
        Some(_) => Err(WordFault::Test),
        None => Ok(None),
    }
}
