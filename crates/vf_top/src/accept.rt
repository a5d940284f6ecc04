ghost use Rattle.std.specs.Prelude.{◌≡◌, ◌≤◌, ℕ, List, length, map, Some, Ok, IsUtf8, option_copied};
ghost use Rattle.std.specs.String.{string_bytes};
ghost use Rattle.vf_plan.specs.Reading.{plan_of};
ghost use Rattle.vf_words.specs.declared.command.Asked.TheVariants.{Work};
ghost use Rattle.vf_words.specs.Ranges.{IsCommand};
ghost use Rattle.vf_words.specs.Words.{command_of};
ghost use Rattle.vf_top.specs.Report.{is_top};
ghost use Rattle.vf_top.specs.Steps.{Asks, Fetched, Accepts, BuildsDesign, NamesTop, ReadsPlan};

use crate::limits::LONGEST_DESIGN;
use crate::refusal::{Refusal, What};
use std::alloc::Global;
use vf_base::Text;
use vf_design::Design;
use vf_early::{EarlyFault, early_design};
use vf_plan::{Plan, PlanKind, read_plan};
use vf_ports::{Shelf, ShelfRefusal};
use vf_words::{Asked, Command, WordFault, read_words};

/// What the words ask for.
pub fn asked(alloc: Global, words: &[String]) -> Result<Asked, Refusal>
    ensures { Asks (command_of (map string_bytes words.now)) result }
{
    match read_words(alloc, words) {
        Ok(asked) => Ok(asked),
        Err(WordFault::Refused) => Err(Refusal::WrongWords(WordFault::Refused)),
        Err(WordFault::Range(option)) => Err(Refusal::WrongWords(WordFault::Range(option))),
        Err(WordFault::Files) => Err(Refusal::WrongWords(WordFault::Files)),
        Err(WordFault::Test) => Err(Refusal::WrongWords(WordFault::Test)),
        Err(WordFault::Memory) => Err(Refusal::Memory),
    }
}

/// The text, which is UTF-8.
fn as_str(text: &Text) -> &str
    requires { IsUtf8 text.now }
    ensures { result.now ≡ text.now }
{
    match str::from_utf8(text.bytes()) {
        Ok(text) => text,
        Err(_) => unreachable!(),
    }
}

/// The names of the design's file and the plan's.
fn names(command: &Command) -> (&str, &str)
    requires { IsCommand command.now }
    ensures { Some (result.0.now, result.1.now) ≡ command.now.files }
{
    match &command.files {
        Some((design, plan)) => (as_str(design), as_str(plan)),
        None => unreachable!(),
    }
}

/// Reads one of the two files.
#[tactic(auto, using(crate::proofs::SeenLemmas::same_shelf))]
fn fetch<S: Shelf>(alloc: Global, shelf: &mut S, name: &str, what: What) -> Result<Vec<u8>, Refusal>
    ensures { Fetched (λ bytes. bytes.items) (S.seen shelf.old) (S.seen shelf.new) name.now what result }
{
    let mut bytes = Vec::new(alloc);
    match shelf.fetch(name, what.limit(), &mut bytes) {
        Ok(()) => Ok(bytes),
        Err(ShelfRefusal::Failed) => Err(Refusal::Failed(what)),
        Err(ShelfRefusal::TooLong { taken: _ }) => Err(Refusal::TooLong(what)),
        Err(ShelfRefusal::Memory) => Err(Refusal::Memory),
    }
}

/// The design that the bytes spell, with so many event slots.
fn design_in(alloc: Global, bytes: &[u8], slots: u32) -> Result<Design, Refusal>
    requires bytes { length bytes.now ≤ LONGEST_DESIGN }
    requires slots { (1 ≤ slots) × (slots ≤ 16384) }
    ensures { BuildsDesign slots bytes.now result }
{
    match early_design(alloc, bytes, slots) {
        Ok(design) => Ok(design),
        Err(EarlyFault::NotBuilt) => Err(Refusal::DesignNotBuilt),
        Err(EarlyFault::Memory) => Err(Refusal::Memory),
    }
}

/// Whether the words name no top module, or that of the design.
fn is_top(top: Option<&Text>, design: &Design) -> bool
    ensures { result ≡ is_top (option_copied top.entry) design.now }
{
    match top {
        None => true,
        Some(name) => name.bytes() == design.top.bytes(),
    }
}

/// Looks for the top module that the words name, where they name one.
fn top_in(command: &Command, design: &Design) -> Result<(), Refusal>
    ensures { NamesTop command.now.top design.now result }
{
    if is_top(command.top.as_ref(), design) {
        Ok(())
    } else {
        Err(Refusal::NoTop)
    }
}

/// The plan that the bytes are.
fn plan_in(alloc: Global, bytes: &[u8]) -> Result<Plan, Refusal>
    ensures { ReadsPlan (plan_of bytes.now) result }
{
    match read_plan(alloc, bytes) {
        Ok(plan) => Ok(plan),
        Err(fault) => match fault.kind {
            PlanKind::Memory => Err(Refusal::Memory),
            _ => Err(Refusal::WrongPlan(fault)),
        },
    }
}

/// Reads the design and the plan that the words name, in this order.
pub fn accept<S: Shelf>(
    alloc: Global,
    command: &Command,
    shelf: &mut S,
) -> Result<(Design, Plan), Refusal>
    requires { IsCommand command.now }
    ensures { (words : List (List ℕ)) → command_of words ≡ Ok (Work command.now)
        → Accepts (λ x. x.0) (λ x. x.1) words command.now (S.seen shelf.old) (S.seen shelf.new) result }
{
    let (design_name, plan_name) = names(command);
    let bytes = fetch(alloc, shelf, design_name, What::Design)?;
    let design = design_in(alloc, &bytes, command.slots)?;
    top_in(command, &design)?;
    let bytes = fetch(alloc, shelf, plan_name, What::Plan)?;
    let plan = plan_in(alloc, &bytes)?;
    Ok((design, plan))
}
