//! The work of each mode on a design and a plan that are accepted.

ghost use Rattle.std.specs.Prelude.{◌≡◌, ◌^◌, ◌<◌, ℕ, List, Ok};
ghost use Rattle.vf_base.specs.Count.{Count};
ghost use Rattle.vf_ports.specs.Shelf.{ShelfState};
ghost use Rattle.vf_words.specs.declared.command.Asked.TheVariants.{Work};
ghost use Rattle.vf_words.specs.Ranges.{IsCommand};
ghost use Rattle.vf_words.specs.Words.{command_of};
ghost use Rattle.vf_top.specs.Inputs.{IsAccepted};
ghost use Rattle.vf_top.specs.Steps.{Worked};

use crate::accept::accept;
use crate::lines::{Lines, alone_lines, check_lines, farm_lines, no_test, test_at};
use crate::refusal::Refusal;
use std::alloc::Global;
use std::sync::ledger::Ledger;
use vf_base::{Memory, Steps};
use vf_design::Design;
use vf_plan::Plan;
use vf_ports::Shelf;
use vf_words::{Command, Mode};

/// Mode run.
fn run_farm<L: Ledger>(
    alloc: Global,
    command: &Command,
    design: Design,
    plan: Plan,
    steps: &mut Steps<L>,
) -> Result<Lines, Refusal>
    requires command { IsCommand command.now }
    requires mode { command.now.mode ≡ Mode.Run }
    requires steps { steps.old.count < 2 ^ 62 }
    ensures worked { (words : List (List ℕ)) (shelf : ShelfState) → IsAccepted words shelf command.now design plan
        → Worked words shelf shelf steps.old steps.new result }
    ensures parts { steps.new.parts ≡ steps.old.parts }
{
    match farm_lines(alloc, command, design, plan, steps) {
        Ok(lines) => Ok(lines),
        Err(Memory) => Err(Refusal::Memory),
    }
}

/// Mode check.
fn check(alloc: Global, command: &Command, design: &Design, plan: &Plan) -> Result<Lines, Refusal>
    requires { command.now.mode ≡ Mode.Check }
    ensures { (words : List (List ℕ)) (shelf : ShelfState) (steps : Count) → IsAccepted words shelf command.now design.now plan.now
        → Worked words shelf shelf steps steps result }
{
    let _command = command;
    match check_lines(alloc, design, plan) {
        Ok(lines) => Ok(lines),
        Err(Memory) => Err(Refusal::Memory),
    }
}

/// Mode solo.
fn run_alone<L: Ledger>(
    alloc: Global,
    command: &Command,
    design: Design,
    plan: Plan,
    steps: &mut Steps<L>,
) -> Result<Lines, Refusal>
    requires command { IsCommand command.now }
    requires mode { command.now.mode ≡ Mode.Solo }
    requires steps { steps.old.count < 2 ^ 62 }
    ensures worked { (words : List (List ℕ)) (shelf : ShelfState) → IsAccepted words shelf command.now design plan
        → Worked words shelf shelf steps.old steps.new result }
    ensures parts { steps.new.parts ≡ steps.old.parts }
{
    let Some(at) = test_at(command, &plan) else {
        return Err(no_test(alloc, command));
    };
    match alone_lines(alloc, command, design, plan, at, steps) {
        Ok(lines) => Ok(lines),
        Err(Memory) => Err(Refusal::Memory),
    }
}

/// Reads the design and the plan, and does what the mode asks for.
pub fn work<S: Shelf, L: Ledger>(
    alloc: Global,
    command: &Command,
    shelf: &mut S,
    steps: &mut Steps<L>,
) -> Result<Lines, Refusal>
    requires command { IsCommand command.now }
    requires steps { steps.old.count < 2 ^ 62 }
    ensures worked { (words : List (List ℕ)) → command_of words ≡ Ok (Work command.now)
        → Worked words (S.seen shelf.old) (S.seen shelf.new) steps.old steps.new result }
    ensures parts { steps.new.parts ≡ steps.old.parts }
{
    let (design, plan) = accept(alloc, command, shelf)?;
    match command.mode {
        Mode::Run => run_farm(alloc, command, design, plan, steps),
        Mode::Check => check(alloc, command, &design, &plan),
        Mode::Solo => run_alone(alloc, command, design, plan, steps),
        Mode::Make => unreachable!(),
    }
}
