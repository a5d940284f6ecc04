//! The laws of a report, each the contract of a function that does nothing.

ghost use Rattle.std.specs.Prelude.{◌≢◌, ℕ, List, Option};
ghost use Rattle.vf_base.specs.declared.run.Outcome.{Outcome};
ghost use Rattle.vf_report.specs.Tested.{Tested};
ghost use Rattle.vf_report.specs.Totals.{Totals, summary_of};
ghost use Rattle.vf_report.specs.Texts.{first_difference, test_text, summary_text};
ghost use Rattle.vf_report.specs.Laws.{HasNoNewline, IsLine, IsFirstDifference, AddsUp, TellsJournals};
ghost use Rattle.vf_plan.specs.declared.plan.Node.{Node};
ghost use Rattle.vf_plan.specs.Rules.{IsPlan};

/// Each line ends with a newline and has no other one, provided that the name of a test has none.
pub fn lines_are_lines()
    ensures tests { (name : List ℕ) (expectation : Option (List ℕ)) (outcome : Option Outcome) → HasNoNewline name
        → IsLine (test_text name expectation outcome) }
    ensures summary { (totals : Totals) → IsLine (summary_text totals) }
{}

/// The first difference of two unequal texts is the least place at which they differ or one of them
/// has ended.
pub fn differences_are_first()
    ensures { (expected bytes : List ℕ) → expected ≢ bytes → IsFirstDifference expected bytes (first_difference expected bytes) }
{}

/// The counts of a summary add up, and only tests with an expectation are met or failed.
pub fn summaries_add_up()
    ensures { (tests : List Tested) → AddsUp tests (summary_of tests) }
{}

/// Different journals of farms that run one plan have different texts.
pub fn texts_tell_journals()
    ensures { (plan : List Node) → IsPlan plan → TellsJournals plan }
{}
