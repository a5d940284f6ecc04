//! The laws of a run, each the contract of a function that does nothing. A type parameter stands for
//! the states, so each law is of every machine.

ghost use Rattle.std.specs.Prelude.{◌≡◌, ℕ, true, List};
ghost use Rattle.vf_base.specs.declared.run.Limits.{Limits};
ghost use Rattle.vf_machine.specs.Machine.{Machine};
ghost use Rattle.vf_machine.specs.Run.{mark_at, is_ending};
ghost use Rattle.vf_machine.specs.Laws.{PrefixLaw, RunEnds, EndingIsStill, ChangedPages, TouchedPagesGrow};

/// Two runs are the same as long as they have read only what their stimuli have in common and no limit
/// has ended one of them.
pub fn prefix_law<S>()
    ensures { (m : Machine S) → PrefixLaw m }
{}

/// Every run ends, at the latest by its limit on turns.
pub fn run_ends<S>()
    ensures { (m : Machine S) (stim : List ℕ) (limits : Limits) → RunEnds m stim limits }
{}

/// An ending changes no state and writes nothing.
pub fn ending_is_still<S>()
    ensures { (m : Machine S) (stim : List ℕ) (limits : Limits) (k : ℕ) → is_ending (mark_at m stim limits k) ≡ true → EndingIsStill m stim limits k }
{}

/// The pages on which two lists of words differ are those of the writes from one to the other.
pub fn changed_pages()
    ensures { ChangedPages }
{}

/// A run that goes on never has fewer touched pages.
pub fn touched_pages_grow<S>()
    ensures { (m : Machine S) → TouchedPagesGrow m }
{}
