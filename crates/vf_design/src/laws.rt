//! The laws of the machine of a design, each the contract of a function that does nothing.

ghost use Rattle.vf_design.specs.Laws.{RunsAreSound, WordsTellTheState, WordsAreLaidOut, ReadsGoOn};

/// Every state of a run is sound.
pub fn runs_are_sound()
    ensures { RunsAreSound }
{}

/// Sound states with equal words are equal, so the words tell the state.
pub fn words_tell_the_state()
    ensures { WordsTellTheState }
{}

/// Each word of a sound state stands at the address that the layout names.
pub fn words_are_laid_out()
    ensures { WordsAreLaidOut }
{}

/// A turn that reads the stimulus never ends the run by itself: an event is left, and the turn goes on.
pub fn reads_go_on()
    ensures { ReadsGoOn }
{}
