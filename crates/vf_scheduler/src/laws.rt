//! The laws of the scheduler, each the contract of a function that does nothing.

ghost use Rattle.vf_scheduler.specs.Laws.{StartIsSound, StepIsSound, WordsTellTheState, ReadsGoOn};

/// Time zero of a well-formed design is sound.
pub fn start_is_sound()
    ensures { StartIsSound }
{}

/// A turn keeps a state of a well-formed design sound, whatever it reads: it goes on to a sound state, or it ends the run and changes
/// no state.
pub fn step_is_sound()
    ensures { StepIsSound }
{}

/// Two sound states of a well-formed design whose words are equal are equal.
pub fn words_tell_the_state()
    ensures { WordsTellTheState }
{}

/// A turn that reads the stimulus never ends the run by itself: an event is left, and the turn goes on.
pub fn reads_go_on()
    ensures { ReadsGoOn }
{}
