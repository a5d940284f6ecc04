//! The laws of the words of a state, each the contract of a function that does nothing.

ghost use Rattle.vf_layout.specs.Laws.{WordsHoldTheValues, WordsStand, FrontIsWritten, ChangesAreWritten, RegionsAreWritten, RegionsMove, SoundIsWritten};

/// Where a state has as many processes as the design, and its values fit the signals, its words hold these values: an expression
/// reads in the words what it reads in the state.
pub fn words_hold_the_values()
    ensures { WordsHoldTheValues }
{}

/// Where a state has what its design names, each of its words stands at its address, and there are as many as the design says.
pub fn words_stand()
    ensures { WordsStand }
{}

/// A change of the time, of the running process, of the monitor or of whether it is due writes its one word, in any state.
pub fn front_is_written()
    ensures { FrontIsWritten }
{}

/// Where a state has what its design names, a change of one process, value, driver or slot writes its new words over the old ones.
pub fn changes_are_written()
    ensures { ChangesAreWritten }
{}

/// Where a state has what its design names, no event stands twice in its lists, and each event there has a link: an event that joins
/// a list, is taken from the front of one, or is put into the future writes the head, the tail and one or two links; and the link of an
/// event in a list leads to the next one.
pub fn regions_are_written()
    ensures { RegionsAreWritten }
{}

/// Where the active list is empty and the inactive list becomes it, or where both are and the nonblocking updates become it, the ends of
/// two lists are written and no link, in any state.
pub fn regions_move()
    ensures { RegionsMove }
{}

/// A sound state has what its design names, no event stands twice in its lists, and each event there has a link.
pub fn sound_is_written()
    ensures { SoundIsWritten }
{}
