//! Laws of lexemes, each the contract of a function that does nothing.

ghost use Rattle.vf_lexeme.specs.Laws.{BeginsOnce, BeginsSome, BeginsTakes, NamesOnce, PassesOnce, PassesSome, PassesTakes};

/// At most one thing stands at the front of a text that is taken.
pub fn begins_once()
    ensures { BeginsOnce }
{}

/// A lexeme or a fault stands at the front of every text that is taken and not empty.
pub fn begins_some()
    ensures { BeginsSome }
{}

/// A lexeme takes at least one byte, and leaves what follows it.
pub fn begins_takes()
    ensures { BeginsTakes }
{}

/// At most one thing stands at the front of a text that is not taken.
pub fn passes_once()
    ensures { PassesOnce }
{}

/// Something or a fault stands at the front of every text that is not taken and not empty.
pub fn passes_some()
    ensures { PassesSome }
{}

/// What is passed over takes at least one byte, and leaves what follows it.
pub fn passes_takes()
    ensures { PassesTakes }
{}

/// At most one plain name stands at the front of a text.
pub fn names_once()
    ensures { NamesOnce }
{}
