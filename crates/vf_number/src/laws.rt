//! Laws of numbers, each the contract of a function that does nothing.

ghost use Rattle.vf_number.specs.Laws.{NumbersOnce, NumbersSome, NumbersTake};

/// At most one number or fault stands at the front of a text.
pub fn numbers_once()
    ensures { NumbersOnce }
{}

/// A number, or its fault, stands at the front of every text where one begins, and of no other.
pub fn numbers_some()
    ensures { NumbersSome }
{}

/// A number takes at least one byte, and leaves what follows it.
pub fn numbers_take()
    ensures { NumbersTake }
{}
