//! Laws of the parts of statements, each the contract of a function that does nothing.

ghost use Rattle.std.specs.Prelude.{ℕ};
ghost use Rattle.vf_control.specs.Reading.{ReadingsAreControls};

/// What the functions of this crate read is a tree of the grammar, and each is read where no token follows that would go on with
/// it.
pub fn readings_are_controls()
    ensures { (d : ℕ) → ReadingsAreControls d }
{}
