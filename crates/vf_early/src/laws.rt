//! Laws of the grammar, each the contract of a function that does nothing.

ghost use Rattle.std.specs.Prelude.{◌≡◌, ℕ, List};
ghost use Rattle.vf_design.specs.Program.{Program};
ghost use Rattle.vf_early.specs.Early.{IsEarly};

/// Bytes spell at most one program.
pub fn one_program()
    ensures { (bytes : List ℕ) (slots : ℕ) (one other : Program) → IsEarly bytes slots one → IsEarly bytes slots other → one ≡ other }
{}
