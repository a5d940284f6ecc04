//! Laws of designs, each the contract of a function that does nothing.

ghost use Rattle.vf_parse.specs.Parsing.{TreesAreOne};

/// Tokens are at most one design.
pub fn trees_are_one()
    ensures { TreesAreOne }
{}
