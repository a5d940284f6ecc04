//! The laws of elaborated designs, each the contract of a function that does nothing.

ghost use Rattle.vf_elaborated.specs.Laws.{NodesTell, ValuesHaveTheirShapes};

/// What an expression is worth, which signals it reads, and its width and mark follow from its node by those of its parts.
pub fn nodes_tell()
    ensures { NodesTell }
{}

/// Where each signal's elements have its bits, an expression's value has the expression's width and mark.
pub fn values_have_their_shapes()
    ensures { ValuesHaveTheirShapes }
{}
