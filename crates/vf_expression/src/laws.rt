//! Laws of expressions, each the contract of a function that does nothing.

ghost use Rattle.vf_expression.specs.Grammar.{ExpressionsAreOne};
ghost use Rattle.vf_expression.specs.Reading.{ReadingsAreExpressions};

/// Tokens are at most one expression.
pub fn expressions_are_one()
    ensures { ExpressionsAreOne }
{}

/// What `expr` reads is an expression, and each expression is read where no token follows that would go on with it.
pub fn readings_are_expressions()
    ensures { ReadingsAreExpressions }
{}
