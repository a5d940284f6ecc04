//! Laws of statements, each the contract of a function that does nothing.

ghost use Rattle.vf_statement.specs.Grammar.{StatementsAreOne};
ghost use Rattle.vf_statement.specs.Reading.{ReadingsAreStatements};

/// Tokens are at most one statement.
pub fn statements_are_one()
    ensures { StatementsAreOne }
{}

/// What `stmt` reads is a statement, which no `else` follows that would belong to it; and each such statement is read.
pub fn readings_are_statements()
    ensures { ReadingsAreStatements }
{}
