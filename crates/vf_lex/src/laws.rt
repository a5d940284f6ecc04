//! Laws of tokens, each the contract of a function that does nothing.

ghost use Rattle.vf_lex.specs.Tokens.{TokensAreOne, TokensAreSome};

use vf_lexeme::laws::{
    begins_once, begins_some, begins_takes, passes_once, passes_some, passes_takes,
};
use vf_macro::laws::{macro_texts_once, macro_texts_some};

/// Bytes have at most one list of tokens, at most one first fault, and never both.
pub fn tokens_are_one()
    ensures { TokensAreOne }
{
    begins_once();
    passes_once();
    macro_texts_once();
}

/// Bytes have a list of tokens, or a first fault.
pub fn tokens_are_some()
    ensures { TokensAreSome }
{
    begins_some();
    begins_takes();
    passes_some();
    passes_takes();
    macro_texts_some();
}
