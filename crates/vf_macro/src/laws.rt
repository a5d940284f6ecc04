//! Laws of macro texts, each the contract of a function that does nothing.

ghost use Rattle.vf_macro.specs.Laws.{MacroTextsOnce, MacroTextsSome};

use vf_lexeme::laws::{passes_once, passes_some};

/// Bytes begin with at most one macro text and rest.
pub fn macro_texts_once()
    ensures { MacroTextsOnce }
{
    passes_once();
}

/// All bytes begin with a macro text.
pub fn macro_texts_some()
    ensures { MacroTextsSome }
{
    passes_some();
}
