//! What is known where a text is read on.

ghost use Rattle.std.specs.Prelude.{◌≡◌, ◌+◌, ◌^◌, ◌++◌, ◌∷◌, [], ◌<◌, length, Option, Some, None, is_some, option_map, IfOk, OnOk, IfErr};
ghost use Rattle.vf_lex.specs.Around.{Around, nothing_yet, is_taken, is_defined, with_macro, with_conditions, with_use};
ghost use Rattle.std.specs.Option.{MatchOption};
ghost use Rattle.vf_lex.specs.Answers.{Finishes};
ghost use Rattle.vf_lex.specs.Inner.{around};

use crate::{LexFault, LexKind, Token};
use indexmap::IndexMap;
use std::alloc::Global;
use vf_base::{Memory, Place};
use vf_lexeme::TokenKind;

/// An open condition, from its `ifdef` or `ifndef` to its `endif`.
#[derive(Clone, Copy, Debug, PartialEq, Eq)]
pub(crate) struct Condition {
    /// The place of its `ifdef` or `ifndef`.
    pub(crate) place: Place,
    /// Whether the text of its branch is taken.
    pub(crate) taken: bool,
    /// Whether a branch of it was taken, or none can be since the text around it is not taken.
    pub(crate) settled: bool,
    /// Whether its `else` has stood.
    pub(crate) closed: bool,
}

/// The macros, the open conditions, the outermost first, the tokens so far, and how many bytes of the texts of macros were
/// read. A macro that was taken away has no text.
#[derive(Drop)]
pub(crate) struct Reader {
    pub(crate) macros: IndexMap<Vec<u8>, Option<Vec<u8>>>,
    pub(crate) conditions: Vec<Condition>,
    pub(crate) tokens: Vec<Token>,
    pub(crate) macro_bytes: usize,
}

impl Reader {
    #[tactic(auto, unfolding(crate::specs::Inner::around))]
    pub(crate) fn new(alloc: Global) -> Reader
        ensures { around result ≡ nothing_yet }
    {
        Reader {
            macros: IndexMap::new(alloc),
            conditions: Vec::new(alloc),
            tokens: Vec::new(alloc),
            macro_bytes: 0,
        }
    }

    /// Whether the text is taken.
    #[tactic(auto, unfolding(crate::specs::Inner::around))]
    pub(crate) fn is_taken(&self) -> bool
        ensures { result ≡ is_taken (around self.now).conditions }
    {
        match self.conditions.last() {
            Some(condition) => condition.taken,
            None => true,
        }
    }

    /// The text of the macro of that name.
    #[tactic(auto, unfolding(crate::specs::Inner::around))]
    pub(crate) fn find(&self, name: &[u8]) -> Option<&[u8]>
        ensures { option_map (λ text. text.now) result ≡ (around self.now).macros name.now }
    {
        match self.macros.get(name) {
            Some(Some(text)) => Some(text.as_slice()),
            Some(None) => None,
            None => None,
        }
    }

    pub(crate) fn is_defined(&self, name: &[u8]) -> bool
        ensures { result ≡ is_defined (around self.now) name.now }
    {
        self.find(name).is_some()
    }

    /// Defines a macro, or takes it away.
    #[tactic(auto, unfolding(crate::specs::Inner::around))]
    pub(crate) fn define(
        &mut self,
        alloc: Global,
        name: &[u8],
        text: Option<Vec<u8>>,
    ) -> Result<(), Memory>
        ensures { OnOk result (around self.new ≡ with_macro (around self.old) name.now (option_map (λ text. text.items) text)) }
    {
        self.macros.insert(Vec::from_slice(alloc, name)?, text)?;
        Ok(())
    }

    /// Opens a condition in those that are open.
    #[tactic(auto, unfolding(crate::specs::Inner::around))]
    pub(crate) fn open(&mut self, condition: Condition) -> Result<(), Memory>
        ensures { OnOk result (around self.new ≡ with_conditions (around self.old) (condition ∷ (around self.old).conditions)) }
    {
        self.conditions.push(condition)?;
        Ok(())
    }

    /// Takes the innermost open condition away.
    #[tactic(auto, unfolding(crate::specs::Inner::around))]
    pub(crate) fn close(&mut self) -> Option<Condition>
        ensures { MatchOption result ((around self.old).conditions ≡ [])
            (λ condition. around self.old ≡ with_conditions (around self.new) (condition ∷ (around self.new).conditions)) }
    {
        self.conditions.pop()
    }

    /// How many tokens there are.
    #[tactic(auto, unfolding(crate::specs::Inner::around))]
    pub(crate) fn len(&self) -> usize
        ensures { result ≡ length (around self.now).tokens }
    {
        self.tokens.len()
    }

    /// Appends a token.
    #[tactic(auto, unfolding(crate::specs::Inner::around))]
    pub(crate) fn push(&mut self, token: Token) -> Result<(), Memory>
        ensures { OnOk result (around self.new ≡ record (around self.old) { tokens = (around self.old).tokens ++ token ∷ [] }) }
    {
        self.tokens.push(token)?;
        Ok(())
    }

    /// How many bytes of the texts of macros were read.
    #[tactic(auto, unfolding(crate::specs::Inner::around))]
    pub(crate) fn macro_bytes(&self) -> usize
        ensures { result ≡ (around self.now).macro_bytes }
    {
        self.macro_bytes
    }

    /// Counts the text of a macro that is read next.
    #[tactic(auto, unfolding(crate::specs::Inner::around))]
    pub(crate) fn count(&mut self, body: &[u8])
        requires { (around self.old).macro_bytes + length body.now < 2 ^ 64 }
        ensures { around self.new ≡ with_use (around self.old) body.now }
    {
        self.macro_bytes += body.len();
    }

    /// The tokens, if no condition is open.
    #[tactic(auto, unfolding(crate::specs::Inner::around))]
    pub(crate) fn finish(self) -> Result<Vec<Token>, LexFault>
        ensures { Finishes (λ tokens. tokens.items) result (around self) }
    {
        match self.conditions.as_slice() {
            [outermost, ..] => Err(LexFault {
                kind: LexKind::BadCondition,
                place: outermost.place,
            }),
            [] => Ok(self.tokens),
        }
    }
}
