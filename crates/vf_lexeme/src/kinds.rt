//! What stands at the front of a text, or why nothing does.

ghost use Rattle.std.specs.Prelude.{◌≡◌};
ghost use Rattle.vf_lexeme.specs.declared.kinds.LexemeFault.TheVariants as faults;
ghost use Rattle.vf_lexeme.specs.Lexemes.{of_number};

use std::alloc::{AllocError, AllocFailed};
use thiserror::Error;
use vf_base::{Memory, Text};
use vf_fours::Fours;
use vf_number::NumberFault;

/// What a token is.
#[derive(Debug, Drop)]
pub enum TokenKind {
    /// A plain name that is not a reserved word, or an escaped name without its `\` (clause 3.7).
    Name(Text),
    /// The name of a system task or function, with its `$` (clause 3.7.3).
    System(Text),
    /// A plain name that is a word of the grammar or a word that the language leaves out (clause 3.7.2).
    Word(Text),
    /// A number of 1 to 128 bits (clause 3.5).
    Number(Fours),
    /// A string: the bytes that it stands for (clause 3.6).
    Quoted(Text),
    /// An operator or another sign (clause 3.4).
    Sign(Text),
}

/// What stands at the front of a text that is taken.
#[derive(Debug, Drop)]
pub enum Lexeme {
    /// One blank, or one whole comment or attribute, which is not a token.
    Blank,
    /// A token.
    Token(TokenKind),
    /// The '`' of a directive or of a use of a macro; its name follows (clause 19).
    Directive,
}

/// Why no lexeme stands at the front of a text.
#[derive(Clone, Copy, Debug, PartialEq, Eq, Error)]
pub enum LexemeFault {
    /// A byte that begins no token, comment, attribute or directive.
    #[error("a byte that begins no token")]
    BadCharacter,
    /// A comment or an attribute that does not end.
    #[error("a comment or an attribute that does not end")]
    OpenComment,
    /// A string that does not end on its line.
    #[error("a string that does not end on its line")]
    OpenString,
    /// A `'` that no base and digit follow, a size of 0, a decimal above 2^128 - 1, or a plain number above 2^32 - 1.
    #[error("a bad number")]
    BadNumber,
    /// A size above 128 bits, of a number that is not a [`LexemeFault::BadNumber`].
    #[error("a number of more than 128 bits")]
    TooWide,
    /// Out of memory, which may come at any text.
    #[error("out of memory")]
    Memory,
}

/// What stands at the front of a text that is not taken, in a branch of a condition that does not count.
#[derive(Clone, Copy, Debug, PartialEq, Eq)]
pub enum Passed {
    /// A whole comment, attribute, string or escaped name, or one other byte.
    Text,
    /// The '`' of a directive; its name follows (clause 19).
    Directive,
}

/// What does not end at the front of a text that is not taken.
#[derive(Clone, Copy, Debug, PartialEq, Eq, Error)]
pub enum OpenFault {
    /// A comment or an attribute that does not end.
    #[error("a comment or an attribute that does not end")]
    Comment,
    /// A string that does not end on its line.
    #[error("a string that does not end on its line")]
    String,
}

impl From<AllocError> for LexemeFault {
    ghost from_gives = { λ _ fault. fault ≡ faults.Memory };

    fn from(_error: AllocError) -> LexemeFault {
        LexemeFault::Memory
    }
}

impl<T: Drop> From<AllocFailed<T>> for LexemeFault {
    ghost from_gives = { λ _ fault. fault ≡ faults.Memory };

    fn from(_error: AllocFailed<T>) -> LexemeFault {
        LexemeFault::Memory
    }
}

impl From<Memory> for LexemeFault {
    ghost from_gives = { λ _ fault. fault ≡ faults.Memory };

    fn from(_error: Memory) -> LexemeFault {
        LexemeFault::Memory
    }
}

impl From<NumberFault> for LexemeFault {
    ghost from_gives = { λ number fault. fault ≡ of_number number };

    fn from(fault: NumberFault) -> LexemeFault {
        match fault {
            NumberFault::BadNumber => LexemeFault::BadNumber,
            NumberFault::TooWide => LexemeFault::TooWide,
        }
    }
}
