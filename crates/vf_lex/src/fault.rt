ghost use Rattle.std.specs.Prelude.{◌≡◌};
ghost use Rattle.vf_lex.specs.declared.fault.LexKind.TheVariants as kinds;

use std::alloc::{AllocError, AllocFailed};
use thiserror::Error;
use vf_base::{Memory, Place};

/// Why a text has no tokens. Of two faults at one place the one with the smaller number counts.
#[derive(Clone, Copy, Debug, PartialEq, Eq, Error)]
pub enum LexKind {
    /// A byte that begins no token.
    #[error("a byte that begins no token")]
    BadCharacter = 1,
    /// A comment or an attribute that does not end.
    #[error("a comment or an attribute that does not end")]
    OpenComment = 2,
    /// A string that does not end on its line (clause 3.6).
    #[error("a string that does not end on its line")]
    OpenString = 3,
    /// A number with a bad base, digit or size, or one that is too large (clause 3.5.1).
    #[error("a bad number")]
    BadNumber = 4,
    /// A size above 128 bits, of a number that is not a [`LexKind::BadNumber`].
    #[error("a number of more than 128 bits")]
    TooWide = 5,
    /// A directive that is neither one of the language's nor a macro that is defined, or a `define` or `undef` without a
    /// name (clause 19).
    #[error("an unknown directive")]
    UnknownDirective = 6,
    /// An `include`, or the definition of a macro with arguments (clauses 19.3.1 and 19.5).
    #[error("a directive that the language leaves out")]
    LeftOut = 7,
    /// A use of a macro at the seventeenth level.
    #[error("macros nested too deep")]
    MacroDepth = 8,
    /// A directive of a condition where none can stand, or without its name, or a condition without its `endif` (clause
    /// 19.4).
    #[error("a wrong condition")]
    BadCondition = 9,
    /// The token after the 2^20th, or a use of a macro that takes the bytes of macro texts read so far above 2^26.
    #[error("too many tokens or bytes of macros")]
    TooMany = 10,
    /// Out of memory, which may come at any text.
    #[error("out of memory")]
    Memory = 11,
}

/// Why a text has no tokens, and where: at the first byte of a token, comment or directive. A fault in the text of a macro has
/// the place of the outermost use.
#[derive(Clone, Copy, Debug, PartialEq, Eq, Error)]
#[error("{kind} at {line}:{column}", line = .place.line, column = .place.column)]
pub struct LexFault {
    pub kind: LexKind,
    pub place: Place,
}

impl From<AllocError> for LexKind {
    ghost from_gives = { λ _ kind. kind ≡ kinds.Memory };

    fn from(_error: AllocError) -> LexKind {
        LexKind::Memory
    }
}

impl<T: Drop> From<AllocFailed<T>> for LexKind {
    ghost from_gives = { λ _ kind. kind ≡ kinds.Memory };

    fn from(_error: AllocFailed<T>) -> LexKind {
        LexKind::Memory
    }
}

impl From<Memory> for LexKind {
    ghost from_gives = { λ _ kind. kind ≡ kinds.Memory };

    fn from(_error: Memory) -> LexKind {
        LexKind::Memory
    }
}
