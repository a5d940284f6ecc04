use thiserror::Error;
use vf_base::Place;

/// Why tokens are no design.
#[derive(Clone, Copy, Debug, PartialEq, Eq, Error)]
pub enum ParseKind {
    /// No tree fits the tokens.
    #[error("an unexpected token")]
    Unexpected = 1,
    /// A word, a sign or a system name that the language leaves out.
    #[error("a word that the language leaves out")]
    LeftOut = 2,
    /// More than 200 brackets and blocks are open at a token.
    #[error("brackets and blocks nested too deep")]
    TooDeep = 3,
    /// Out of memory, which may come at any tokens.
    #[error("out of memory")]
    Memory = 4,
}

/// Why tokens are no design, and where: at the first token that is left out, at the first at which too many brackets and blocks are open, or at the
/// one at which it was seen that no tree fits. Where there is no token at all it is the start of the text, and where the tokens end too early the last
/// one.
#[derive(Clone, Copy, Debug, PartialEq, Eq, Error)]
#[error("{kind} at {line}:{column}", line = .place.line, column = .place.column)]
pub struct ParseFault {
    pub kind: ParseKind,
    pub place: Place,
}
