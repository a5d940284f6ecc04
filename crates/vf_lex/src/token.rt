use vf_base::Place;
use vf_lexeme::TokenKind;

/// A token and its place: that of its first byte, or of the outermost use of the macro that it comes from.
#[derive(Debug, Drop)]
pub struct Token {
    pub kind: TokenKind,
    pub place: Place,
}
