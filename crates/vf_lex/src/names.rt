//! Names after directives, and the blanks before them.

ghost use Rattle.std.specs.Prelude.{◌≡◌, ◌≤◌, length};
ghost use Rattle.vf_lex.specs.Names.{name_of, after_name, after_blanks, after_line_blanks, in_class};

use vf_lexeme::name;
use vf_number::{ByteClass, is_blank};

/// The plain name at the front, empty where none begins the bytes, and the bytes after it.
pub(crate) fn split_name<'a>(bytes: &'a [u8]) -> (&'a [u8], &'a [u8])
    ensures name { result.0.now ≡ name_of bytes.now }
    ensures rest { result.1.now ≡ after_name bytes.now }
    ensures within { length result.1.now ≤ length bytes.now }
{
    name(bytes)
}

/// A class of bytes that may stand before a name.
#[derive(Clone, Copy, Debug, PartialEq, Eq)]
pub(crate) enum Class {
    /// Blanks (clause 3.2).
    Blank,
    /// Blanks that do not end the line.
    LineBlank,
}

impl ByteClass for Class {
    ghost holds = { in_class };

    fn contains(self, byte: u8) -> bool {
        match self {
            Class::Blank => is_blank(byte),
            Class::LineBlank => is_blank(byte) && byte != b'\n',
        }
    }
}

/// The bytes after the blanks at the front.
pub(crate) fn after_blanks(bytes: &[u8]) -> &[u8]
    ensures rest { result.now ≡ after_blanks bytes.now }
    ensures within { length result.now ≤ length bytes.now }
{
    Class::Blank.skip(bytes)
}

/// The bytes after the blanks at the front that stand on this line.
pub(crate) fn after_line_blanks(bytes: &[u8]) -> &[u8]
    ensures rest { result.now ≡ after_line_blanks bytes.now }
    ensures within { length result.now ≤ length bytes.now }
{
    Class::LineBlank.skip(bytes)
}
