//! The classes of bytes of which names, escaped names and comments of one line are made.

ghost use Rattle.std.specs.Prelude.{◌≡◌};
ghost use Rattle.vf_lexeme.specs.Bytes.{is_letter, begins_name, is_name_byte};
ghost use Rattle.vf_lexeme.specs.Reading.{in_class};

use vf_number::{ByteClass, is_blank, is_digit};

fn is_letter(byte: u8) -> bool
    ensures { result ≡ is_letter byte }
{
    byte.is_ascii_alphabetic()
}

/// Whether a byte begins a plain name.
pub(crate) fn begins_name(byte: u8) -> bool
    ensures { result ≡ begins_name byte }
{
    is_letter(byte) || byte == b'_'
}

/// Whether a byte may stand in a plain name.
fn is_name_byte(byte: u8) -> bool
    ensures { result ≡ is_name_byte byte }
{
    is_letter(byte) || is_digit(byte) || byte == b'_' || byte == b'$'
}

/// A class of bytes of which names and comments are made.
#[derive(Clone, Copy, Debug, PartialEq, Eq)]
pub(crate) enum Class {
    /// What may stand in an escaped name: anything but a blank (clause 3.7.1).
    NoBlank,
    /// What may stand in a comment of one line: anything but a newline (clause 3.3).
    Line,
    /// What may stand in a plain name (clause 3.7).
    Name,
}

impl ByteClass for Class {
    ghost holds = { in_class };

    fn contains(self, byte: u8) -> bool {
        match self {
            Class::NoBlank => !is_blank(byte),
            Class::Line => byte != b'\n',
            Class::Name => is_name_byte(byte),
        }
    }
}
