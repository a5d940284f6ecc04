//! Comments and attributes, which are not tokens.

ghost use Rattle.std.specs.Prelude.{◌≡◌, ◌≤◌, length};
ghost use Rattle.std.specs.Option.{option_map};
ghost use Rattle.vf_lexeme.specs.Bytes.{after_line};
ghost use Rattle.vf_lexeme.specs.Reading.{opens_skip, after_close, after_first_close, after_skip};

use crate::classes::Class;
use vf_number::{ByteClass, begins_with};

/// The text from the end of its first line on.
pub fn after_line(text: &[u8]) -> &[u8]
    ensures rest { result.now ≡ after_line text.now }
    ensures within { length result.now ≤ length text.now }
{
    Class::Line.skip(text)
}

/// Whether a comment (clause 3.3) or an attribute (clause 3.8) begins the text.
#[tactic(auto, unfolding(crate::specs::Reading::opens_skip))]
pub(crate) fn opens_skip(text: &[u8]) -> bool
    ensures { result ≡ opens_skip text.now }
{
    match text {
        [] => false,
        [_] => false,
        [first, second, rest @ ..] => {
            if *first == b'/' {
                return *second == b'/' || *second == b'*';
            }
            if *first == b'(' && *second == b'*' {
                return !begins_with(b')', rest);
            }
            false
        }
    }
}

/// The bytes after a `*` and this byte, where the text begins with these two.
#[tactic(auto, unfolding(crate::specs::Reading::after_close))]
fn after_close(close: u8, text: &[u8]) -> Option<&[u8]>
    ensures { option_map (λ rest. rest.now) result ≡ after_close close text.now }
{
    match text {
        [] => None,
        [_] => None,
        [first, second, rest @ ..] => {
            if *first == b'*' && *second == close {
                return Some(rest);
            }
            None
        }
    }
}

/// The bytes after the first `*` with this byte after it.
fn after_first_close(close: u8, text: &[u8]) -> Option<&[u8]>
    ensures { option_map (λ rest. rest.now) result ≡ after_first_close close text.now }
{
    let mut rest = text;
    while let Some((_, more)) = rest.split_first() {
        if let Some(after) = after_close(close, rest) {
            return Some(after);
        }
        rest = more;
    }
    None
}

/// The bytes after the comment or attribute that begins the text; None where it does not end.
#[tactic(auto, unfolding(crate::specs::Reading::after_skip))]
pub(crate) fn after_skip(text: &[u8]) -> Option<&[u8]>
    ensures { option_map (λ rest. rest.now) result ≡ after_skip text.now }
{
    match text {
        [] => None,
        [_] => None,
        [first, second, rest @ ..] => {
            if *second == b'/' {
                return Some(after_line(rest));
            }
            if *first == b'/' {
                return after_first_close(b'/', rest);
            }
            after_first_close(b')', rest)
        }
    }
}
