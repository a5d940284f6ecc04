//! Where a text is read.

ghost use Rattle.std.specs.Prelude.{◌≡◌, ◌+◌, ◌<◌, ◌^◌, length};
ghost use Rattle.vf_lex.specs.Places.{place_after, moved_place, moved, nested};

use vf_base::Place;

/// A place of the design's own text, or the place of a use of a macro in whose text it is read.
#[derive(Clone, Copy, Debug, PartialEq, Eq)]
pub(crate) struct Spot {
    pub(crate) place: Place,
    /// How many uses of macros nest here, at most 16; 0 in the design's own text.
    pub(crate) depth: u32,
}

fn place_after(place: Place, byte: u8) -> Place
    requires { (place.line + 1 < 2 ^ 32) × (place.column + 1 < 2 ^ 32) }
    ensures { result ≡ place_after place byte }
{
    if byte == b'\n' {
        return Place {
            line: place.line + 1,
            column: 1,
        };
    }
    Place {
        line: place.line,
        column: place.column + 1,
    }
}

fn moved_place(place: Place, bytes: &[u8]) -> Place
    requires { (place.line + length bytes.now < 2 ^ 32) × (place.column + length bytes.now < 2 ^ 32) }
    ensures { result ≡ moved_place place bytes.now }
{
    let mut place = place;
    for byte in bytes {
        place = place_after(place, *byte);
    }
    place
}

impl Spot {
    /// Where the text is read after bytes.
    #[tactic(auto, unfolding(crate::specs::Places::moved))]
    pub(crate) fn moved(self, bytes: &[u8]) -> Spot
        requires { self.depth ≡ 0 →
            (self.place.line + length bytes.now < 2 ^ 32) × (self.place.column + length bytes.now < 2 ^ 32) }
        ensures { result ≡ moved self bytes.now }
    {
        if self.depth == 0 {
            return Spot {
                place: moved_place(self.place, bytes),
                depth: 0,
            };
        }
        self
    }

    /// In the text of a macro that is used here.
    pub(crate) fn nested(self) -> Spot
        requires { self.depth < 16 }
        ensures { result ≡ nested self }
    {
        Spot {
            place: self.place,
            depth: self.depth + 1,
        }
    }
}
