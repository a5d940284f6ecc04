//! The first byte of a text, and runs of bytes of one class at its front.

ghost use Rattle.std.specs.Prelude.{◌≡◌, ◌≤◌, ℕ, Bool, ◌++◌, length, take_while};
ghost use Rattle.vf_number.specs.Runs.{run, after_run, begins_with};

/// Whether a text begins with a byte.
pub fn begins_with(byte: u8, text: &[u8]) -> bool
    ensures { result ≡ begins_with byte text.now }
{
    match text {
        [first, ..] => *first == byte,
        [] => false,
    }
}

/// A class of bytes of which runs are read.
pub trait ByteClass: Copy {
    /// The bytes of the class.
    ghost holds: { Self → ℕ → Bool };

    /// Whether a byte is of the class.
    fn contains(self, byte: u8) -> bool
        ensures { result ≡ holds self byte };

    /// How long the longest run of bytes of the class at the front of a text is.
    final fn run_length(self, text: &[u8]) -> usize
        ensures { result ≡ length (take_while (holds self) text.now) }
    {
        text.iter().take_while(|byte| self.contains(**byte)).count()
    }

    /// The longest run of bytes of the class at the front of a text, and the bytes after it.
    final fn split<'a>(self, text: &'a [u8]) -> (&'a [u8], &'a [u8])
        ensures front { result.0.now ≡ run (holds self) text.now }
        ensures rest { result.1.now ≡ after_run (holds self) text.now }
        ensures whole { text.now ≡ result.0.now ++ result.1.now }
    {
        text.split_at(self.run_length(text))
    }

    /// The bytes after the longest run of bytes of the class at the front of a text.
    final fn skip<'a>(self, text: &'a [u8]) -> &'a [u8]
        ensures rest { result.now ≡ after_run (holds self) text.now }
        ensures within { length result.now ≤ length text.now }
    {
        let (_, rest) = self.split(text);
        rest
    }
}
