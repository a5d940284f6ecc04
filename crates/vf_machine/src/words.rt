ghost use Rattle.std.specs.Prelude.{◌≡◌, ◌<◌, ℕ, Bool, List, length, slice_index};

/// The words of a state, however they are kept.
pub trait Words {
    /// The words, in order.
    ghost contents: { Self → List ℕ };

    /// Whether a read of the stimulus has gone past its end.
    ghost past_end: { Self → Bool };

    /// The word at an address.
    fn read(&self, at: u32) -> u64
        requires { at < length (contents self.now) }
        ensures { result ≡ slice_index (contents self.now) at };

    /// Whether a read of the stimulus has given -1.
    fn past_end(&self) -> bool
        ensures { result ≡ past_end self.now };
}
