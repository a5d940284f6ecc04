ghost use Rattle.std.specs.Prelude.{◌≡◌, ◌+◌, ◌<◌, ◌≤◌, ◌++◌, [], ◌∷◌, length, vec_len, vec_capacity};
ghost use Rattle.vf_machine.specs.Writes.{AllInside};
ghost use Rattle.vf_patch.specs.declared.front.TheConstants.{FRONT_WORDS};
ghost use Rattle.vf_patch.specs.Patches.{changes, front_writes};

use vf_base::Write;
use vf_machine::Words;

/// How many words at the front of a state have a place of their own in a patch.
pub const FRONT_WORDS: u32 = 16;

// Appends a write, for which there is room, unless the word at its address is equal.
fn tell<W: Words>(base: &W, at: u32, word: u64, into: &mut Vec<Write>)
    requires inside { at < length (W.contents base.now) }
    requires room { vec_len into.old < vec_capacity into.old }
    ensures told { into.new.items
        ≡ into.old.items ++ changes (W.contents base.now) (record { at = at; word = word } ∷ []) }
    ensures most { vec_len into.new ≤ vec_len into.old + 1 }
    ensures capacity { vec_capacity into.new ≡ vec_capacity into.old }
{
    if base.read(at) != word {
        into.push_reserved(Write { at, word });
    }
}

/// Appends those of the marked words that are not equal to the words at their addresses.
pub(crate) fn tell_marked<W: Words>(base: &W, mask: u16, words: &[u64; 16], into: &mut Vec<Write>)
    requires inside { AllInside (length (W.contents base.now)) (front_writes mask words.now) }
    requires room { vec_len into.old + FRONT_WORDS ≤ vec_capacity into.old }
    ensures told { into.new.items
        ≡ into.old.items ++ changes (W.contents base.now) (front_writes mask words.now) }
    ensures most { vec_len into.new ≤ vec_len into.old + FRONT_WORDS }
    ensures capacity { vec_capacity into.new ≡ vec_capacity into.old }
{
    let mut left = mask;
    while left != 0 {
        let at = left.trailing_zeros();
        tell(base, at, words[at as usize], into);
        left &= !(1 << at);
    }
}

/// Appends those of the writes that change a word.
pub(crate) fn tell_all<W: Words>(base: &W, writes: &[Write], into: &mut Vec<Write>)
    requires inside { AllInside (length (W.contents base.now)) writes.now }
    requires room { vec_len into.old + length writes.now ≤ vec_capacity into.old }
    ensures { into.new.items ≡ into.old.items ++ changes (W.contents base.now) writes.now }
{
    for write in writes {
        tell(base, write.at, write.word, into);
    }
}
