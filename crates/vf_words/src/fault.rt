ghost use Rattle.std.specs.Prelude.{◌≡◌};
ghost use Rattle.vf_words.specs.declared.fault.WordFault.TheVariants as faults;

use std::alloc::{AllocError, AllocFailed};
use thiserror::Error;
use vf_base::{Memory, Text};

/// Why the words of a command line are refused. They are looked for in this order, and their numbers
/// in a fault line are 1 to 5.
#[derive(Debug, Drop, Error)]
pub enum WordFault {
    /// The words are not options, each at most once and with its value, and names of files: an
    /// unknown option, a missing value, an option that stands twice, or help asked for after the
    /// first word.
    #[error("the words are not options with their values and names of files")]
    Refused,
    /// The value of this option, which is told with its dashes, is not a word of its list, or not a
    /// decimal number in its range. It is the first such option in the order mode, workers, pages,
    /// turns, output, slots, evict, number.
    #[error("the value of an option is out of its range")]
    Range(Text),
    /// There are not exactly two files; in mode make, there is one.
    #[error("the files are not a design and a plan")]
    Files,
    /// Mode solo names no test, or another mode names one.
    #[error("mode solo, and no other, names what it runs")]
    Test,
    /// Memory ran out. It may come at any words.
    #[error("out of memory")]
    Memory,
}

impl From<AllocError> for WordFault {
    ghost from_gives = { λ _ fault. fault ≡ faults.Memory };

    fn from(_error: AllocError) -> WordFault {
        WordFault::Memory
    }
}

impl<T: Drop> From<AllocFailed<T>> for WordFault {
    ghost from_gives = { λ _ fault. fault ≡ faults.Memory };

    fn from(_error: AllocFailed<T>) -> WordFault {
        WordFault::Memory
    }
}

impl From<Memory> for WordFault {
    ghost from_gives = { λ _ fault. fault ≡ faults.Memory };

    fn from(_error: Memory) -> WordFault {
        WordFault::Memory
    }
}
