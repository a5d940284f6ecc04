ghost use Rattle.std.specs.Prelude.{◌≡◌, ◌*◌, length, vec_len};
ghost use Rattle.vf_base.specs.declared.write.TheConstants.{PAGE_WORDS};
ghost use Rattle.vf_machine.specs.Writes.{AllInside, written};
ghost use Rattle.vf_solo.specs.Flags.{marked};

use crate::touched::Touched;
use vf_base::{PAGE_WORDS, Write};
use vf_design::Words;

/// All words of a state in one list.
#[derive(Drop)]
pub struct Flat {
    pub words: Vec<u64>,
    /// Whether a read of the stimulus has gone past its end.
    pub past_end: bool,
}

impl Words for Flat {
    ghost contents = { λ flat. flat.words.items };

    ghost past_end = { λ flat. flat.past_end };

    fn read(&self, at: u32) -> u64 {
        self.words[at as usize]
    }

    fn past_end(&self) -> bool {
        self.past_end
    }
}

/// Performs the writes of a turn, and marks their pages as touched.
pub fn write_all(writes: &[Write], words: &mut Vec<u64>, touched: &mut Touched)
    requires words { AllInside (vec_len words.old) writes.now }
    requires pages { AllInside (PAGE_WORDS * length touched.old) writes.now }
    ensures words { words.new.items ≡ written words.old.items writes.now }
    ensures pages { touched.new ≡ marked touched.old writes.now }
{
    for write in writes {
        words[write.at as usize] = write.word;
        touched.mark(write.at / PAGE_WORDS);
    }
}
