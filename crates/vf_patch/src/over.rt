ghost use Rattle.vf_machine.specs.Writes.{written};

use crate::patch::Patch;
use vf_machine::Words;

/// The words of a state under what a turn has written so far.
#[derive(Drop)]
pub struct Over<'a, W: Words> {
    /// The words of the state when the turn began.
    pub base: &'a W,
    /// What the turn has written.
    pub patch: &'a Patch,
}

impl<'a, W: Words> Words for Over<'a, W> {
    ghost contents = { λ over. written (W.contents over.base.now) over.patch.now };

    ghost past_end = { λ over. W.past_end over.base.now };

    fn read(&self, at: u32) -> u64 {
        self.patch.read(self.base, at)
    }

    fn past_end(&self) -> bool {
        self.base.past_end()
    }
}
