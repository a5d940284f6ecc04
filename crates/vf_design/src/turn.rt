ghost use Rattle.std.specs.Prelude.{◌≡◌, []};

use std::alloc::Global;
use vf_base::{Header, Text, Write};
use vf_machine::Mark;

/// What one turn does to a state: new words by rising address, each different from the word there
/// before, the bytes that it writes, the header after it, and its mark. One `Turn` serves a whole run:
/// each turn fills it anew, and its lists keep their room.
#[derive(Debug, Drop)]
pub struct Turn {
    pub writes: Vec<Write>,
    pub text: Text,
    pub header: Header,
    pub mark: Mark,
}

impl Turn {
    /// A turn that does nothing, to be filled. It takes no memory.
    pub fn new(alloc: Global) -> Turn
        ensures writes { result.writes.items ≡ [] }
        ensures text { result.text ≡ [] }
    {
        Turn {
            writes: Vec::new(alloc),
            text: Text::new(Vec::new(alloc)),
            header: Header {
                turns: 0,
                reads: 0,
                written: 0,
            },
            mark: Mark::Plain,
        }
    }

    /// Empties the lists of writes and bytes, which keep their room.
    pub fn clear(&mut self)
        ensures writes { self.new.writes.items ≡ [] }
        ensures text { self.new.text ≡ [] }
    {
        self.writes.clear();
        self.text.truncate(0);
    }
}
