ghost use Rattle.std.specs.Prelude.{◌≡◌, ◌+◌, ◌^◌, ◌<◌, ◌≤◌, ◌++◌, ◌∷◌, [], length, is_none, option_copied, OnOk, OnErr};
ghost use Rattle.std.specs.Io.{StartsWith};
ghost use Rattle.vf_ports.specs.Counts.{Rose, raised};
ghost use Rattle.vf_ports.specs.Shelf.{CountsFault, ListsFailure, TakesOneMore, Fetches};
ghost use Rattle.vf_ports.specs.Files.{holding, read_next, FailsIf, after_fetch};

use crate::files::{append, find};
use crate::{Shelf, ShelfRefusal};
use std::alloc::Global;
use std::marker::Model;
use vf_base::{Memory, Text};

/// Files in memory, some of whose calls fail. It tells what its names hold and the names of its
/// failed calls.
#[derive(Drop)]
pub struct MemShelf {
    alloc: Global,
    entries: Vec<(Text, Text)>,
    failing: Vec<u64>,
    calls: u64,
    failed: Vec<Text>,
    faults: u64,
}

impl Model for MemShelf {
    ghost use Rattle.vf_ports.specs.Files.{Files};

    ghost Value = { Files };

    ghost view = { λ s. record {
      entries = s.entries.items;
      failing = s.failing.items;
      calls = s.calls;
      failed = s.failed.items;
      faults = s.faults;
    } };
}

impl MemShelf {
    /// A shelf of these files, each a name and its bytes; of several with one name the first counts.
    /// The calls whose numbers, from 1, are in `failing` fail, and so does each call with a name that
    /// is missing.
    pub fn new(alloc: Global, files: Vec<(Text, Text)>, failing: Vec<u64>) -> MemShelf
        ensures { result ≡ record { entries = files.items; failing = failing.items; calls = 0; failed = []; faults = 0 } }
    {
        MemShelf {
            alloc,
            entries: files,
            failing,
            calls: 0,
            failed: Vec::new(alloc),
            faults: 0,
        }
    }

    fn read_next(&self, name: &str) -> Option<&[u8]>
        ensures { option_copied result ≡ read_next self.now name.now }
    {
        if self.failing.contains(&self.calls.saturating_add(1)) {
            return None;
        }
        find(&self.entries, name)
    }

    /// Counts a fault and keeps its call's name, or leaves both as they were where there is no memory.
    fn note_fault(&mut self, name: &str) -> Result<(), Memory>
        ensures ok { OnOk result (self.new ≡ record self.old { failed = self.old.failed ++ name.now ∷ []; faults = raised self.old.faults }) }
        ensures rose { OnOk result (Rose self.old.faults self.new.faults) }
        ensures err { OnErr result (self.new ≡ self.old) }
    {
        let name = Text::new(Vec::from_slice(self.alloc, name.as_bytes())?);
        self.failed.push(name)?;
        self.faults = self.faults.saturating_add(1);
        Ok(())
    }
}

impl Shelf for MemShelf {
    ghost use Rattle.std.specs.Prelude.{Some};

    ghost seen = { λ s. record { holds = holding s.entries; failed = Some s.failed; faults = s.faults } };

    /// A refusal leaves the target as it was.
    fn fetch(&mut self, name: &str, max: u64, into: &mut Vec<u8>) -> Result<(), ShelfRefusal>
        requires { max + 1 < 2 ^ 64 }

        ensures kept { holding self.new.entries ≡ holding self.old.entries }
        ensures faults { CountsFault self.old.faults self.new.faults result }
        ensures failed { ListsFailure (Some self.old.failed) (Some self.new.failed) name.now result }
        ensures front { StartsWith into.new.items into.old.items }
        ensures within { OnOk result (length into.new.items ≤ length into.old.items + max) }
        ensures taken { TakesOneMore max result }
        ensures told { Fetches (holding self.old.entries name.now) max into.old.items into.new.items result }

        ensures fails { FailsIf (is_none (read_next self.old name.now)) result }
        ensures after { self.new ≡ after_fetch self.old name.now result }
        ensures err { OnErr result (into.new.items ≡ into.old.items) }
    {
        let Some(file) = self.read_next(name) else {
            self.calls = self.calls.saturating_add(1);
            return match self.note_fault(name) {
                Ok(()) => Err(ShelfRefusal::Failed),
                Err(_) => Err(ShelfRefusal::Memory),
            };
        };
        let fetched = append(file, max, into);
        self.calls = self.calls.saturating_add(1);
        fetched
    }
}
