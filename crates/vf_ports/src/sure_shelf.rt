ghost use Rattle.std.specs.Prelude.{◌≡◌, ◌+◌, ◌^◌, ◌<◌, ◌≤◌, length, unwrap_or, [], option_copied, OnOk, OnErr, IsErrOf};
ghost use Rattle.std.specs.Io.{StartsWith};
ghost use Rattle.vf_ports.specs.Shelf.{TakesOneMore, Fetches, FetchesFile};
ghost use Rattle.vf_ports.specs.Files.{file_named};

use crate::files::{append, find};
use crate::{Shelf, ShelfRefusal};
use std::marker::Model;
use vf_base::Text;

/// Files in memory whose calls never fail: a missing name is an empty file. It tells what its names hold,
/// and that no call failed.
#[derive(Drop)]
pub struct SureShelf(Vec<(Text, Text)>);

impl Model for SureShelf {
    ghost use Rattle.std.specs.Prelude.{List, ℕ};

    ghost Value = { List (List ℕ × List ℕ) };

    ghost view = { λ s. s.0.items };
}

impl SureShelf {
    /// A shelf of these files, each a name and its bytes; of several with one name the first counts.
    pub fn new(files: Vec<(Text, Text)>) -> SureShelf
        ensures { result ≡ files.items }
    {
        SureShelf(files)
    }
}

impl Shelf for SureShelf {
    ghost use Rattle.std.specs.Prelude.{Some};
    ghost use Rattle.vf_ports.specs.Shelf.{file};

    ghost seen = { λ files. record { holds = λ name. file (unwrap_or (file_named files name) []); failed = Some []; faults = 0 } };

    /// It never fails. A refusal leaves the target as it was.
    fn fetch(&mut self, name: &str, max: u64, into: &mut Vec<u8>) -> Result<(), ShelfRefusal>
        requires { max + 1 < 2 ^ 64 }

        ensures same { self.new ≡ self.old }
        ensures never { IsErrOf result ShelfRefusal.Failed → ⊥ }
        ensures front { StartsWith into.new.items into.old.items }
        ensures within { OnOk result (length into.new.items ≤ length into.old.items + max) }
        ensures taken { TakesOneMore max result }
        ensures file { FetchesFile (unwrap_or (file_named self.old name.now) []) max into.old.items into.new.items result }
        ensures err { OnErr result (into.new.items ≡ into.old.items) }
    {
        match find(&self.0, name) {
            None => append(&[], max, into),
            Some(file) => append(file, max, into),
        }
    }
}
