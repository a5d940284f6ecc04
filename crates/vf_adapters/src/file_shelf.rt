use crate::read::read_within;
use std::fs;
use std::rt::Files;
use vf_ports::{Shelf, ShelfRefusal};

/// The files of a system, by their paths. It tells nothing of what they hold, and counts a fault where a file
/// cannot be opened or a read of it fails.
#[derive(Drop)]
pub struct FileShelf<'a, R: Files> {
    files: &'a R,
    faults: u64,
}

impl<'a, R: Files> FileShelf<'a, R> {
    pub fn new(files: &'a R) -> FileShelf<'a, R> {
        FileShelf { files, faults: 0 }
    }
}

impl<'a, R: Files> Shelf for FileShelf<'a, R> {
    ghost use Rattle.std.specs.Prelude.{None};
    ghost use Rattle.vf_ports.specs.Shelf.{untold};

    ghost seen = { λ shelf. record { holds = λ _. untold; failed = None; faults = shelf.faults } };

    fn fetch(&mut self, name: &str, max: u64, into: &mut Vec<u8>) -> Result<(), ShelfRefusal> {
        let Ok(mut file) = fs::open(self.files, name) else {
            self.faults = self.faults.saturating_add(1);
            return Err(ShelfRefusal::Failed);
        };
        let fetched = read_within(&mut file, max, into);
        if let Err(ShelfRefusal::Failed) = fetched {
            self.faults = self.faults.saturating_add(1);
        }
        fetched
    }
}
