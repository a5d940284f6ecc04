ghost use Rattle.std.specs.Prelude.{◌≡◌, ◌+◌, ◌^◌, ◌<◌, ◌≤◌, length, OnOk};
ghost use Rattle.std.specs.Io.{StartsWith};
ghost use Rattle.vf_ports.specs.Shelf.{ShelfState, CountsFault, ListsFailure, TakesOneMore, Fetches};

use thiserror::Error;

/// Why a file was not fetched.
#[derive(Clone, Copy, Debug, PartialEq, Eq, Error)]
pub enum ShelfRefusal {
    /// The outside failed, or it has no file of that name; the count of faults rose.
    #[error("the outside failed to give the file")]
    Failed,
    /// The file has more bytes than the call allowed. So many were taken to see that: one more.
    #[error("the file is too long: {taken} bytes were taken")]
    TooLong { taken: u64 },
    /// Out of memory.
    #[error("out of memory")]
    Memory,
}

/// Files by their names, and the failures in reading them.
pub trait Shelf {
    /// The whole state of the shelf: what it tells of each name; the names of the calls that answered
    /// `Failed`, in their order, where it tells them; and how many faults there were, a count that never
    /// falls and stands still at 2^64 - 1.
    ghost seen: { Self → ShelfState };

    /// Appends a file of at most `max` bytes, where `max` is below 2^64 - 1. After a refusal the target is
    /// what it was, followed by a prefix of the file.
    fn fetch(&mut self, name: &str, max: u64, into: &mut Vec<u8>) -> Result<(), ShelfRefusal>
        requires { max + 1 < 2 ^ 64 }

        // Every shelf: no call changes what is told, and `Failed` alone is counted and listed.
        ensures kept { (seen self.new).holds ≡ (seen self.old).holds }
        ensures faults { CountsFault (seen self.old).faults (seen self.new).faults result }
        ensures failed { ListsFailure (seen self.old).failed (seen self.new).failed name.now result }

        // Every shelf: the old bytes stay in front, and `Ok` appends at most `max` bytes.
        ensures front { StartsWith into.new.items into.old.items }
        ensures within { OnOk result (length into.new.items ≤ length into.old.items + max) }
        ensures taken { TakesOneMore max result }

        // A shelf that tells of the name: `Ok` appends the whole file, and `TooLong` comes exactly
        // where it is longer than `max`.
        ensures told { Fetches ((seen self.old).holds name.now) max into.old.items into.new.items result };
}
