ghost use Rattle.std.specs.Prelude.{◌≡◌, ◌+◌, ◌^◌, ◌<◌, ◌≤◌, length, OnOk};
ghost use Rattle.std.specs.Io.{StartsWith};
ghost use Rattle.vf_ports.specs.Shelf.{TakesOneMore, Fetches};
ghost use Rattle.vf_adapters.specs.Reading.{told_by};

use std::io::Read;
use vf_ports::ShelfRefusal;

/// The most bytes that are read at a time.
const PIECE: usize = 4096;

/// Appends all that a reader has left, if that is at most `max` bytes, where `max` is below 2^64 - 1. It takes no
/// more than `max` + 1 bytes from the reader. `Failed` comes only where a read fails. After a refusal the target is
/// what it was, followed by some of what the reader had.
pub fn read_within<R: Read>(
    reader: &mut R,
    max: u64,
    into: &mut Vec<u8>,
) -> Result<(), ShelfRefusal>
    requires { max + 1 < 2 ^ 64 }

    // Every reader.
    ensures front { StartsWith into.new.items into.old.items }
    ensures within { OnOk result (length into.new.items ≤ length into.old.items + max) }
    ensures taken { TakesOneMore max result }

    // A reader that tells what it has left: `Ok` appends all of it, and `TooLong` comes exactly where it is more
    // than `max` bytes.
    ensures told { Fetches (told_by (R.remaining reader.old)) max into.old.items into.new.items result }
{
    let mut piece = [0u8; PIECE];
    let mut left = max;
    loop {
        let room = (left + 1).min(PIECE as u64) as usize;
        let Ok(count) = reader.read(&mut piece[..room]) else {
            return Err(ShelfRefusal::Failed);
        };
        if count == 0 {
            return Ok(());
        }
        if count as u64 > left {
            return Err(ShelfRefusal::TooLong { taken: max + 1 });
        }
        let Ok(()) = into.extend_from_slice(&piece[..count]) else {
            return Err(ShelfRefusal::Memory);
        };
        left -= count as u64;
    }
}
