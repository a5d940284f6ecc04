ghost use Rattle.std.specs.Prelude.{◌≡◌, ◌+◌, ◌^◌, ◌<◌, ◌==◌, ◌++◌, option_copied, OnErr, IsErrOf};
ghost use Rattle.std.specs.List.{list_any};
ghost use Rattle.vf_ports.specs.Shelf.{FetchesFile, TakesOneMore};
ghost use Rattle.vf_ports.specs.Files.{file_named};

use crate::ShelfRefusal;
use vf_base::Text;

/// The first file of this name.
pub fn find<'a>(entries: &'a [(Text, Text)], name: &str) -> Option<&'a [u8]>
    ensures { option_copied result ≡ file_named entries.now name.now }
{
    for entry in entries {
        if entry.0.bytes() == name.as_bytes() {
            return Some(entry.1.bytes());
        }
    }
    None
}

/// Appends a file of at most `max` bytes. A refusal leaves the target as it was.
pub fn append(file: &[u8], max: u64, into: &mut Vec<u8>) -> Result<(), ShelfRefusal>
    requires { max + 1 < 2 ^ 64 }
    ensures file { FetchesFile file.now max into.old.items into.new.items result }
    ensures taken { TakesOneMore max result }
    ensures err { OnErr result (into.new.items ≡ into.old.items) }
    ensures not_failed { IsErrOf result ShelfRefusal.Failed → ⊥ }
{
    if file.len() as u64 > max {
        return Err(ShelfRefusal::TooLong { taken: max + 1 });
    }
    match into.extend_from_slice(file) {
        Ok(()) => Ok(()),
        Err(_) => Err(ShelfRefusal::Memory),
    }
}
