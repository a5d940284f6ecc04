ghost use Rattle.std.specs.Prelude.{◌≡◌, ℕ, ◌<◌, ◌≤◌, true, length, OnOk, OnErr, MatchResult};
ghost use Rattle.vf_machine.specs.Writes.{rises_from};
ghost use Rattle.vf_patch.specs.declared.front.TheConstants.{FRONT_WORDS};
ghost use Rattle.vf_patch.specs.Sorted.{IsPlace, IsGap, IsPut, found};

use vf_base::{Memory, Write};

// Where the write at an address stands, or where it would stand.
fn find(writes: &Vec<Write>, at: u32) -> Result<usize, usize>
    requires { rises_from FRONT_WORDS writes.now.items ≡ true }
    ensures { MatchResult result
        (λ i. IsPlace at writes.now.items i)
        (λ i. IsGap at writes.now.items i) }
{
    let mut low = 0;
    let mut high = writes.len();
    while low < high {
        let middle = low + (high - low) / 2;
        let there = writes[middle].at;
        if there == at {
            return Ok(middle);
        }
        if there < at {
            low = middle + 1;
        } else {
            high = middle;
        }
    }
    Err(low)
}

/// The word that is written at an address, if one is.
pub(crate) fn word_of(writes: &Vec<Write>, at: u32) -> Option<u64>
    requires { rises_from FRONT_WORDS writes.now.items ≡ true }
    ensures { result ≡ found writes.now.items at }
{
    match find(writes, at) {
        Ok(place) => Some(writes[place].word),
        Err(_) => None,
    }
}

// Whether an address is greater than those of all writes.
fn follows(writes: &Vec<Write>, at: u32) -> bool
    requires { rises_from FRONT_WORDS writes.now.items ≡ true }
    ensures { result ≡ true → IsGap at writes.now.items (length writes.now.items) }
{
    let len = writes.len();
    len == 0 || writes[len - 1].at < at
}

/// Puts a write in, in the place of one at its address. Most addresses rise, so a write after all others
/// comes first.
pub(crate) fn put(writes: &mut Vec<Write>, at: u32, word: u64) -> Result<(), Memory>
    requires { rises_from FRONT_WORDS writes.old.items ≡ true }
    ensures ok { OnOk result (IsPut at word writes.old.items writes.new.items) }
    ensures err { OnErr result (writes.new.items ≡ writes.old.items) }
{
    if follows(writes, at) {
        if writes.len() < writes.capacity() {
            writes.push_reserved(Write { at, word });
            return Ok(());
        }
    }
    put_among(writes, at, word)
}

// Puts a write in, wherever its address stands.
#[inline(never)]
fn put_among(writes: &mut Vec<Write>, at: u32, word: u64) -> Result<(), Memory>
    requires { rises_from FRONT_WORDS writes.old.items ≡ true }
    ensures ok { OnOk result (IsPut at word writes.old.items writes.new.items) }
    ensures err { OnErr result (writes.new.items ≡ writes.old.items) }
{
    match find(writes, at) {
        Ok(place) => {
            writes[place] = Write { at, word };
            Ok(())
        }
        Err(place) => insert(writes, place, at, word),
    }
}

// Puts a write in between others. It is not inlined, so that what comes before it saves no registers for it.
#[inline(never)]
fn insert(writes: &mut Vec<Write>, place: usize, at: u32, word: u64) -> Result<(), Memory>
    requires { IsGap at writes.old.items place }
    ensures ok { OnOk result (IsPut at word writes.old.items writes.new.items) }
    ensures err { OnErr result (writes.new.items ≡ writes.old.items) }
{
    writes.insert(place, Write { at, word })?;
    Ok(())
}
