ghost use Rattle.std.specs.Prelude.{◌≡◌, ◌+◌, ◌++◌, ◌∷◌, [], IfOk};
ghost use Rattle.vf_design.specs.declared.layout.TheConstants.{RUNNING, ACTIVE_HEAD, ACTIVE_TAIL, PROCESSES, PLACE, STATUS, VALUES, ONES, UNKNOWN};
ghost use Rattle.vf_design.specs.Words as defined;
ghost use Rattle.vf_kernel.specs.Changes.{change_at};

use vf_base::{Memory, Write};
use vf_design::layout::{
    ACTIVE_HEAD, ACTIVE_TAIL, ONES, PLACE, PROCESSES, RUNNING, STATUS, UNKNOWN, VALUES,
};

/// The process goes from one place to another.
pub fn go(from: u32, to: u32, writes: &mut Vec<Write>) -> Result<(), Memory>
    ensures { IfOk result (λ _. writes.new.items ≡ writes.old.items ++ change_at (PROCESSES + PLACE) from to) }
{
    change(PROCESSES + PLACE, u64::from(from), u64::from(to), writes)
}

/// The variable gets a number in place of a value.
pub fn assign(value: Option<u32>, number: u32, writes: &mut Vec<Write>) -> Result<(), Memory>
    ensures { IfOk result (λ _. writes.new.items ≡ (writes.old.items ++ change_at (VALUES + ONES) (defined.ones_word value) number)
        ++ change_at (VALUES + UNKNOWN) (defined.unknown_word value) 0) }
{
    change(VALUES + ONES, ones_word(value), u64::from(number), writes)?;
    change(VALUES + UNKNOWN, unknown_word(value), 0, writes)?;
    Ok(())
}

/// The active process leaves the active list and runs.
pub fn start(writes: &mut Vec<Write>) -> Result<(), Memory>
    ensures { IfOk result (λ _. writes.new.items ≡ writes.old.items ++ (record { at = RUNNING; word = 1 } ∷ record { at = ACTIVE_HEAD; word = 0 }
        ∷ record { at = ACTIVE_TAIL; word = 0 } ∷ record { at = PROCESSES + STATUS; word = 5 } ∷ [])) }
{
    put(RUNNING, 1, writes)?;
    put(ACTIVE_HEAD, 0, writes)?;
    put(ACTIVE_TAIL, 0, writes)?;
    put(PROCESSES + STATUS, 5, writes)
}

/// The running process ends.
pub fn halt(writes: &mut Vec<Write>) -> Result<(), Memory>
    ensures { IfOk result (λ _. writes.new.items ≡ writes.old.items ++ (record { at = RUNNING; word = 0 } ∷ record { at = PROCESSES + STATUS; word = 0 } ∷ [])) }
{
    put(RUNNING, 0, writes)?;
    put(PROCESSES + STATUS, 0, writes)
}

/// Adds a write where the word changes.
fn change(at: u32, before: u64, after: u64, writes: &mut Vec<Write>) -> Result<(), Memory>
    ensures { IfOk result (λ _. writes.new.items ≡ writes.old.items ++ change_at at before after) }
{
    if before != after {
        writes.push(Write { at, word: after })?;
    }
    Ok(())
}

/// Adds a write.
fn put(at: u32, word: u64, writes: &mut Vec<Write>) -> Result<(), Memory>
    ensures { IfOk result (λ _. writes.new.items ≡ writes.old.items ++ (record { at = at; word = word } ∷ [])) }
{
    writes.push(Write { at, word })?;
    Ok(())
}

/// The bits of a value that are 1 or x.
fn ones_word(value: Option<u32>) -> u64
    ensures { result ≡ defined.ones_word value }
{
    match value {
        Some(n) => u64::from(n),
        None => u64::from(u32::MAX),
    }
}

/// The bits of a value that are x.
fn unknown_word(value: Option<u32>) -> u64
    ensures { result ≡ defined.unknown_word value }
{
    match value {
        Some(_) => 0,
        None => u64::from(u32::MAX),
    }
}
