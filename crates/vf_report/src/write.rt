//! What every line is made of: texts and numbers, appended to it.

ghost use Rattle.std.specs.Prelude.{◌≡◌, ◌++◌, decimal, OnOk};

use vf_base::{Memory, write_decimal};

/// Appends a text.
pub fn write(text: &[u8], into: &mut Vec<u8>) -> Result<(), Memory>
    ensures { OnOk result (into.new.items ≡ into.old.items ++ text.now) }
{
    into.extend_from_slice(text)?;
    Ok(())
}

/// Appends a label and a number in decimal.
pub fn write_number(label: &[u8], number: u64, into: &mut Vec<u8>) -> Result<(), Memory>
    ensures { OnOk result (into.new.items ≡ into.old.items ++ (label.now ++ decimal number)) }
{
    write(label, into)?;
    write_decimal(number, into)
}
