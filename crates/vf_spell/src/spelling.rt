use std::alloc::Global;
use vf_base::{Memory, Place, write_decimal};
use vf_tree::{Name, Quoted};

/// More levels than any tree has.
pub const DEEP: u32 = 1_000;

/// Where a tree is written, and whether with its places.
#[derive(Drop)]
pub struct Spelling {
    /// What was written so far.
    pub bytes: Vec<u8>,
    /// Whether each tree is written after its place.
    pub places: bool,
}

impl Spelling {
    /// Nothing yet.
    pub fn new(alloc: Global, places: bool) -> Spelling {
        Spelling {
            bytes: Vec::new(alloc),
            places,
        }
    }

    /// Writes bytes.
    pub fn text(&mut self, text: &[u8]) -> Result<(), Memory> {
        self.bytes.extend_from_slice(text)?;
        Ok(())
    }

    /// Writes a number in decimal digits, one above 2^64 - 1 as 2^64 - 1.
    pub fn number(&mut self, number: u128) -> Result<(), Memory> {
        let small = u64::try_from(number).unwrap_or(u64::MAX);
        write_decimal(small, &mut self.bytes)
    }

    /// Writes `@`, a line, `:`, a column and a blank, where places are asked for.
    pub fn place(&mut self, place: Place) -> Result<(), Memory> {
        if !self.places {
            return Ok(());
        }
        self.text(b"@")?;
        write_decimal(u64::from(place.line), &mut self.bytes)?;
        self.text(b":")?;
        write_decimal(u64::from(place.column), &mut self.bytes)?;
        self.text(b" ")
    }

    /// Writes a name after its place.
    pub fn name(&mut self, name: &Name) -> Result<(), Memory> {
        self.place(name.place)?;
        self.text(name.text.bytes())
    }

    /// Writes a string in quotes, after its place. Its bytes are written as they are.
    pub fn quoted(&mut self, quoted: &Quoted) -> Result<(), Memory> {
        self.place(quoted.place)?;
        self.text(b"\"")?;
        self.text(quoted.text.bytes())?;
        self.text(b"\"")
    }
}
