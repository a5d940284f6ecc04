ghost use Rattle.std.specs.Prelude.{◌≡◌, ◌++◌, take, IfOk, OnOk, OnErr};

use crate::Memory;
use std::marker::Model;

/// Bytes that the program owns. Contracts see the list of them.
#[derive(Debug, Drop)]
pub struct Text(Vec<u8>);

impl Model for Text {
    ghost use Rattle.std.specs.Prelude.{List, ℕ};

    ghost Value = { List ℕ };

    ghost view = { λ t. t.0.items };
}

impl Text {
    pub fn new(bytes: Vec<u8>) -> Text
        ensures { result ≡ bytes.items }
    {
        Text(bytes)
    }

    pub fn bytes(&self) -> &[u8]
        ensures { result.now ≡ self.now }
    {
        self.0.as_slice()
    }

    /// Appends bytes. Where it is out of memory the text is unchanged.
    pub fn push_all(&mut self, more: &[u8]) -> Result<(), Memory>
        ensures ok { OnOk result (self.new ≡ self.old ++ more.now) }
        ensures err { OnErr result (self.new ≡ self.old) }
    {
        self.0.extend_from_slice(more)?;
        Ok(())
    }

    /// Keeps the first `len` bytes and drops those after them. It takes no memory.
    pub fn truncate(&mut self, len: usize)
        ensures { self.new ≡ take len self.old }
    {
        self.0.truncate(len);
    }

    /// The same bytes again, in memory of their own.
    pub fn copy(&self) -> Result<Text, Memory>
        ensures { IfOk result (λ copy. copy ≡ self.now) }
    {
        Ok(Text(self.0.clone()?))
    }
}

#[cfg(test)]
mod tests {
    use super::*;
    use std::test::Fail;

    #[test]
    fn appends_and_copies(rt: HostRuntime) -> Result<(), Fail> {
        let mut text = Text::new(Vec::from_slice(rt.alloc(), b"out")?);
        text.push_all(b"put")?;
        assert_eq!(rt; text.copy()?.bytes(), b"output".as_slice());
        text.truncate(3);
        assert_eq!(rt; text.bytes(), b"out".as_slice());
        Ok(())
    }
}
