ghost use Rattle.std.specs.Prelude.{◌≡◌, Bool, true, false, is_some, refl};

use std::io::{Stderr, Stdout, Write};
use vf_ports::{Sink, SinkFailed};

/// A writer that tells the bytes that it holds always, or never.
pub trait Telling: Write {
    /// Whether it tells them.
    ghost tells: { Bool };

    ghost steady: { (w : Self) → is_some (Self.contents w) ≡ tells };
}

impl Telling for Stdout {
    ghost tells = { false };

    ghost steady = { λ _. refl };
}

impl Telling for Stderr {
    ghost tells = { false };

    ghost steady = { λ _. refl };
}

impl Telling for Vec<u8> {
    ghost tells = { true };

    ghost steady = { λ _. refl };
}

impl<W: Telling> Telling for &mut W {
    ghost tells = { W.tells };

    ghost steady = { λ w. W.steady w.now };
}

/// A writer as an output. It tells the bytes that the writer tells, and counts a fault where a write fails or
/// takes nothing of a piece that has a byte.
#[derive(Drop)]
pub struct OutSink<W: Telling> {
    out: W,
    faults: u64,
}

impl<W: Telling> OutSink<W> {
    pub fn new(out: W) -> OutSink<W> {
        OutSink { out, faults: 0 }
    }
}

impl<W: Telling> Sink for OutSink<W> {
    ghost seen = { λ sink. record { written = W.contents sink.out; faults = sink.faults } };

    fn write(&mut self, piece: &[u8]) -> Result<usize, SinkFailed> {
        if piece.is_empty() {
            return Ok(0);
        }
        match self.out.write(piece) {
            Ok(count) if 0 < count => Ok(count),
            _ => {
                self.faults = self.faults.saturating_add(1);
                Err(SinkFailed)
            }
        }
    }
}
