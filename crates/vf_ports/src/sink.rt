ghost use Rattle.std.specs.Prelude.{◌≡◌, ◌<◌, ◌≤◌, length, take, IfOk, OnOk, OnErr};
ghost use Rattle.vf_ports.specs.Counts.{Rose};
ghost use Rattle.vf_ports.specs.Sink.{SinkState, Appends, AppendsPart};

use thiserror::Error;

/// The outside took nothing; the count of faults rose.
#[derive(Clone, Copy, Debug, PartialEq, Eq, Error)]
#[error("the output took nothing")]
pub struct SinkFailed;

/// Takes bytes in their order, and counts the failures in writing them.
pub trait Sink {
    /// The whole state of the sink: the bytes written so far, where it tells them, and how many faults
    /// there were, a count that never falls and stands still at 2^64 - 1.
    ghost seen: { Self → SinkState };

    /// Takes the first bytes of a piece and answers how many: at least one where the piece has one.
    /// A refused call took nothing.
    fn write(&mut self, piece: &[u8]) -> Result<usize, SinkFailed>
        ensures bound { IfOk result (λ count. count ≤ length piece.now) }
        ensures some { 0 < length piece.now → IfOk result (λ count. 0 < count) }
        ensures appended { IfOk result (λ count. Appends (seen self.old).written (seen self.new).written (take count piece.now)) }
        ensures no_fault { OnOk result ((seen self.new).faults ≡ (seen self.old).faults) }

        ensures nothing { OnErr result ((seen self.new).written ≡ (seen self.old).written) }
        ensures fault { OnErr result (Rose (seen self.old).faults (seen self.new).faults) };
}

/// Writes all the bytes, in as many pieces as the sink makes of them. After a refusal a part of them
/// went out, from the first on but not all. It takes no memory.
pub fn put_all<K: Sink>(sink: &mut K, bytes: &[u8]) -> Result<(), SinkFailed>
    ensures whole { OnOk result (Appends (K.seen sink.old).written (K.seen sink.new).written bytes.now) }
    ensures no_fault { OnOk result ((K.seen sink.new).faults ≡ (K.seen sink.old).faults) }

    ensures part { OnErr result (AppendsPart (K.seen sink.old).written (K.seen sink.new).written bytes.now) }
    ensures fault { OnErr result (Rose (K.seen sink.old).faults (K.seen sink.new).faults) }
{
    let mut rest = bytes;
    while !rest.is_empty() {
        let count = sink.write(rest)?;
        rest = &rest[count..];
    }
    Ok(())
}
