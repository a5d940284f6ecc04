ghost use Rattle.std.specs.Prelude.{◌≡◌, ℕ, ◌-◌, ◌<◌, ◌≤◌, [], ◌++◌, length, take, IfOk, OnOk, OnErr, is_err};
ghost use Rattle.vf_ports.specs.Counts.{Rose, raised};
ghost use Rattle.vf_ports.specs.Sink.{Appends};
ghost use Rattle.vf_ports.specs.Output.{refuses, taken, after_write};

use crate::{Sink, SinkFailed};
use std::alloc::Global;
use std::marker::Model;
use vf_base::Memory;

/// An output in memory with bounds on what it takes, some of whose calls fail. It tells its bytes.
#[derive(Drop)]
pub struct MemSink {
    bytes: Vec<u8>,
    room: usize,
    most: usize,
    failing: Vec<u64>,
    calls: u64,
    faults: u64,
}

impl Model for MemSink {
    ghost use Rattle.std.specs.Prelude.{◌≤◌, vec_len, vec_capacity};
    ghost use Rattle.vf_ports.specs.Output.{Output};

    ghost Value = { Output };

    ghost view = { λ s. record {
      written = s.bytes.items;
      room = s.room;
      most = s.most;
      failing = s.failing.items;
      calls = s.calls;
      faults = s.faults;
    } };

    ghost invariant = { λ s. (vec_len s.bytes ≤ s.room) × (s.room ≤ vec_capacity s.bytes) × (1 ≤ s.most) };
}

impl MemSink {
    /// An output that takes up to `room` bytes, and up to `most` of them in one call. It takes the
    /// memory for them all at once. The calls whose numbers, from 1, are in `failing` fail, and so
    /// does each call that finds no room for a piece that has a byte.
    pub fn new(
        alloc: Global,
        room: usize,
        most: usize,
        failing: Vec<u64>,
    ) -> Result<MemSink, Memory>
        requires { 1 ≤ most }
        ensures { IfOk result (λ sink. sink ≡ record { written = []; room = room; most = most; failing = failing.items; calls = 0; faults = 0 }) }
    {
        let bytes = Vec::with_capacity(alloc, room)?;
        Ok(MemSink {
            bytes,
            room,
            most,
            failing,
            calls: 0,
            faults: 0,
        })
    }

    /// What was written.
    pub fn bytes(&self) -> &[u8]
        ensures { result.now ≡ self.now.written }
    {
        &self.bytes
    }

    fn refuses(&self, piece: &[u8]) -> bool
        ensures { result ≡ refuses self.now piece.now }
    {
        self.failing.contains(&self.calls.saturating_add(1))
            || (self.bytes.len() == self.room && !piece.is_empty())
    }
}

impl Sink for MemSink {
    ghost use Rattle.std.specs.Prelude.{Some};

    ghost seen = { λ s. record { written = Some s.written; faults = s.faults } };

    fn write(&mut self, piece: &[u8]) -> Result<usize, SinkFailed>
        ensures bound { IfOk result (λ count. count ≤ length piece.now) }
        ensures some { 0 < length piece.now → IfOk result (λ count. 0 < count) }
        ensures appended { IfOk result (λ count. Appends (Some self.old.written) (Some self.new.written) (take count piece.now)) }
        ensures no_fault { OnOk result (self.new.faults ≡ self.old.faults) }
        ensures nothing { OnErr result (self.new.written ≡ self.old.written) }
        ensures fault { OnErr result (Rose self.old.faults self.new.faults) }

        ensures fails { is_err result ≡ refuses self.old piece.now }
        ensures takes { IfOk result (λ count. count ≡ taken self.old piece.now) }
        ensures after { self.new ≡ after_write self.old piece.now result }
    {
        let refused = self.refuses(piece);
        self.calls = self.calls.saturating_add(1);
        if refused {
            self.faults = self.faults.saturating_add(1);
            return Err(SinkFailed);
        }
        let left = self.room - self.bytes.len();
        let count = piece.len().min(self.most).min(left);
        self.bytes.extend_from_slice(&piece[..count]).unwrap();
        Ok(count)
    }
}
