ghost use Rattle.std.specs.Prelude.{◌≡◌, ◌<◌, ◌↔◌, ◌⊎◌, ◌+◌, [], Some, length, min, IfOk, IsErr, IsTrue};
ghost use Rattle.std.specs.Io.{WritesAtMost};
ghost use Rattle.std.specs.Io.KnownBytes.{WriteAppends};
ghost use Rattle.edge_io.specs.Calls.{CountsCall, fails_next};
ghost use Rattle.edge_io.specs.Causes.{HasCause};
ghost use Rattle.edge_io.specs.Flow.{TakesSome};

use crate::calls::Calls;
use crate::{Failed, Sink};
use std::alloc::{AllocError, Global};
use std::marker::Model;

/// Bytes in memory that were written.
#[derive(Drop)]
pub struct MemSink {
    bytes: Vec<u8>,
    at: usize,
    piece: usize,
    calls: Calls,
}

impl Model for MemSink {
    ghost use Rattle.std.specs.Prelude.{◌<◌, ◌≤◌, ◌-◌, take, vec_len};
    ghost use Rattle.edge_io.specs.Memory.{MemOutput};

    ghost Value = { MemOutput };

    ghost view = { λ s. record { taken = take s.at s.bytes.items; room = vec_len s.bytes - s.at; piece = s.piece; calls = s.calls } };

    ghost invariant = { λ s. (s.at ≤ vec_len s.bytes) × (0 < s.piece) };
}

impl MemSink {
    /// Has room for so many bytes, and takes at most `piece` of them a call.
    /// The calls with the numbers `fails`, counted from 1, fail, and so does a write of a piece that isn't empty
    /// when no room is left.
    pub fn new(
        alloc: Global,
        room: usize,
        piece: usize,
        fails: &[u32],
    ) -> Result<MemSink, AllocError>
        requires some { 0 < piece }
        ensures value { IfOk result (λ s. s ≡ record {
          taken = [];
          room = room;
          piece = piece;
          calls = record { fails = fails.now; made = 0; failed = 0 };
        }) }
    {
        Ok(MemSink {
            bytes: vec![in alloc; 0; room]?,
            at: 0,
            piece,
            calls: Calls::new(alloc, fails)?,
        })
    }

    /// The bytes that were written.
    pub fn taken(&self) -> &[u8]
        ensures value { result.now ≡ self.now.taken }
    {
        &self.bytes[..self.at]
    }

    /// How many calls failed.
    pub fn failed(&self) -> u64
        ensures value { result ≡ self.now.calls.failed }
    {
        self.calls.failed()
    }
}

impl Sink for MemSink {
    ghost taken = { λ s. Some s.taken };

    ghost faults = { λ s. s.calls.failed };

    ghost same_sink = { λ _ _. Unit {0} };

    ghost sink_refl = { λ _. tt };

    ghost sink_trans = { λ _ _ _ _ _. tt };

    fn write(&mut self, piece: &[u8]) -> Result<usize, Failed>
        ensures bound { WritesAtMost result piece.now }
        ensures some { TakesSome result piece.now }
        ensures bytes { WriteAppends (Some self.old.taken) (Some self.new.taken) result piece.now }
        ensures cause { HasCause self.old.calls.failed self.new.calls.failed result }
        ensures place { Unit {0} }
        ensures fails { IsErr result ↔ (IsTrue (fails_next self.old.calls) ⊎ ((0 < length piece.now) × (self.old.room ≡ 0))) }
        ensures calls { CountsCall self.old.calls self.new.calls result }
        ensures count { IfOk result (λ n. n ≡ min (min self.old.room (length piece.now)) self.old.piece) }
        ensures room { IfOk result (λ n. self.new.room + n ≡ self.old.room) }
        ensures piece { self.new.piece ≡ self.old.piece }
    {
        let listed = self.calls.count_call();
        let room = self.bytes.len() - self.at;
        if listed || (room == 0 && !piece.is_empty()) {
            self.calls.count_fault();
            return Err(Failed);
        }
        let count = room.min(piece.len()).min(self.piece);
        let end = self.at + count;
        self.bytes[self.at..end].copy_from_slice(&piece[..count]);
        self.at = end;
        Ok(count)
    }
}
