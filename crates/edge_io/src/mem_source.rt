ghost use Rattle.std.specs.Prelude.{◌≡◌, ◌<◌, ◌↔◌, Some, length, min, IfOk, IsErr, IsTrue};
ghost use Rattle.std.specs.Io.{ReadsAtMost};
ghost use Rattle.std.specs.Io.KnownBytes.{ReadConsumes};
ghost use Rattle.edge_io.specs.Calls.{CountsCall, fails_next};
ghost use Rattle.edge_io.specs.Causes.{HasCause};
ghost use Rattle.edge_io.specs.Flow.{ZeroIsTheEnd};

use crate::calls::Calls;
use crate::{Failed, Source};
use std::alloc::{AllocError, Global};
use std::marker::Model;

/// Bytes in memory to be read.
#[derive(Drop)]
pub struct MemSource {
    bytes: Vec<u8>,
    at: usize,
    piece: usize,
    calls: Calls,
}

impl Model for MemSource {
    ghost use Rattle.std.specs.Prelude.{◌<◌, ◌≤◌, drop, vec_len};
    ghost use Rattle.edge_io.specs.Memory.{MemInput};

    ghost Value = { MemInput };

    ghost view = { λ s. record { left = drop s.at s.bytes.items; piece = s.piece; calls = s.calls } };

    ghost invariant = { λ s. (s.at ≤ vec_len s.bytes) × (0 < s.piece) };
}

impl MemSource {
    /// Gives these bytes, at most `piece` of them a call. The calls with the numbers `fails`, counted from 1, fail.
    pub fn new(
        alloc: Global,
        bytes: &[u8],
        piece: usize,
        fails: &[u32],
    ) -> Result<MemSource, AllocError>
        requires some { 0 < piece }
        ensures value { IfOk result (λ s. s ≡ record {
          left = bytes.now;
          piece = piece;
          calls = record { fails = fails.now; made = 0; failed = 0 };
        }) }
    {
        Ok(MemSource {
            bytes: bytes.to_vec(alloc)?,
            at: 0,
            piece,
            calls: Calls::new(alloc, fails)?,
        })
    }

    /// The bytes that no call has read.
    pub fn left(&self) -> &[u8]
        ensures value { result.now ≡ self.now.left }
    {
        &self.bytes[self.at..]
    }

    /// How many calls failed.
    pub fn failed(&self) -> u64
        ensures value { result ≡ self.now.calls.failed }
    {
        self.calls.failed()
    }
}

impl Source for MemSource {
    ghost left = { λ s. Some s.left };

    ghost faults = { λ s. s.calls.failed };

    ghost same_source = { λ _ _. Unit {0} };

    ghost source_refl = { λ _. tt };

    ghost source_trans = { λ _ _ _ _ _. tt };

    #[tactic(auto, using(crate::proofs::Pieces::front_and_rest, crate::proofs::Pieces::nothing_left))]
    fn read(&mut self, room: &mut [u8]) -> Result<usize, Failed>
        ensures bound { ReadsAtMost result room.new }
        ensures bytes { ReadConsumes (Some self.old.left) (Some self.new.left) result room.new }
        ensures end { ZeroIsTheEnd (Some self.old.left) result room.new }
        ensures cause { HasCause self.old.calls.failed self.new.calls.failed result }
        ensures place { Unit {0} }
        ensures fails { IsErr result ↔ IsTrue (fails_next self.old.calls) }
        ensures calls { CountsCall self.old.calls self.new.calls result }
        ensures count { IfOk result (λ n. n ≡ min (min (length self.old.left) (length room.old)) self.old.piece) }
        ensures piece { self.new.piece ≡ self.old.piece }
    {
        if self.calls.count_call() {
            self.calls.count_fault();
            return Err(Failed);
        }
        let left = self.bytes.len() - self.at;
        let count = left.min(room.len()).min(self.piece);
        let end = self.at + count;
        room[..count].copy_from_slice(&self.bytes[self.at..end]);
        self.at = end;
        Ok(count)
    }
}
