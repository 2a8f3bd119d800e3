ghost use Rattle.std.specs.Prelude.{◌≡◌, IfOk};

use crate::{Failed, Sink, Source};
use std::io::{Read, Write};

/// A source over a reader: each error of the reader counts as a fault.
#[derive(Drop)]
pub struct Reading<R> {
    /// The reader.
    pub inner: R,
    /// How often it failed.
    pub faults: u64,
}

impl<R> Reading<R> {
    /// No fault was counted yet.
    pub fn new(inner: R) -> Reading<R>
        ensures value { result ≡ record { inner = inner; faults = 0 } }
    {
        Reading { inner, faults: 0 }
    }
}

impl<R: Read> Source for Reading<R> {
    ghost left = { λ s. R.remaining s.inner };

    ghost faults = { λ s. s.faults };

    ghost same_source = { λ _ _. Unit {0} };

    ghost source_refl = { λ _. tt };

    ghost source_trans = { λ _ _ _ _ _. tt };

    fn read(&mut self, room: &mut [u8]) -> Result<usize, Failed> {
        match self.inner.read(room) {
            Ok(count) => Ok(count),
            Err(_) => {
                self.faults = self.faults.saturating_add(1);
                Err(Failed)
            }
        }
    }
}

/// A sink over a writer: each error of the writer counts as a fault, and so does a write that took nothing of a piece
/// that isn't empty. It flushes nothing, so the writer should keep nothing back, as standard output does.
#[derive(Drop)]
pub struct Writing<W> {
    /// The writer.
    pub inner: W,
    /// How often it failed.
    pub faults: u64,
}

impl<W> Writing<W> {
    /// No fault was counted yet.
    pub fn new(inner: W) -> Writing<W>
        ensures value { result ≡ record { inner = inner; faults = 0 } }
    {
        Writing { inner, faults: 0 }
    }
}

impl<W: Write> Sink for Writing<W> {
    ghost taken = { λ s. W.contents s.inner };

    ghost faults = { λ s. s.faults };

    ghost same_sink = { λ _ _. Unit {0} };

    ghost sink_refl = { λ _. tt };

    ghost sink_trans = { λ _ _ _ _ _. tt };

    fn write(&mut self, piece: &[u8]) -> Result<usize, Failed> {
        match self.inner.write(piece) {
            Ok(count) if count > 0 || piece.is_empty() => Ok(count),
            _ => {
                self.faults = self.faults.saturating_add(1);
                Err(Failed)
            }
        }
    }
}
