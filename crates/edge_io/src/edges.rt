ghost use Rattle.std.specs.Prelude.{◌≡◌, ℕ, List};
ghost use Rattle.std.specs.declared.option.Option.{Option};
ghost use Rattle.std.specs.Io.{ReadsAtMost, WritesAtMost};
ghost use Rattle.std.specs.Io.KnownBytes.{ReadConsumes, WriteAppends};
ghost use Rattle.std.proofs.Common.{refl, ◌∙◌};
ghost use Rattle.edge_io.specs.Causes.{HasCause};
ghost use Rattle.edge_io.specs.Flow.{TakesSome, ZeroIsTheEnd};

use thiserror::Error;

/// The edge failed, and its count of faults tells so.
#[derive(Clone, Copy, Debug, PartialEq, Eq, Error)]
#[error("the edge of the program failed")]
pub struct Failed;

/// Where bytes come from.
pub trait Source {
    /// The bytes that are left, where they are told.
    ghost left: { Self → Option (List ℕ) };

    /// How often the source has failed.
    ghost faults: { Self → ℕ };

    /// Both lend from the same place, where they lend.
    ghost same_source: { Self → Self → Type 0 };

    /// Reads into the front of the room, and answers how many bytes.
    /// Of a room that isn't empty, 0 is the end.
    fn read(&mut self, room: &mut [u8]) -> Result<usize, Failed>
        ensures bound { ReadsAtMost result room.new }
        ensures bytes { ReadConsumes (left self.old) (left self.new) result room.new }
        ensures end { ZeroIsTheEnd (left self.old) result room.new }
        ensures cause { HasCause (faults self.old) (faults self.new) result }
        ensures place { same_source self.old self.new };

    ghost source_refl: { (a : Self) → same_source a a };

    ghost source_trans: { (a b c : Self) → same_source a b → same_source b c → same_source a c };
}

/// Where bytes go to.
pub trait Sink {
    /// The bytes that were taken, where they are told.
    ghost taken: { Self → Option (List ℕ) };

    /// How often the sink has failed.
    ghost faults: { Self → ℕ };

    /// Both lend from the same place, where they lend.
    ghost same_sink: { Self → Self → Type 0 };

    /// Takes a front of the piece, and answers how many bytes.
    fn write(&mut self, piece: &[u8]) -> Result<usize, Failed>
        ensures bound { WritesAtMost result piece.now }
        ensures some { TakesSome result piece.now }
        ensures bytes { WriteAppends (taken self.old) (taken self.new) result piece.now }
        ensures cause { HasCause (faults self.old) (faults self.new) result }
        ensures place { same_sink self.old self.new };

    ghost sink_refl: { (a : Self) → same_sink a a };

    ghost sink_trans: { (a b c : Self) → same_sink a b → same_sink b c → same_sink a c };
}

impl<S: Source> Source for &mut S {
    ghost left = { λ s. S.left s.now };

    ghost faults = { λ s. S.faults s.now };

    ghost same_source = { λ a b. a.ghost_name ≡ b.ghost_name };

    ghost source_refl = { λ a. refl };

    ghost source_trans = { λ a b c p q. p ∙ q };

    fn read(&mut self, room: &mut [u8]) -> Result<usize, Failed> {
        Source::read(&mut **self, room)
    }
}

impl<W: Sink> Sink for &mut W {
    ghost taken = { λ w. W.taken w.now };

    ghost faults = { λ w. W.faults w.now };

    ghost same_sink = { λ a b. a.ghost_name ≡ b.ghost_name };

    ghost sink_refl = { λ a. refl };

    ghost sink_trans = { λ a b c p q. p ∙ q };

    fn write(&mut self, piece: &[u8]) -> Result<usize, Failed> {
        Sink::write(&mut **self, piece)
    }
}
