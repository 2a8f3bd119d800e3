ghost use Rattle.std.specs.Prelude.{◌≡◌, ℕ};
ghost use Rattle.std.specs.declared.option.Option.{Option};
ghost use Rattle.std.proofs.Common.{refl, ◌∙◌};
ghost use Rattle.edge_io.specs.Shelves.{Answers, HasShelfCause, IsWithinLimit, TextsByName};

use crate::Bytes;
use std::alloc::Global;
use thiserror::Error;

/// The most bytes of a text that a shelf hands out.
pub const TEXT_LIMIT: usize = 262_144;

/// Why a shelf gave no answer.
#[derive(Clone, Copy, Debug, PartialEq, Eq, Error)]
pub enum ShelfFault {
    /// The shelf failed, and its count of faults tells so.
    #[error("the shelf failed")]
    Failed,
    /// The text has more bytes than the limit.
    #[error("the text is over {} bytes", TEXT_LIMIT)]
    TooLong,
    /// Memory was refused.
    #[error("out of memory")]
    Memory,
}

/// Texts by name.
pub trait Shelf {
    /// The texts, where they are told.
    ghost texts: { Self → Option TextsByName };

    /// How often the shelf has failed.
    ghost faults: { Self → ℕ };

    /// Both lend from the same place, where they lend.
    ghost same_shelf: { Self → Self → Type 0 };

    /// The text under the name, or none where the shelf has no text of that name.
    fn get(&mut self, alloc: Global, name: &Bytes) -> Result<Option<Bytes>, ShelfFault>
        ensures answer { Answers (texts self.old) name.now result }
        ensures limit { IsWithinLimit result }
        ensures texts { texts self.new ≡ texts self.old }
        ensures cause { HasShelfCause (faults self.old) (faults self.new) result }
        ensures place { same_shelf self.old self.new };

    ghost shelf_refl: { (a : Self) → same_shelf a a };

    ghost shelf_trans: { (a b c : Self) → same_shelf a b → same_shelf b c → same_shelf a c };
}

impl<F: Shelf> Shelf for &mut F {
    ghost texts = { λ s. F.texts s.now };

    ghost faults = { λ s. F.faults s.now };

    ghost same_shelf = { λ a b. a.ghost_name ≡ b.ghost_name };

    ghost shelf_refl = { λ a. refl };

    ghost shelf_trans = { λ a b c p q. p ∙ q };

    fn get(&mut self, alloc: Global, name: &Bytes) -> Result<Option<Bytes>, ShelfFault> {
        Shelf::get(&mut **self, alloc, name)
    }
}
