ghost use Rattle.std.specs.Prelude.{◌≡◌, ℕ, Some};
ghost use Rattle.std.proofs.Common.{refl, ◌∙◌};
ghost use Rattle.std.specs.declared.option.Option.{Option};
ghost use Rattle.edge_io.specs.Calls.{one_more};
ghost use Rattle.desk_keeper.specs.declared.tables.Tables.{Tables};
ghost use Rattle.desk_keeper.specs.Keeping.{Appended, HasKeepCause, Loads, StopsWhole};

use crate::{Row, Tables};
use std::alloc::Global;
use thiserror::Error;

/// Why a keeper gave no answer.
#[derive(Clone, Copy, Debug, PartialEq, Eq, Error)]
pub enum KeepFault {
    /// The keeper failed, and its count of faults tells so.
    #[error("the keeper of rows failed")]
    Failed,
    /// Memory was refused, which is no fault.
    #[error("out of memory")]
    Memory,
}

/// Where rows are kept.
pub trait Keeper {
    /// The rows that are kept, where they are told.
    ghost kept: { Self → Option Tables };

    /// How often the keeper has failed.
    ghost fault_count: { Self → ℕ };

    /// How many batches it was asked to append.
    ghost appends: { Self → ℕ };

    /// Which tables a stop inside the last append, or at this moment, may leave.
    ghost stop_leaves: { Self → Tables → Type 0 };

    /// Both lend from the same place, where they lend.
    ghost same_keeper: { Self → Self → Type 0 };

    /// All the rows.
    fn load(&mut self, alloc: Global) -> Result<Tables, KeepFault>
        ensures tables { Loads (kept self.old) (kept self.new) result }
        ensures cause { HasKeepCause (fault_count self.old) (fault_count self.new) result }
        ensures appends { appends self.new ≡ appends self.old }
        ensures place { same_keeper self.old self.new };

    /// Puts each row last in its table, all of them or none.
    fn append(&mut self, rows: &[Row]) -> Result<(), KeepFault>
        ensures tables { Appended (kept self.old) (kept self.new) rows.now result }
        ensures cause { HasKeepCause (fault_count self.old) (fault_count self.new) result }
        ensures appends { appends self.new ≡ one_more (appends self.old) }
        ensures stops { (left : Tables) → stop_leaves self.new left → StopsWhole (kept self.old) rows.now left }
        ensures place { same_keeper self.old self.new };

    /// How often the keeper has failed. The count stands still at the greatest value of its type.
    fn faults(&self) -> u64
        ensures value { result ≡ fault_count self.now };

    ghost keeper_refl: { (a : Self) → same_keeper a a };

    ghost keeper_trans: { (a b c : Self) → same_keeper a b → same_keeper b c → same_keeper a c };

    /// A stop at this moment leaves what is kept.
    ghost stops_now: { (keeper : Self) (tables : Tables) → kept keeper ≡ Some tables → stop_leaves keeper tables };
}

impl<K: Keeper> Keeper for &mut K {
    ghost kept = { λ k. K.kept k.now };

    ghost fault_count = { λ k. K.fault_count k.now };

    ghost appends = { λ k. K.appends k.now };

    ghost same_keeper = { λ a b. a.ghost_name ≡ b.ghost_name };

    ghost keeper_refl = { λ a. refl };

    ghost keeper_trans = { λ a b c p q. p ∙ q };

    ghost stop_leaves = { λ k tables. K.stop_leaves k.now tables };

    ghost stops_now = { λ k tables same. K.stops_now k.now tables same };

    fn load(&mut self, alloc: Global) -> Result<Tables, KeepFault> {
        Keeper::load(&mut **self, alloc)
    }

    fn append(&mut self, rows: &[Row]) -> Result<(), KeepFault> {
        Keeper::append(&mut **self, rows)
    }

    fn faults(&self) -> u64 {
        Keeper::faults(&**self)
    }
}
