ghost use Rattle.std.specs.Prelude.{◌≡◌, ◌↔◌, Some, IfOk, IsErrOf, IsTrue};
ghost use Rattle.edge_io.specs.Calls.{fails_next, one_more};
ghost use Rattle.desk_keeper.specs.declared.tables.Tables.{Tables};
ghost use Rattle.desk_keeper.specs.Keeping.{Appended, HasKeepCause, Loads, StopsWhole};
ghost use Rattle.desk_keeper.specs.MemKeepers.{CountsKeep, kept_alone};
ghost use Rattle.desk_keeper.specs.Rows.{no_rows};

use crate::{KeepFault, Keeper, Row, Tables};
use edge_io::Calls;
use std::alloc::{AllocError, Global};
use std::marker::Model;

/// Rows in memory.
#[derive(Drop)]
pub struct MemKeeper {
    alloc: Global,
    tables: Tables,
    calls: Calls,
    appends: u64,
}

impl Model for MemKeeper {
    ghost use Rattle.desk_keeper.specs.MemKeepers.{MemRows};

    ghost Value = { MemRows };

    ghost view = { λ k. record { tables = k.tables; calls = k.calls; appends = k.appends } };
}

impl MemKeeper {
    /// Keeps no row yet. The calls of `load` and `append` with the numbers `fails`, counted together from 1, fail.
    pub fn new(alloc: Global, fails: &[u32]) -> Result<MemKeeper, AllocError>
        ensures value { IfOk result (λ k. k ≡ record {
          tables = no_rows;
          calls = record { fails = fails.now; made = 0; failed = 0 };
          appends = 0;
        }) }
    {
        Ok(MemKeeper {
            alloc,
            tables: Tables::new(alloc),
            calls: Calls::new(alloc, fails)?,
            appends: 0,
        })
    }

    /// The rows that are kept.
    pub fn tables(&self) -> &Tables
        ensures value { result.now ≡ self.now.tables }
    {
        &self.tables
    }
}

impl Keeper for MemKeeper {
    ghost kept = { λ k. Some k.tables };

    ghost fault_count = { λ k. k.calls.failed };

    ghost appends = { λ k. k.appends };

    ghost same_keeper = { λ _ _. Unit {0} };

    ghost keeper_refl = { λ _. tt };

    ghost keeper_trans = { λ _ _ _ _ _. tt };

    ghost stop_leaves = { λ k left. left ≡ k.tables };

    ghost stops_now = { λ k tables same. kept_alone k.tables tables same };

    fn load(&mut self, alloc: Global) -> Result<Tables, KeepFault>
        ensures tables { Loads (Some self.old.tables) (Some self.new.tables) result }
        ensures cause { HasKeepCause self.old.calls.failed self.new.calls.failed result }
        ensures appends { self.new.appends ≡ self.old.appends }
        ensures place { Unit {0} }
        ensures fails { IsErrOf result KeepFault.Failed ↔ IsTrue (fails_next self.old.calls) }
        ensures calls { CountsKeep self.old.calls self.new.calls }
    {
        if self.calls.count_call() {
            self.calls.count_fault();
            return Err(KeepFault::Failed);
        }
        match self.tables.copied(alloc) {
            Ok(tables) => Ok(tables),
            Err(AllocError) => Err(KeepFault::Memory),
        }
    }

    fn append(&mut self, rows: &[Row]) -> Result<(), KeepFault>
        ensures tables { Appended (Some self.old.tables) (Some self.new.tables) rows.now result }
        ensures cause { HasKeepCause self.old.calls.failed self.new.calls.failed result }
        ensures appends { self.new.appends ≡ one_more self.old.appends }
        ensures stops { (left : Tables) → left ≡ self.new.tables → StopsWhole (Some self.old.tables) rows.now left }
        ensures place { Unit {0} }
        ensures fails { IsErrOf result KeepFault.Failed ↔ IsTrue (fails_next self.old.calls) }
        ensures calls { CountsKeep self.old.calls self.new.calls }
    {
        self.appends = self.appends.saturating_add(1);
        if self.calls.count_call() {
            self.calls.count_fault();
            return Err(KeepFault::Failed);
        }
        match self.tables.put_all(self.alloc, rows) {
            Ok(()) => Ok(()),
            Err(AllocError) => Err(KeepFault::Memory),
        }
    }

    fn faults(&self) -> u64 {
        self.calls.failed()
    }
}
