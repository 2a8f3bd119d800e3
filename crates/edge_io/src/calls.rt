ghost use Rattle.std.specs.Prelude.{◌≡◌, ◌≤◌, IfOk};
ghost use Rattle.edge_io.specs.Calls.{fails_next, one_more};
ghost use Rattle.edge_io.specs.Causes.{Rose};

use std::alloc::{AllocError, Global};
use std::marker::Model;

/// Which calls of an edge in memory fail, by their numbers from 1, and how many were made and failed.
#[derive(Drop)]
pub struct Calls {
    fails: Vec<u32>,
    made: u64,
    failed: u64,
}

impl Model for Calls {
    ghost use Rattle.edge_io.specs.Calls.{Tally};

    ghost Value = { Tally };

    ghost view = { λ c. record { fails = c.fails.items; made = c.made; failed = c.failed } };
}

impl Calls {
    /// No call was made yet.
    pub fn new(alloc: Global, fails: &[u32]) -> Result<Calls, AllocError>
        ensures value { IfOk result (λ c. c ≡ record { fails = fails.now; made = 0; failed = 0 }) }
    {
        Ok(Calls {
            fails: fails.to_vec(alloc)?,
            made: 0,
            failed: 0,
        })
    }

    pub fn failed(&self) -> u64
        ensures value { result ≡ self.now.failed }
    {
        self.failed
    }

    /// Counts a call, and says whether it is one of those that fail.
    pub fn count_call(&mut self) -> bool
        ensures listed { result ≡ fails_next self.old }
        ensures made { self.new.made ≡ one_more self.old.made }
        ensures failed { self.new.failed ≡ self.old.failed }
        ensures fails { self.new.fails ≡ self.old.fails }
    {
        self.made = self.made.saturating_add(1);
        let call = self.made;
        self.fails.iter().any(|n| u64::from(*n) == call)
    }

    /// Counts a failure.
    pub fn count_fault(&mut self)
        ensures failed { self.new.failed ≡ one_more self.old.failed }
        ensures rose { Rose self.old.failed self.new.failed }
        ensures later { self.old.failed ≤ self.new.failed }
        ensures made { self.new.made ≡ self.old.made }
        ensures fails { self.new.fails ≡ self.old.fails }
    {
        self.failed = self.failed.saturating_add(1);
    }
}
