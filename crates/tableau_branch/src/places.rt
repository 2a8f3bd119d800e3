ghost use Rattle.std.specs.Prelude.{◌≡◌, [], ◌∷◌, ◌++◌, ◌-◌, length, take, OnOk, OnErr};

use std::alloc::{AllocError, Global};
use std::marker::Model;

/// Positions on a trail, in ascending order.
#[derive(Debug, Drop)]
pub(crate) struct Places {
    items: Vec<usize>,
}

impl Model for Places {
    ghost use Rattle.std.specs.Prelude.{List, ℕ};
    ghost use Rattle.std.specs.Coded.{coded_list, coded_ℕ};

    ghost Value = { List ℕ };

    ghost coded = { coded_list coded_ℕ };

    ghost view = { λ p. p.items.items };
}

impl Places {
    pub(crate) fn new(alloc: Global) -> Places
        ensures empty { result ≡ [] }
    {
        Places {
            items: Vec::new(alloc),
        }
    }

    pub(crate) fn as_slice(&self) -> &[usize]
        ensures value { result.now ≡ self.now }
    {
        self.items.as_slice()
    }

    pub(crate) fn add(&mut self, place: usize) -> Result<(), AllocError>
        ensures ok { OnOk result (self.new ≡ self.old ++ place ∷ []) }
        ensures err { OnErr result (self.new ≡ self.old) }
    {
        self.items.push(place)?;
        Ok(())
    }

    /// Takes the last away.
    pub(crate) fn pop(&mut self)
        ensures { self.new ≡ take (length self.old - 1) self.old }
    {
        let _last = self.items.pop();
    }
}
