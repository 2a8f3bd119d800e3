ghost use Rattle.std.specs.Prelude.{◌≡◌, ◌∷◌, ◌++◌, [], None, Some, IfOk, MatchOption, OnOk, OnErr};
ghost use Rattle.std.specs.Str.{bytes_eq};
ghost use Rattle.edge_io.specs.MemShelves.{CountsGet, text_under};
ghost use Rattle.edge_io.specs.Shelves.{Answers, HasShelfCause, IsWithinLimit};

use crate::calls::Calls;
use crate::shelf::TEXT_LIMIT;
use crate::{Bytes, Shelf, ShelfFault};
use lists::Listed;
use std::alloc::{AllocError, Global};
use std::marker::Model;

/// A text and the name that it stands under.
#[derive(Debug, Drop)]
pub struct Labelled {
    pub name: Bytes,
    pub text: Bytes,
}

/// Texts in memory.
#[derive(Drop)]
pub struct MemShelf {
    held: Listed<Labelled>,
    calls: Calls,
}

impl Model for MemShelf {
    ghost use Rattle.edge_io.specs.MemShelves.{MemTexts};

    ghost Value = { MemTexts };

    ghost view = { λ s. record { held = s.held; calls = s.calls } };
}

impl MemShelf {
    /// Holds no text yet. The calls of `get` with the numbers `fails`, counted from 1, fail.
    pub fn new(alloc: Global, fails: &[u32]) -> Result<MemShelf, AllocError>
        ensures value { IfOk result (λ s. s ≡ record {
          held = [];
          calls = record { fails = fails.now; made = 0; failed = 0 };
        }) }
    {
        Ok(MemShelf {
            held: Listed::new(alloc),
            calls: Calls::new(alloc, fails)?,
        })
    }

    /// Puts a text under the name, where it is found unless one stands under that name already.
    /// Where memory is refused, the shelf stays as it was.
    pub fn put(&mut self, alloc: Global, name: &[u8], text: &[u8]) -> Result<(), AllocError>
        ensures ok { OnOk result (self.new.held ≡ self.old.held ++ record { name = name.now; text = text.now } ∷ []) }
        ensures err { OnErr result (self.new.held ≡ self.old.held) }
        ensures calls { self.new.calls ≡ self.old.calls }
    {
        let name = Bytes::from_slice(alloc, name)?;
        let text = Bytes::from_slice(alloc, text)?;
        self.held.add(Labelled { name, text })
    }

    /// How many calls failed.
    pub fn failed(&self) -> u64
        ensures value { result ≡ self.now.calls.failed }
    {
        self.calls.failed()
    }
}

impl Shelf for MemShelf {
    ghost texts = { λ s. Some (text_under s.held) };

    ghost faults = { λ s. s.calls.failed };

    ghost same_shelf = { λ _ _. Unit {0} };

    ghost shelf_refl = { λ _. tt };

    ghost shelf_trans = { λ _ _ _ _ _. tt };

    fn get(&mut self, alloc: Global, name: &Bytes) -> Result<Option<Bytes>, ShelfFault>
        ensures answer { Answers (Some (text_under self.old.held)) name.now result }
        ensures limit { IsWithinLimit result }
        ensures texts { Some (text_under self.new.held) ≡ Some (text_under self.old.held) }
        ensures cause { HasShelfCause self.old.calls.failed self.new.calls.failed result }
        ensures place { Unit {0} }
        ensures calls { CountsGet self.old.calls self.new.calls result }
        ensures held { self.new.held ≡ self.old.held }
    {
        if self.calls.count_call() {
            self.calls.count_fault();
            return Err(ShelfFault::Failed);
        }
        match find_text(self.held.as_slice(), name.as_slice()) {
            None => Ok(None),
            Some(text) if text.len() > TEXT_LIMIT => Err(ShelfFault::TooLong),
            Some(text) => match Bytes::from_slice(alloc, text.as_slice()) {
                Ok(copied) => Ok(Some(copied)),
                Err(AllocError) => Err(ShelfFault::Memory),
            },
        }
    }
}

/// The text under the name.
#[tactic(auto, using(crate::proofs::Labels::found_here, crate::proofs::Labels::not_here, crate::proofs::Labels::none_left))]
fn find_text<'a>(held: &'a [Labelled], name: &[u8]) -> Option<&'a Bytes>
    ensures value { MatchOption result (text_under held.now name.now ≡ None) (λ text. text_under held.now name.now ≡ Some text.now) }
{
    for label in held {
        if is_under(label, name) {
            return Some(&label.text);
        }
    }
    None
}

/// Whether the text stands under the name.
fn is_under(label: &Labelled, name: &[u8]) -> bool
    ensures value { result ≡ bytes_eq label.now.name name.now }
{
    label.name.as_slice() == name
}
