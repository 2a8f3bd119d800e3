ghost use Rattle.std.specs.Prelude.{◌≡◌, [], ◌∷◌, ◌++◌, ◌<◌, ◌≤◌, length, take, IfOk};
ghost use Rattle.std.specs.List.{list_any};
ghost use Rattle.tableau_laws.specs.Branch.{stands as stands_on, same_signed};
ghost use Rattle.tableau_branch.specs.inside.Index.{bucket_of, is_at};

use crate::places::Places;
use crate::trail::Trail;
use crate::weight::weight_of;
use fol_core::{Sent, same};
use std::alloc::{AllocError, Global};
use std::marker::Model;
use tableau_laws::Literal;

const BUCKETS: usize = 4096;

/// A trail, with buckets by which what stands on it is found.
#[derive(Debug, Drop)]
pub(crate) struct Indexed {
    trail: Trail,
    buckets: Vec<Places>,
}

impl Model for Indexed {
    ghost use Rattle.std.specs.Prelude.{List};
    ghost use Rattle.std.specs.Coded.{codes};
    ghost use Rattle.fol_core.specs.contracts.sent.Sent as sentences;
    ghost use Rattle.tableau_laws.specs.declared.literal.Literal.{Literal as Signed};
    ghost use Rattle.tableau_branch.specs.inside.Index.{IsIndexed};

    ghost Value = { List Signed };

    ghost coded = { Prim.hlevel (codes, sentences.the_row.coded) };

    ghost view = { λ t. t.trail };

    ghost invariant = { λ t. IsIndexed t.trail t.buckets.items };
}

#[tactic(auto, unfolding(crate::specs::inside::Index::bucket_of))]
fn bucket(holds: bool, s: &Sent) -> usize
    ensures value { result ≡ bucket_of (record { holds = holds; sentence = s.now }) }
    ensures below { result < 4096 }
{
    weight_of(holds, s) as usize % BUCKETS
}

fn is_it(item: &Literal, holds: bool, s: &Sent) -> bool
    ensures value { result ≡ same_signed (record { holds = holds; sentence = s.now }) item.now }
{
    if holds {
        item.holds && same(&item.sentence, s)
    } else {
        !item.holds && same(&item.sentence, s)
    }
}

/// Whether the item at this place is the sentence with this sign.
fn is_there(items: &[Literal], place: usize, holds: bool, s: &Sent) -> bool
    ensures value { result ≡ is_at items.now (record { holds = holds; sentence = s.now }) place }
{
    place < items.len() && is_it(&items[place], holds, s)
}

/// Whether the item at one of these places is the sentence with this sign.
fn is_in(items: &[Literal], places: &[usize], holds: bool, s: &Sent) -> bool
    ensures value { result ≡ list_any (is_at items.now (record { holds = holds; sentence = s.now })) places.now }
{
    places.iter().any(|place| is_there(items, *place, holds, s))
}

impl Indexed {
    /// The empty trail.
    pub(crate) fn new(alloc: Global) -> Result<Indexed, AllocError>
        ensures empty { IfOk result (λ trail. trail ≡ []) }
    {
        let mut buckets = Vec::new(alloc);
        for _ in 0..BUCKETS {
            buckets.push(Places::new(alloc))?;
        }
        Ok(Indexed {
            trail: Trail::new(alloc),
            buckets,
        })
    }

    /// What stands on the trail, in order.
    pub(crate) fn as_slice(&self) -> &[Literal]
        ensures value { result.now ≡ self.now }
    {
        self.trail.as_slice()
    }

    /// The mark of this place.
    pub(crate) fn mark(&self) -> u64
        ensures value { result ≡ length self.now }
    {
        self.trail.mark()
    }

    /// Whether this sentence stands on the trail with this sign.
    pub(crate) fn stands(&self, holds: bool, s: &Sent) -> bool
        ensures value { result ≡ stands_on self.now (record { holds = holds; sentence = s.now }) }
    {
        let items = self.trail.as_slice();
        let bucket = &self.buckets[bucket(holds, s)];
        is_in(items, bucket.as_slice(), holds, s)
    }

    /// The trail with the item last.
    pub(crate) fn push(self, item: Literal) -> Result<Indexed, AllocError>
        ensures value { IfOk result (λ trail. trail ≡ self ++ item ∷ []) }
    {
        let place = self.trail.as_slice().len();
        let at = bucket(item.holds, &item.sentence);
        let Indexed {
            mut trail,
            mut buckets,
        } = self;
        buckets[at].add(place)?;
        match trail.push(item) {
            Ok(()) => Ok(Indexed { trail, buckets }),
            Err((refused, _)) => Err(refused),
        }
    }

    /// Leaves the first `mark` items.
    pub(crate) fn undo(&mut self, mark: u64)
        requires there { mark ≤ length self.old }
        ensures value { self.new ≡ take mark self.old }
    {
        while self.trail.mark() > mark {
            let before = self.trail.mark() - 1;
            let last = &self.trail.as_slice()[before as usize];
            let at = bucket(last.holds, &last.sentence);
            self.buckets[at].pop();
            self.trail.undo(before);
        }
    }
}
