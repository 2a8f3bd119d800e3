ghost use Rattle.std.specs.Prelude.{◌≡◌, IfOk, [], length};
ghost use Rattle.std.specs.Ordering.{nat_cmp};
ghost use Rattle.std.specs.BTreeMap.{get};
ghost use Rattle.taut_con.specs.Gathered.{is_among, with_one};
ghost use Rattle.taut_con.specs.inside.Digests as digests;
ghost use Rattle.taut_con.specs.inside.Indexed.{IsLinked, last_with, or_zero};

use crate::digest::digest;
use fol_core::{Sent, Sents, copy, same};
use lists::Listed;
use std::alloc::{AllocError, Global};
use std::collections::BTreeMap;
use std::marker::Model;

/// Sentences, each once, in the order in which they came. Contracts see them as the list of the sentences. One among
/// them is found by its digest, so that many are told apart in little time; it is compared with those alone that have its
/// digest.
#[derive(Drop)]
pub(crate) struct Distinct {
    sentences: Sents,
    /// For each sentence the number, from 1, of the last one before it that has its digest, or 0.
    earlier: Vec<usize>,
    /// For each digest that a sentence has the number, from 1, of the last one that has it.
    latest: BTreeMap<u64, usize>,
}

impl Model for Distinct {
    ghost use Rattle.std.specs.Prelude.{List};
    ghost use Rattle.fol_core.specs.declared.sent.Sent.{Sent as Sentence};
    ghost use Rattle.taut_con.specs.inside.Indexed.{IsIndexed};
    ghost use Rattle.fol_core.specs.contracts.sent.Sent as sentence_row;
    ghost use Rattle.std.specs.Coded.{codes};

    ghost Value = { List Sentence };

    ghost coded = { Prim.hlevel (codes, sentence_row.the_row.coded) };

    ghost view = { λ d. d.sentences };

    ghost invariant = { λ d. IsIndexed d.sentences d.earlier.items d.latest };
}

impl Distinct {
    /// No sentences.
    pub(crate) fn new(alloc: Global) -> Distinct
        ensures empty { result ≡ [] }
    {
        Distinct {
            sentences: Listed::new(alloc),
            earlier: Vec::new(alloc),
            latest: BTreeMap::new(alloc),
        }
    }

    /// These with a copy of the sentence last, unless it is among them.
    pub(crate) fn with(self, alloc: Global, s: &Sent) -> Result<Distinct, AllocError>
        ensures added { IfOk result (λ more. more ≡ with_one self s.now) }
    {
        let Distinct {
            mut sentences,
            mut earlier,
            mut latest,
        } = self;
        let own = digest(s);
        let number = latest_with(&latest, own);
        if is_found(sentences.as_slice(), earlier.as_slice(), number, s) {
            return Ok(Distinct {
                sentences,
                earlier,
                latest,
            });
        }
        sentences.add(copy(alloc, s)?)?;
        earlier.push(number)?;
        latest.insert(own, sentences.len())?;
        Ok(Distinct {
            sentences,
            earlier,
            latest,
        })
    }

    /// The sentences in their order.
    pub(crate) fn into_sents(self) -> Sents
        ensures value { result ≡ self }
    {
        let Distinct { sentences, .. } = self;
        sentences
    }
}

/// The number of the last sentence that has the digest, or 0.
fn latest_with(latest: &BTreeMap<u64, usize>, digest: u64) -> usize
    ensures value { result ≡ or_zero (get nat_cmp latest.now digest) }
{
    match latest.get(&digest) {
        Some(number) => *number,
        None => 0,
    }
}

/// Whether the sentence is one of these. The search goes back over those that have its digest, of which this is the
/// number of the last.
fn is_found(sentences: &[Sent], earlier: &[usize], last: usize, s: &Sent) -> bool
    requires linked { IsLinked sentences.now earlier.now }
    requires last { last ≡ last_with (digests.digest s.now) sentences.now (length sentences.now) }
    ensures value { result ≡ is_among sentences.now s.now }
{
    let mut number = last;
    while number > 0 {
        if same(&sentences[number - 1], s) {
            return true;
        }
        number = earlier[number - 1];
    }
    false
}
