ghost use Rattle.std.specs.Prelude.{◌≡◌, IfOk, ◌∷◌, [], ◌++◌};
ghost use Rattle.std.specs.List.{flat_map};
ghost use Rattle.taut_con.specs.Letters.{letter_occurrences, letters};
ghost use Rattle.taut_con.specs.Gathered.{with_each};

use crate::distinct::Distinct;
use fol_core::{Sent, Sents};
use std::alloc::{AllocError, Global};

/// The letters of the sentences, in the order of their first occurrence.
#[tactic(auto, using(crate::proofs::Gathering::gathered))]
pub fn letters_of(alloc: Global, sentences: &Sents) -> Result<Sents, AllocError>
    ensures letters { IfOk result (λ ls. ls ≡ letters sentences.now) }
{
    let found = gather_all(alloc, sentences.as_slice(), Distinct::new(alloc))?;
    Ok(found.into_sents())
}

/// The letters of premises and a goal, those of the premises first.
#[tactic(auto, using(crate::proofs::Gathering::of_argument))]
pub(crate) fn letters_of_argument(
    alloc: Global,
    premises: &[Sent],
    goal: &Sent,
) -> Result<Sents, AllocError>
    ensures letters { IfOk result (λ ls. ls ≡ letters (premises.now ++ goal.now ∷ [])) }
{
    let found = gather_all(alloc, premises, Distinct::new(alloc))?;
    let all = gather(alloc, goal, found)?;
    Ok(all.into_sents())
}

/// These with the letters of the sentence that aren't among them.
#[cycle(gather)]
#[tactic(auto, using(crate::proofs::Equations::letters_atom, crate::proofs::Equations::letters_eq, crate::proofs::Equations::letters_bottom, crate::proofs::Equations::letters_not, crate::proofs::Equations::letters_and, crate::proofs::Equations::letters_or, crate::proofs::Equations::letters_if, crate::proofs::Equations::letters_iff, crate::proofs::Equations::letters_all, crate::proofs::Equations::letters_ex, crate::proofs::Gathering::each_append))]
fn gather(alloc: Global, s: &Sent, found: Distinct) -> Result<Distinct, AllocError>
    ensures gathered { IfOk result (λ more. more ≡ with_each found (letter_occurrences s.now)) }
{
    match s {
        Sent::Atom(_, _) | Sent::Eq(_, _) | Sent::All(_, _) | Sent::Ex(_, _) => found.with(
            alloc, s,
        ),
        Sent::Bottom => Ok(found),
        Sent::Not(a) => gather(alloc, a.get(), found),
        Sent::And(parts) | Sent::Or(parts) => gather_all(alloc, parts.as_slice(), found),
        Sent::If(a, b) | Sent::Iff(a, b) => {
            let left = gather(alloc, a.get(), found)?;
            gather(alloc, b.get(), left)
        }
    }
}

#[cycle(gather)]
#[tactic(auto, using(crate::proofs::Gathering::each_more))]
fn gather_all(alloc: Global, sentences: &[Sent], found: Distinct) -> Result<Distinct, AllocError>
    ensures gathered { IfOk result (λ more. more ≡ with_each found (flat_map letter_occurrences sentences.now)) }
{
    let mut all = found;
    for s in sentences {
        all = gather(alloc, s, all)?;
    }
    Ok(all)
}
