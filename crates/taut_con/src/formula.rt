ghost use Rattle.std.specs.Prelude.{IfOk};
ghost use Rattle.taut_con.specs.Compiled.{StandsFor, StandForEach};

use crate::values::place_of;
use fol_core::Sent;
use lists::Listed;
use sqlite_items::Boxed;
use std::alloc::{AllocError, Global};

/// A sentence as truth tables see it: its letters are the places, from 0, of a list of letters.
#[derive(Debug, Drop)]
pub(crate) enum Formula {
    Letter(usize),
    Falsum,
    Not(Boxed<Formula>),
    And(Formulas),
    Or(Formulas),
    If(Boxed<Formula>, Boxed<Formula>),
    Iff(Boxed<Formula>, Boxed<Formula>),
}

/// Formulas in their order.
pub(crate) type Formulas = Listed<Formula>;

/// The sentence as a formula over these letters.
#[cycle(compile)]
#[tactic(auto, using(crate::proofs::Compiling::for_letter, crate::proofs::Equations::value_atom, crate::proofs::Equations::value_eq, crate::proofs::Equations::value_all, crate::proofs::Equations::value_ex, crate::proofs::Compiling::for_bottom, crate::proofs::Compiling::for_not, crate::proofs::Compiling::for_and, crate::proofs::Compiling::for_or, crate::proofs::Compiling::for_if, crate::proofs::Compiling::for_iff))]
pub(crate) fn compile(alloc: Global, s: &Sent, letters: &[Sent]) -> Result<Formula, AllocError>
    ensures stands { IfOk result (λ f. StandsFor letters.now s.now f) }
{
    match s {
        Sent::Atom(_, _) | Sent::Eq(_, _) | Sent::All(_, _) | Sent::Ex(_, _) => {
            Ok(Formula::Letter(place_of(letters, s)))
        }
        Sent::Bottom => Ok(Formula::Falsum),
        Sent::Not(a) => Ok(Formula::Not(compile_boxed(alloc, a.get(), letters)?)),
        Sent::And(parts) => Ok(Formula::And(compile_all(alloc, parts.as_slice(), letters)?)),
        Sent::Or(parts) => Ok(Formula::Or(compile_all(alloc, parts.as_slice(), letters)?)),
        Sent::If(a, b) => Ok(Formula::If(
            compile_boxed(alloc, a.get(), letters)?,
            compile_boxed(alloc, b.get(), letters)?,
        )),
        Sent::Iff(a, b) => Ok(Formula::Iff(
            compile_boxed(alloc, a.get(), letters)?,
            compile_boxed(alloc, b.get(), letters)?,
        )),
    }
}

#[cycle(compile)]
fn compile_boxed(alloc: Global, s: &Sent, letters: &[Sent]) -> Result<Boxed<Formula>, AllocError>
    ensures stands { IfOk result (λ f. StandsFor letters.now s.now f) }
{
    let whole = compile(alloc, s, letters)?;
    Boxed::new(alloc, whole)
}

/// The sentences as formulas over these letters.
#[cycle(compile)]
#[tactic(auto, using(crate::proofs::Compiling::each_none, crate::proofs::Compiling::each_more))]
pub(crate) fn compile_all(
    alloc: Global,
    sentences: &[Sent],
    letters: &[Sent],
) -> Result<Formulas, AllocError>
    ensures stand { IfOk result (λ fs. StandForEach letters.now sentences.now fs) }
{
    let mut formulas: Formulas = Listed::new(alloc);
    for s in sentences {
        formulas.add(compile(alloc, s, letters)?)?;
    }
    Ok(formulas)
}
