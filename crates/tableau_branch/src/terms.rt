ghost use Rattle.std.specs.Prelude.{◌≡◌, ◌++◌, OnOk};
ghost use Rattle.std.specs.List.{flat_map};
ghost use Rattle.fol_core.specs.Alike.{same_term as same};
ghost use Rattle.tableau_laws.specs.Terms.{parts_of_term};
ghost use Rattle.tableau_laws.specs.Branch.{all_terms_in, is_one_of};
ghost use Rattle.tableau_branch.specs.inside.Gathered.{with_one, gathered};

use fol_core::{Sent, Term, copy_term, is_closed_term, same_term};
use std::alloc::{AllocError, Global};

/// Whether the two are one term.
pub(crate) fn is_term(a: &Term, b: &Term) -> bool
    ensures value { result ≡ same a.now b.now }
{
    same_term(a, b)
}

/// Whether the term is one of these.
pub(crate) fn is_among(term: &Term, terms: &[Term]) -> bool
    ensures value { result ≡ is_one_of term.now terms.now }
{
    terms.iter().any(|one| is_term(one, term))
}

/// Puts the term last, where it is ground and isn't there yet.
fn add_term(alloc: Global, terms: &mut Vec<Term>, term: &Term) -> Result<(), AllocError>
    ensures ok { OnOk result (terms.new.items ≡ with_one terms.old.items term.now) }
{
    if is_closed_term(term) && !is_among(term, terms.as_slice()) {
        terms.push(copy_term(alloc, term)?)?;
    }
    Ok(())
}

/// The term and the terms in it.
#[cycle(gather_term)]
fn gather_term(alloc: Global, terms: &mut Vec<Term>, term: &Term) -> Result<(), AllocError>
    ensures ok { OnOk result (terms.new.items ≡ gathered terms.old.items (parts_of_term term.now)) }
{
    add_term(alloc, terms, term)?;
    match term {
        Term::Var(_) | Term::Name(_) => Ok(()),
        Term::App(_, args) => gather_terms(alloc, terms, args.as_slice()),
    }
}

#[cycle(gather_term)]
fn gather_terms(alloc: Global, terms: &mut Vec<Term>, args: &[Term]) -> Result<(), AllocError>
    ensures ok { OnOk result (terms.new.items ≡ gathered terms.old.items (flat_map parts_of_term args.now)) }
{
    for arg in args {
        gather_term(alloc, terms, arg)?;
    }
    Ok(())
}

/// Those of two terms.
fn gather_pair(alloc: Global, terms: &mut Vec<Term>, a: &Term, b: &Term) -> Result<(), AllocError>
    ensures ok { OnOk result (terms.new.items ≡ gathered terms.old.items (parts_of_term a.now ++ parts_of_term b.now)) }
{
    gather_term(alloc, terms, a)?;
    gather_term(alloc, terms, b)
}

/// The terms of the sentence, from left to right.
#[cycle(gather)]
#[tactic(auto, using(crate::proofs::Gathering::terms_and, crate::proofs::Gathering::terms_or))]
pub(crate) fn gather(alloc: Global, terms: &mut Vec<Term>, s: &Sent) -> Result<(), AllocError>
    ensures ok { OnOk result (terms.new.items ≡ gathered terms.old.items (all_terms_in s.now)) }
{
    match s {
        Sent::Atom(_, args) => gather_terms(alloc, terms, args.as_slice()),
        Sent::Eq(a, b) => gather_pair(alloc, terms, a, b),
        Sent::Bottom => Ok(()),
        Sent::Not(p) | Sent::All(_, p) | Sent::Ex(_, p) => gather(alloc, terms, p.get()),
        Sent::And(parts) => gather_parts(alloc, terms, parts.as_slice()),
        Sent::Or(parts) => gather_parts(alloc, terms, parts.as_slice()),
        Sent::If(p, q) => {
            gather(alloc, terms, p.get())?;
            gather(alloc, terms, q.get())
        }
        Sent::Iff(p, q) => {
            gather(alloc, terms, p.get())?;
            gather(alloc, terms, q.get())
        }
    }
}

#[cycle(gather)]
fn gather_parts(alloc: Global, terms: &mut Vec<Term>, parts: &[Sent]) -> Result<(), AllocError>
    ensures ok { OnOk result (terms.new.items ≡ gathered terms.old.items (flat_map all_terms_in parts.now)) }
{
    for part in parts {
        gather(alloc, terms, part)?;
    }
    Ok(())
}
