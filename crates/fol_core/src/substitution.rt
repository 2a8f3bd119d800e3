ghost use Rattle.std.specs.Prelude.{◌≡◌, ◌⊎◌, ◌&&◌, not, IsTrue, Ok, Err, IfOk, IfErr, map};
ghost use Rattle.std.specs.Str.{bytes_eq};
ghost use Rattle.fol_core.specs.Subst.{subst_closed_term, subst_where, subst_term};
ghost use Rattle.fol_core.specs.Closed.{closed_term};
ghost use Rattle.fol_core.specs.Size.{within_limits};
ghost use Rattle.fol_core.specs.declared.sent.SentFault.TheVariants.{Memory};

use crate::copies::copy_term;
use crate::ident::{Ident, same_ident};
use crate::sent::{Sent, SentFault, Sents, Term, Terms};
use crate::size::within;
use lists::{Listed, Nonempty, Several};
use sqlite_items::Boxed;
use std::alloc::{AllocError, Global};

/// The sentence with the term in the place of each free occurrence of the variable. The term is closed, so nothing is
/// captured. A result past the limits is refused.
pub fn subst(alloc: Global, s: &Sent, var: &Ident, term: &Term) -> Result<Sent, SentFault>
    requires { IsTrue (closed_term term.now) }
    ensures value { IfOk result (λ put. put ≡ subst_closed_term var.now term.now s.now) }
    ensures limits { IfOk result (λ put. within_limits put ≡ Ok tt) }
    ensures cause { IfErr result (λ e. (e ≡ Memory) ⊎ (within_limits (subst_closed_term var.now term.now s.now) ≡ Err e)) }
{
    match put_into(alloc, s, var, term, true) {
        Ok(whole) => {
            within(&whole)?;
            Ok(whole)
        }
        Err(_) => Err(SentFault::Memory),
    }
}

/// The sentence at a place where the variable is still free, or is not.
#[cycle(subst)]
#[tactic(auto, using(crate::proofs::Forms::subst_and, crate::proofs::Forms::subst_or))]
fn put_into(
    alloc: Global,
    s: &Sent,
    var: &Ident,
    term: &Term,
    free: bool,
) -> Result<Sent, AllocError>
    ensures value { IfOk result (λ put. put ≡ subst_where var.now term.now s.now free) }
{
    match s {
        Sent::Atom(p, terms) => Ok(Sent::Atom(
            p.copied(alloc)?,
            put_into_terms(alloc, terms.as_slice(), var, term, free)?,
        )),
        Sent::Eq(a, b) => Ok(Sent::Eq(
            put_into_term(alloc, a, var, term, free)?,
            put_into_term(alloc, b, var, term, free)?,
        )),
        Sent::Bottom => Ok(Sent::Bottom),
        Sent::Not(a) => Ok(Sent::Not(put_into_boxed(alloc, a.get(), var, term, free)?)),
        Sent::And(parts) => Ok(Sent::And(put_into_all(alloc, parts, var, term, free)?)),
        Sent::Or(parts) => Ok(Sent::Or(put_into_all(alloc, parts, var, term, free)?)),
        Sent::If(a, b) => Ok(Sent::If(
            put_into_boxed(alloc, a.get(), var, term, free)?,
            put_into_boxed(alloc, b.get(), var, term, free)?,
        )),
        Sent::Iff(a, b) => Ok(Sent::Iff(
            put_into_boxed(alloc, a.get(), var, term, free)?,
            put_into_boxed(alloc, b.get(), var, term, free)?,
        )),
        Sent::All(y, a) => Ok(Sent::All(
            y.copied(alloc)?,
            put_into_boxed(alloc, a.get(), var, term, stays_free(free, y, var))?,
        )),
        Sent::Ex(y, a) => Ok(Sent::Ex(
            y.copied(alloc)?,
            put_into_boxed(alloc, a.get(), var, term, stays_free(free, y, var))?,
        )),
    }
}

#[cycle(subst)]
fn put_into_boxed(
    alloc: Global,
    s: &Sent,
    var: &Ident,
    term: &Term,
    free: bool,
) -> Result<Boxed<Sent>, AllocError>
    ensures value { IfOk result (λ put. put ≡ subst_where var.now term.now s.now free) }
{
    let whole = put_into(alloc, s, var, term, free)?;
    Boxed::new(alloc, whole)
}

#[cycle(subst)]
fn put_into_all(
    alloc: Global,
    parts: &Several<Sent>,
    var: &Ident,
    term: &Term,
    free: bool,
) -> Result<Several<Sent>, AllocError>
    ensures value { IfOk result (λ put. put ≡ map (λ s. subst_where var.now term.now s free) parts.now) }
{
    let mut done: Sents = Listed::new(alloc);
    for part in parts.as_slice() {
        done.add(put_into(alloc, part, var, term, free)?)?;
    }
    Ok(Several::of(done))
}

#[cycle(put_term)]
fn put_into_terms(
    alloc: Global,
    terms: &[Term],
    var: &Ident,
    term: &Term,
    free: bool,
) -> Result<Terms, AllocError>
    ensures value { IfOk result (λ put. put ≡ map (subst_term var.now term.now free) terms.now) }
{
    let mut done: Terms = Listed::new(alloc);
    for one in terms {
        done.add(put_into_term(alloc, one, var, term, free)?)?;
    }
    Ok(done)
}

#[cycle(put_term)]
fn put_into_term(
    alloc: Global,
    within: &Term,
    var: &Ident,
    term: &Term,
    free: bool,
) -> Result<Term, AllocError>
    ensures value { IfOk result (λ put. put ≡ subst_term var.now term.now free within.now) }
{
    match within {
        Term::Var(y) => {
            if free && same_ident(y, var) {
                copy_term(alloc, term)
            } else {
                Ok(Term::Var(y.copied(alloc)?))
            }
        }
        Term::Name(m) => Ok(Term::Name(m.copied(alloc)?)),
        Term::App(f, args) => Ok(Term::App(
            f.copied(alloc)?,
            Nonempty::of(put_into_terms(alloc, args.as_slice(), var, term, free)?),
        )),
    }
}

/// Whether the variable is still free below a quantifier of `bound`.
pub(crate) fn stays_free(free: bool, bound: &Ident, var: &Ident) -> bool
    ensures value { result ≡ (free && not (bytes_eq bound.now var.now)) }
{
    free && !same_ident(bound, var)
}
