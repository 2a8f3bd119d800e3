ghost use Rattle.std.specs.Prelude.{◌≡◌, IfOk};

use crate::sent::{Sent, Sents, Term, Terms};
use lists::{Listed, Nonempty, Several};
use sqlite_items::Boxed;
use std::alloc::{AllocError, Global};

/// The same sentence once more.
#[cycle(copy)]
pub fn copy(alloc: Global, s: &Sent) -> Result<Sent, AllocError>
    ensures value { IfOk result (λ copied. copied ≡ s.now) }
{
    match s {
        Sent::Atom(p, terms) => Ok(Sent::Atom(
            p.copied(alloc)?,
            copy_terms(alloc, terms.as_slice())?,
        )),
        Sent::Eq(a, b) => Ok(Sent::Eq(copy_term(alloc, a)?, copy_term(alloc, b)?)),
        Sent::Bottom => Ok(Sent::Bottom),
        Sent::Not(a) => Ok(Sent::Not(copy_boxed(alloc, a.get())?)),
        Sent::And(parts) => Ok(Sent::And(Several::of(copy_all(alloc, parts.as_slice())?))),
        Sent::Or(parts) => Ok(Sent::Or(Several::of(copy_all(alloc, parts.as_slice())?))),
        Sent::If(a, b) => Ok(Sent::If(copy_boxed(alloc, a.get())?, copy_boxed(alloc, b.get())?)),
        Sent::Iff(a, b) => Ok(Sent::Iff(copy_boxed(alloc, a.get())?, copy_boxed(alloc, b.get())?)),
        Sent::All(x, a) => Ok(Sent::All(x.copied(alloc)?, copy_boxed(alloc, a.get())?)),
        Sent::Ex(x, a) => Ok(Sent::Ex(x.copied(alloc)?, copy_boxed(alloc, a.get())?)),
    }
}

#[cycle(copy)]
fn copy_boxed(alloc: Global, s: &Sent) -> Result<Boxed<Sent>, AllocError>
    ensures value { IfOk result (λ copied. copied ≡ s.now) }
{
    let whole = copy(alloc, s)?;
    Boxed::new(alloc, whole)
}

#[cycle(copy)]
fn copy_all(alloc: Global, parts: &[Sent]) -> Result<Sents, AllocError>
    ensures value { IfOk result (λ copied. copied ≡ parts.now) }
{
    let mut copies: Sents = Listed::new(alloc);
    for part in parts {
        copies.add(copy(alloc, part)?)?;
    }
    Ok(copies)
}

#[cycle(copy_term)]
fn copy_terms(alloc: Global, terms: &[Term]) -> Result<Terms, AllocError>
    ensures value { IfOk result (λ copied. copied ≡ terms.now) }
{
    let mut copies: Terms = Listed::new(alloc);
    for term in terms {
        copies.add(copy_term(alloc, term)?)?;
    }
    Ok(copies)
}

/// The same term once more.
#[cycle(copy_term)]
pub fn copy_term(alloc: Global, term: &Term) -> Result<Term, AllocError>
    ensures value { IfOk result (λ copied. copied ≡ term.now) }
{
    match term {
        Term::Var(x) => Ok(Term::Var(x.copied(alloc)?)),
        Term::Name(n) => Ok(Term::Name(n.copied(alloc)?)),
        Term::App(f, args) => Ok(Term::App(
            f.copied(alloc)?,
            Nonempty::of(copy_terms(alloc, args.as_slice())?),
        )),
    }
}
