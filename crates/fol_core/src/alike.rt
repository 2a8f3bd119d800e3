ghost use Rattle.std.specs.Prelude.{◌≡◌, IsTrue, ◌↔◌, Contains};

use crate::ident::same_ident;
use crate::sent::{Sent, Term};

/// Whether the two are one sentence: the same tree, with the same identifiers and the parts in the same order.
#[cycle(same)]
pub fn same(s: &Sent, t: &Sent) -> bool
    ensures value { IsTrue result ↔ (s.now ≡ t.now) }
{
    match (s, t) {
        (Sent::Atom(p, ts), Sent::Atom(q, us)) => {
            same_ident(p, q) && same_terms(ts.as_slice(), us.as_slice())
        }
        (Sent::Eq(a, b), Sent::Eq(c, d)) => same_term(a, c) && same_term(b, d),
        (Sent::Bottom, Sent::Bottom) => true,
        (Sent::Not(a), Sent::Not(b)) => same(a.get(), b.get()),
        (Sent::And(a), Sent::And(b)) => same_all(a.as_slice(), b.as_slice()),
        (Sent::Or(a), Sent::Or(b)) => same_all(a.as_slice(), b.as_slice()),
        (Sent::If(a, b), Sent::If(c, d)) => same(a.get(), c.get()) && same(b.get(), d.get()),
        (Sent::Iff(a, b), Sent::Iff(c, d)) => same(a.get(), c.get()) && same(b.get(), d.get()),
        (Sent::All(x, a), Sent::All(y, b)) => same_ident(x, y) && same(a.get(), b.get()),
        (Sent::Ex(x, a), Sent::Ex(y, b)) => same_ident(x, y) && same(a.get(), b.get()),
        _ => false,
    }
}

#[cycle(same)]
fn same_all(a: &[Sent], b: &[Sent]) -> bool
    ensures value { IsTrue result ↔ (a.now ≡ b.now) }
{
    if a.len() != b.len() {
        return false;
    }
    for i in 0..a.len() {
        if !same(&a[i], &b[i]) {
            return false;
        }
    }
    true
}

/// Whether the two are one term.
#[cycle(terms)]
pub fn same_term(a: &Term, b: &Term) -> bool
    ensures value { IsTrue result ↔ (a.now ≡ b.now) }
{
    match (a, b) {
        (Term::Var(x), Term::Var(y)) => same_ident(x, y),
        (Term::Name(m), Term::Name(n)) => same_ident(m, n),
        (Term::App(f, ts), Term::App(g, us)) => {
            same_ident(f, g) && same_terms(ts.as_slice(), us.as_slice())
        }
        _ => false,
    }
}

#[cycle(terms)]
fn same_terms(a: &[Term], b: &[Term]) -> bool
    ensures value { IsTrue result ↔ (a.now ≡ b.now) }
{
    if a.len() != b.len() {
        return false;
    }
    for i in 0..a.len() {
        if !same_term(&a[i], &b[i]) {
            return false;
        }
    }
    true
}

/// Whether the sentence is one of these. It takes no memory.
pub fn contains(sentences: &[Sent], s: &Sent) -> bool
    ensures value { IsTrue result ↔ Contains sentences.now s.now }
{
    sentences.iter().any(|one| same(one, s))
}
