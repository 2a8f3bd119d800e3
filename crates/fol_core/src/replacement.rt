ghost use Rattle.std.specs.Prelude.{◌≡◌, ◌&&◌};
ghost use Rattle.fol_core.specs.Alike.{repl, repl_term, repl_inside, all_pairs, same_term as is_same};

use crate::alike::same_term;
use crate::ident::same_ident;
use crate::sent::{Sent, Term};

/// Whether the second sentence comes from the first by replacing some occurrences of the term `n` by `m`: none, all, or
/// any between. It takes no memory.
#[cycle(replaces)]
#[tactic(auto, using(crate::proofs::Replacing::repl_and, crate::proofs::Replacing::repl_or))]
pub fn replaces(s: &Sent, t: &Sent, n: &Term, m: &Term) -> bool
    ensures value { result ≡ repl n.now m.now s.now t.now }
{
    match (s, t) {
        (Sent::Atom(p, ts), Sent::Atom(q, us)) => {
            same_ident(p, q) && replaces_terms(ts.as_slice(), us.as_slice(), n, m)
        }
        (Sent::Eq(a, b), Sent::Eq(c, d)) => {
            replaces_term(a, c, n, m) && replaces_term(b, d, n, m)
        }
        (Sent::Bottom, Sent::Bottom) => true,
        (Sent::Not(a), Sent::Not(b)) => replaces(a.get(), b.get(), n, m),
        (Sent::And(a), Sent::And(b)) => replaces_all(a.as_slice(), b.as_slice(), n, m),
        (Sent::Or(a), Sent::Or(b)) => replaces_all(a.as_slice(), b.as_slice(), n, m),
        (Sent::If(a, b), Sent::If(c, d)) => {
            replaces(a.get(), c.get(), n, m) && replaces(b.get(), d.get(), n, m)
        }
        (Sent::Iff(a, b), Sent::Iff(c, d)) => {
            replaces(a.get(), c.get(), n, m) && replaces(b.get(), d.get(), n, m)
        }
        (Sent::All(x, a), Sent::All(y, b)) => {
            same_ident(x, y) && replaces(a.get(), b.get(), n, m)
        }
        (Sent::Ex(x, a), Sent::Ex(y, b)) => same_ident(x, y) && replaces(a.get(), b.get(), n, m),
        _ => false,
    }
}

#[cycle(replaces)]
fn replaces_all(a: &[Sent], b: &[Sent], n: &Term, m: &Term) -> bool
    ensures value { result ≡ all_pairs (repl n.now m.now) a.now b.now }
{
    if a.len() != b.len() {
        return false;
    }
    for i in 0..a.len() {
        if !replaces(&a[i], &b[i], n, m) {
            return false;
        }
    }
    true
}

#[cycle(replaces_term)]
fn replaces_terms(a: &[Term], b: &[Term], n: &Term, m: &Term) -> bool
    ensures value { result ≡ all_pairs (repl_term n.now m.now) a.now b.now }
{
    if a.len() != b.len() {
        return false;
    }
    for i in 0..a.len() {
        if !replaces_term(&a[i], &b[i], n, m) {
            return false;
        }
    }
    true
}

#[cycle(replaces_term)]
fn replaces_term(a: &Term, b: &Term, n: &Term, m: &Term) -> bool
    ensures value { result ≡ repl_term n.now m.now a.now b.now }
{
    are_these(a, n, b, m) || replaces_inside(a, b, n, m)
}

fn are_these(a: &Term, n: &Term, b: &Term, m: &Term) -> bool
    ensures value { result ≡ (is_same a.now n.now && is_same b.now m.now) }
{
    is_this(a, n) && is_this(b, m)
}

fn is_this(a: &Term, n: &Term) -> bool
    ensures value { result ≡ is_same a.now n.now }
{
    same_term(a, n)
}

/// Whether the two are of one form, with the same words, and the one's arguments come from the other's.
#[cycle(replaces_term)]
fn replaces_inside(a: &Term, b: &Term, n: &Term, m: &Term) -> bool
    ensures value { result ≡ repl_inside n.now m.now a.now b.now }
{
    match (a, b) {
        (Term::Var(x), Term::Var(y)) => same_ident(x, y),
        (Term::Name(c), Term::Name(d)) => same_ident(c, d),
        (Term::App(f, ts), Term::App(g, us)) => {
            same_ident(f, g) && replaces_terms(ts.as_slice(), us.as_slice(), n, m)
        }
        _ => false,
    }
}
