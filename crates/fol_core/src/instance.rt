ghost use Rattle.std.specs.Prelude.{◌≡◌, ◌↔◌, IsTrue, map, MatchOption, true};
ghost use Rattle.std.specs.Option.{option_copied};
ghost use Rattle.fol_core.specs.declared.sent.Term.{Term};
ghost use Rattle.fol_core.specs.declared.sent.Term.TheVariants.{Var};
ghost use Rattle.fol_core.specs.Statements.{ground};
ghost use Rattle.fol_core.specs.Put.{put};
ghost use Rattle.fol_core.specs.Subst.{subst_name, subst_closed_term, subst_where, subst_term};
ghost use Rattle.fol_core.specs.Naming.{term_where, found_in, first_term};

use crate::alike::same_term;
use crate::closed::is_closed_term;
use crate::ident::{Ident, same_ident};
use crate::sent::{Sent, Term};
use crate::substitution::stays_free;

/// What is put in: a name, or any term.
#[derive(Drop)]
enum Put<'a> {
    Name(&'a Ident),
    Term(&'a Term),
}

/// Whether `s` is the instance of `q` by the name `n`: `q` with `n` for each free `x`. The two are gone through side by
/// side, so it takes no memory and has no limit.
pub fn is_instance(q: &Sent, x: &Ident, n: &Ident, s: &Sent) -> bool
    ensures value { IsTrue result ↔ (s.now ≡ subst_name x.now n.now q.now) }
{
    is_instance_at(q, x, &Put::Name(n), true, s)
}

/// Whether `s` is the instance of `q` by the term `r`. It takes no memory.
pub fn is_instance_by(q: &Sent, x: &Ident, r: &Term, s: &Sent) -> bool
    ensures value { IsTrue result ↔ (s.now ≡ subst_closed_term x.now r.now q.now) }
{
    is_instance_at(q, x, &Put::Term(r), true, s)
}

/// The term that `s` has at the first free place of `x` in `q`, and none where there is no such place or no term there.
/// If `s` is any instance of `q`, it is the one by this term; without a term, it is the instance by each term.
pub fn instance_term<'a>(q: &Sent, x: &Ident, s: &'a Sent) -> Option<&'a Term>
    ensures alone { (r : Term) → s.now ≡ subst_closed_term x.now r q.now → MatchOption result ((m : Term) → s.now ≡ subst_closed_term x.now m q.now) (λ term. term.now ≡ r) }
    ensures read { option_copied result ≡ term_where x.now q.now true s.now }
{
    instance_term_at(q, x, true, s)
}

/// Whether `s` is an instance of `q` by some ground term. It takes no memory.
pub fn is_some_instance(q: &Sent, x: &Ident, s: &Sent) -> bool
    ensures value { IsTrue result ↔ ((r : Term) × IsTrue (ground r) × (s.now ≡ subst_closed_term x.now r q.now)) }
{
    match instance_term(q, x, s) {
        Some(term) => is_closed_instance(q, x, term, s),
        None => {
            // No term is read off, so any one does: the name that is spelled as the variable is at hand.
            x.form();
            is_instance(q, x, x, s)
        }
    }
}

fn is_closed_instance(q: &Sent, x: &Ident, r: &Term, s: &Sent) -> bool
    ensures value { IsTrue result ↔ (IsTrue (ground r.now) × (s.now ≡ subst_closed_term x.now r.now q.now)) }
{
    is_closed_term(r) && is_instance_by(q, x, r, s)
}

#[cycle(instance)]
#[tactic(auto, using(crate::proofs::Forms::subst_and, crate::proofs::Forms::subst_or))]
fn is_instance_at(q: &Sent, x: &Ident, put_in: &Put<'_>, free: bool, s: &Sent) -> bool
    ensures value { IsTrue result ↔ (s.now ≡ subst_where x.now (put put_in.now) q.now free) }
{
    match (q, s) {
        (Sent::Atom(p, ts), Sent::Atom(r, us)) => {
            same_ident(p, r)
                && are_instances_of_terms(ts.as_slice(), x, put_in, free, us.as_slice())
        }
        (Sent::Eq(a, b), Sent::Eq(c, d)) => {
            is_instance_of_term(a, x, put_in, free, c) && is_instance_of_term(b, x, put_in, free, d)
        }
        (Sent::Bottom, Sent::Bottom) => true,
        (Sent::Not(a), Sent::Not(b)) => is_instance_at(a.get(), x, put_in, free, b.get()),
        (Sent::And(a), Sent::And(b)) => are_instances(a.as_slice(), x, put_in, free, b.as_slice()),
        (Sent::Or(a), Sent::Or(b)) => are_instances(a.as_slice(), x, put_in, free, b.as_slice()),
        (Sent::If(a, b), Sent::If(c, d)) => {
            is_instance_at(a.get(), x, put_in, free, c.get())
                && is_instance_at(b.get(), x, put_in, free, d.get())
        }
        (Sent::Iff(a, b), Sent::Iff(c, d)) => {
            is_instance_at(a.get(), x, put_in, free, c.get())
                && is_instance_at(b.get(), x, put_in, free, d.get())
        }
        (Sent::All(y, a), Sent::All(z, b)) => {
            same_ident(y, z) && is_instance_at(a.get(), x, put_in, stays_free(free, y, x), b.get())
        }
        (Sent::Ex(y, a), Sent::Ex(z, b)) => {
            same_ident(y, z) && is_instance_at(a.get(), x, put_in, stays_free(free, y, x), b.get())
        }
        _ => false,
    }
}

#[cycle(instance)]
fn are_instances(qs: &[Sent], x: &Ident, put_in: &Put<'_>, free: bool, ss: &[Sent]) -> bool
    ensures value { IsTrue result ↔ (ss.now ≡ map (λ q. subst_where x.now (put put_in.now) q free) qs.now) }
{
    if qs.len() != ss.len() {
        return false;
    }
    for i in 0..qs.len() {
        if !is_instance_at(&qs[i], x, put_in, free, &ss[i]) {
            return false;
        }
    }
    true
}

#[cycle(instance_term)]
fn are_instances_of_terms(ts: &[Term], x: &Ident, put_in: &Put<'_>, free: bool, us: &[Term]) -> bool
    ensures value { IsTrue result ↔ (us.now ≡ map (subst_term x.now (put put_in.now) free) ts.now) }
{
    if ts.len() != us.len() {
        return false;
    }
    for i in 0..ts.len() {
        if !is_instance_of_term(&ts[i], x, put_in, free, &us[i]) {
            return false;
        }
    }
    true
}

#[cycle(instance_term)]
fn is_instance_of_term(t: &Term, x: &Ident, put_in: &Put<'_>, free: bool, u: &Term) -> bool
    ensures value { IsTrue result ↔ (u.now ≡ subst_term x.now (put put_in.now) free t.now) }
{
    match t {
        Term::Var(y) => {
            if free && same_ident(y, x) {
                is_put(put_in, u)
            } else {
                is_variable(y, u)
            }
        }
        Term::Name(m) => match u {
            Term::Name(k) => same_ident(k, m),
            _ => false,
        },
        Term::App(f, ts) => match u {
            Term::App(g, us) => {
                same_ident(g, f)
                    && are_instances_of_terms(ts.as_slice(), x, put_in, free, us.as_slice())
            }
            _ => false,
        },
    }
}

fn is_put(put_in: &Put<'_>, u: &Term) -> bool
    ensures value { IsTrue result ↔ (u.now ≡ put put_in.now) }
{
    match put_in {
        Put::Name(n) => match u {
            Term::Name(m) => same_ident(m, n),
            _ => false,
        },
        Put::Term(r) => same_term(u, r),
    }
}

fn is_variable(y: &Ident, u: &Term) -> bool
    ensures value { IsTrue result ↔ (u.now ≡ Var y.now) }
{
    match u {
        Term::Var(z) => same_ident(z, y),
        _ => false,
    }
}

#[cycle(naming)]
#[tactic(auto, using(crate::proofs::Naming::found_and, crate::proofs::Naming::found_or))]
fn instance_term_at<'a>(q: &Sent, x: &Ident, free: bool, s: &'a Sent) -> Option<&'a Term>
    ensures value { option_copied result ≡ term_where x.now q.now free s.now }
{
    match (q, s) {
        (Sent::Atom(_, ts), Sent::Atom(_, us)) => {
            instance_term_in_terms(ts.as_slice(), x, free, us.as_slice())
        }
        (Sent::Eq(a, b), Sent::Eq(c, d)) => match instance_term_in_term(a, x, free, c) {
            Some(term) => Some(term),
            None => instance_term_in_term(b, x, free, d),
        },
        (Sent::Not(a), Sent::Not(b)) => instance_term_at(a.get(), x, free, b.get()),
        (Sent::And(a), Sent::And(b)) => instance_term_in(a.as_slice(), x, free, b.as_slice()),
        (Sent::Or(a), Sent::Or(b)) => instance_term_in(a.as_slice(), x, free, b.as_slice()),
        (Sent::If(a, b), Sent::If(c, d)) => match instance_term_at(a.get(), x, free, c.get()) {
            Some(term) => Some(term),
            None => instance_term_at(b.get(), x, free, d.get()),
        },
        (Sent::Iff(a, b), Sent::Iff(c, d)) => match instance_term_at(a.get(), x, free, c.get()) {
            Some(term) => Some(term),
            None => instance_term_at(b.get(), x, free, d.get()),
        },
        (Sent::All(y, a), Sent::All(_, b)) => {
            instance_term_at(a.get(), x, stays_free(free, y, x), b.get())
        }
        (Sent::Ex(y, a), Sent::Ex(_, b)) => {
            instance_term_at(a.get(), x, stays_free(free, y, x), b.get())
        }
        _ => None,
    }
}

#[cycle(naming)]
fn instance_term_in<'a>(qs: &[Sent], x: &Ident, free: bool, ss: &'a [Sent]) -> Option<&'a Term>
    ensures value { option_copied result ≡ first_term (λ q s. term_where x.now q free s) qs.now ss.now }
{
    for i in 0..qs.len().min(ss.len()) {
        if let Some(term) = instance_term_at(&qs[i], x, free, &ss[i]) {
            return Some(term);
        }
    }
    None
}

#[cycle(found)]
fn instance_term_in_terms<'a>(
    ts: &[Term],
    x: &Ident,
    free: bool,
    us: &'a [Term],
) -> Option<&'a Term>
    ensures value { option_copied result ≡ first_term (found_in x.now free) ts.now us.now }
{
    for i in 0..ts.len().min(us.len()) {
        if let Some(term) = instance_term_in_term(&ts[i], x, free, &us[i]) {
            return Some(term);
        }
    }
    None
}

#[cycle(found)]
#[tactic(auto, using(crate::proofs::Naming::found_app))]
fn instance_term_in_term<'a>(t: &Term, x: &Ident, free: bool, u: &'a Term) -> Option<&'a Term>
    ensures value { option_copied result ≡ found_in x.now free t.now u.now }
{
    match t {
        Term::Var(y) => {
            if free && same_ident(y, x) {
                Some(u)
            } else {
                None
            }
        }
        Term::Name(_) => None,
        Term::App(_, ts) => match u {
            Term::Var(_) => None,
            Term::Name(_) => None,
            Term::App(_, us) => instance_term_in_terms(ts.as_slice(), x, free, us.as_slice()),
        },
    }
}
