ghost use Rattle.std.specs.Prelude.{◌≡◌, ◌↔◌, IsTrue, map};
ghost use Rattle.fol_core.specs.declared.sent.Term.TheVariants as terms;
ghost use Rattle.rules_quant.specs.Naming as naming;

use fol_core::{Ident, Sent, Term, same_ident, same_term};

/// Which terms and names stand for variables, the innermost first. A hidden variable stands for itself.
#[derive(Drop)]
pub enum Names<'a> {
    None,
    Known(&'a Ident, &'a Term, &'a Names<'a>),
    Named(&'a Ident, &'a Ident, &'a Names<'a>),
    Hidden(&'a Ident, &'a Names<'a>),
}

/// Whether `t` is `q` with the terms and names in the places of its free variables. It takes no memory.
#[cycle(put)]
#[tactic(auto, using(crate::proofs::Putting::put_and, crate::proofs::Putting::put_or))]
pub fn is_put(q: &Sent, names: &Names<'_>, t: &Sent) -> bool
    ensures value { IsTrue result ↔ (t.now ≡ naming.put q.now (naming.entries names.now)) }
{
    match (q, t) {
        (Sent::Atom(p, ts), Sent::Atom(r, us)) => {
            same_ident(p, r) && are_put_terms(ts.as_slice(), names, us.as_slice())
        }
        (Sent::Eq(a, b), Sent::Eq(c, d)) => is_put_term(a, names, c) && is_put_term(b, names, d),
        (Sent::Bottom, Sent::Bottom) => true,
        (Sent::Not(a), Sent::Not(b)) => is_put(a.get(), names, b.get()),
        (Sent::And(a), Sent::And(b)) => are_put(a.as_slice(), names, b.as_slice()),
        (Sent::Or(a), Sent::Or(b)) => are_put(a.as_slice(), names, b.as_slice()),
        (Sent::If(a, b), Sent::If(c, d)) => {
            is_put(a.get(), names, c.get()) && is_put(b.get(), names, d.get())
        }
        (Sent::Iff(a, b), Sent::Iff(c, d)) => {
            is_put(a.get(), names, c.get()) && is_put(b.get(), names, d.get())
        }
        (Sent::All(y, a), Sent::All(z, b)) => {
            same_ident(y, z) && is_put(a.get(), &Names::Hidden(&*y, &*names), b.get())
        }
        (Sent::Ex(y, a), Sent::Ex(z, b)) => {
            same_ident(y, z) && is_put(a.get(), &Names::Hidden(&*y, &*names), b.get())
        }
        _ => false,
    }
}

#[cycle(put)]
fn are_put(qs: &[Sent], names: &Names<'_>, ts: &[Sent]) -> bool
    ensures value { IsTrue result ↔ (ts.now ≡ map (λ q. naming.put q (naming.entries names.now)) qs.now) }
{
    if qs.len() != ts.len() {
        return false;
    }
    for i in 0..qs.len() {
        if !is_put(&qs[i], names, &ts[i]) {
            return false;
        }
    }
    true
}

#[cycle(put_terms)]
fn are_put_terms(ts: &[Term], names: &Names<'_>, us: &[Term]) -> bool
    ensures value { IsTrue result ↔ (us.now ≡ map (naming.put_term (naming.entries names.now)) ts.now) }
{
    if ts.len() != us.len() {
        return false;
    }
    for i in 0..ts.len() {
        if !is_put_term(&ts[i], names, &us[i]) {
            return false;
        }
    }
    true
}

#[cycle(put_terms)]
fn is_put_term(t: &Term, names: &Names<'_>, u: &Term) -> bool
    ensures value { IsTrue result ↔ (u.now ≡ naming.put_term (naming.entries names.now) t.now) }
{
    match t {
        Term::Var(y) => stands_for(names, y, u),
        Term::Name(m) => is_name(u, m),
        Term::App(f, ts) => match u {
            Term::App(g, us) => {
                same_ident(g, f) && are_put_terms(ts.as_slice(), names, us.as_slice())
            }
            _ => false,
        },
    }
}

/// Whether the term stands for the variable.
fn stands_for(names: &Names<'_>, y: &Ident, u: &Term) -> bool
    ensures value { IsTrue result ↔ (u.now ≡ naming.or_itself (naming.term_for (naming.entries names.now) y.now) y.now) }
{
    match names {
        Names::None => is_variable(u, y),
        Names::Known(x, r, rest) => {
            if same_ident(x, y) {
                same_term(u, r)
            } else {
                stands_for(rest, y, u)
            }
        }
        Names::Named(x, n, rest) => {
            if same_ident(x, y) {
                is_name(u, n)
            } else {
                stands_for(rest, y, u)
            }
        }
        Names::Hidden(x, rest) => {
            if same_ident(x, y) {
                is_variable(u, y)
            } else {
                stands_for(rest, y, u)
            }
        }
    }
}

fn is_variable(u: &Term, y: &Ident) -> bool
    ensures value { IsTrue result ↔ (u.now ≡ terms.Var y.now) }
{
    match u {
        Term::Var(z) => same_ident(z, y),
        _ => false,
    }
}

fn is_name(u: &Term, n: &Ident) -> bool
    ensures value { IsTrue result ↔ (u.now ≡ terms.Name n.now) }
{
    match u {
        Term::Name(m) => same_ident(m, n),
        _ => false,
    }
}
