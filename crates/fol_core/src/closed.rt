ghost use Rattle.std.specs.Prelude.{◌≡◌};
ghost use Rattle.std.specs.List.{list_all};
ghost use Rattle.fol_core.specs.Closed.{is_among, is_bound, closed_under, closed, closed_term};
ghost use Rattle.fol_core.specs.Statements.{grounded, ground, stated_under, statement};
ghost use Rattle.fol_core.specs.Bound.{words};

use crate::ident::{Ident, same_ident};
use crate::sent::{Sent, Term};

/// Whether each variable in the sentence is bound by a quantifier around it. The types keep that words are identifiers, and
/// how many parts and arguments there are at least, so this is also whether the sentence is a statement.
pub fn is_closed(s: &Sent) -> bool
    ensures value { result ≡ closed s.now }
    ensures statement { result ≡ statement s.now }
{
    is_closed_under(s, &Bound::None)
}

/// The variables of the quantifiers around a place, the innermost first.
#[derive(Drop)]
enum Bound<'a> {
    None,
    More(&'a Ident, &'a Bound<'a>),
}

#[cycle(closed)]
#[tactic(auto, using(crate::proofs::Forms::closed_and, crate::proofs::Forms::closed_or, crate::proofs::Forms::stated_and, crate::proofs::Forms::stated_or))]
fn is_closed_under(s: &Sent, bound: &Bound<'_>) -> bool
    ensures value { result ≡ closed_under s.now (words bound.now) }
    ensures stated { result ≡ stated_under s.now (words bound.now) }
{
    match s {
        Sent::Atom(p, terms) => {
            p.form();
            are_terms_bound(terms.as_slice(), bound)
        }
        Sent::Eq(a, b) => is_term_bound(a, bound) && is_term_bound(b, bound),
        Sent::Bottom => true,
        Sent::Not(a) => is_closed_under(a.get(), bound),
        Sent::And(parts) | Sent::Or(parts) => are_closed_under(parts.as_slice(), bound),
        Sent::If(a, b) | Sent::Iff(a, b) => {
            is_closed_under(a.get(), bound) && is_closed_under(b.get(), bound)
        }
        Sent::All(x, a) | Sent::Ex(x, a) => {
            x.form();
            is_closed_under(a.get(), &Bound::More(&*x, &*bound))
        }
    }
}

#[cycle(closed)]
fn are_closed_under(parts: &[Sent], bound: &Bound<'_>) -> bool
    ensures value { result ≡ list_all (λ s. closed_under s (words bound.now)) parts.now }
    ensures stated { result ≡ list_all (λ s. stated_under s (words bound.now)) parts.now }
{
    for part in parts {
        if !is_closed_under(part, bound) {
            return false;
        }
    }
    true
}

/// Whether no variable stands in the term. As the types keep the rest, this is also whether the term is ground.
pub fn is_closed_term(term: &Term) -> bool
    ensures value { result ≡ closed_term term.now }
    ensures ground { result ≡ ground term.now }
{
    is_term_bound(term, &Bound::None)
}

#[cycle(bound)]
fn are_terms_bound(terms: &[Term], bound: &Bound<'_>) -> bool
    ensures value { result ≡ list_all (is_bound (words bound.now)) terms.now }
    ensures grounded { result ≡ list_all (grounded (words bound.now)) terms.now }
{
    for term in terms {
        if !is_term_bound(term, bound) {
            return false;
        }
    }
    true
}

#[cycle(bound)]
#[tactic(auto, using(crate::proofs::Terms::bound_app, crate::proofs::Terms::grounded_app))]
fn is_term_bound(term: &Term, bound: &Bound<'_>) -> bool
    ensures value { result ≡ is_bound (words bound.now) term.now }
    ensures grounded { result ≡ grounded (words bound.now) term.now }
{
    match term {
        Term::Var(x) => {
            x.form();
            binds(bound, x)
        }
        Term::Name(n) => {
            n.form();
            true
        }
        Term::App(f, args) => {
            f.form();
            are_terms_bound(args.as_slice(), bound)
        }
    }
}

fn binds(bound: &Bound<'_>, x: &Ident) -> bool
    ensures value { result ≡ is_among x.now (words bound.now) }
{
    match bound {
        Bound::None => false,
        Bound::More(y, rest) => same_ident(y, x) || binds(rest, x),
    }
}
