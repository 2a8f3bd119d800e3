ghost use Rattle.std.specs.Prelude.{◌≡◌};
ghost use Rattle.std.specs.List.{list_any};
ghost use Rattle.fol_core.specs.Subst.{occurs_in_term, occurs as stands_in};

use crate::ident::{Ident, same_ident};
use crate::sent::{Sent, Term};

/// Whether the name stands somewhere in the sentence. It takes no memory.
#[cycle(occurs)]
#[tactic(auto, using(crate::proofs::Forms::occurs_and, crate::proofs::Forms::occurs_or))]
pub fn occurs(s: &Sent, name: &Ident) -> bool
    ensures value { result ≡ stands_in name.now s.now }
{
    match s {
        Sent::Atom(_, terms) => is_in_terms(terms.as_slice(), name),
        Sent::Eq(a, b) => is_in_term(a, name) || is_in_term(b, name),
        Sent::Bottom => false,
        Sent::Not(a) | Sent::All(_, a) | Sent::Ex(_, a) => occurs(a.get(), name),
        Sent::And(parts) | Sent::Or(parts) => occurs_in_any(parts.as_slice(), name),
        Sent::If(a, b) | Sent::Iff(a, b) => occurs(a.get(), name) || occurs(b.get(), name),
    }
}

#[cycle(occurs)]
fn occurs_in_any(parts: &[Sent], name: &Ident) -> bool
    ensures value { result ≡ list_any (stands_in name.now) parts.now }
{
    for part in parts {
        if occurs(part, name) {
            return true;
        }
    }
    false
}

#[cycle(in_term)]
fn is_in_terms(terms: &[Term], name: &Ident) -> bool
    ensures value { result ≡ list_any (occurs_in_term name.now) terms.now }
{
    for term in terms {
        if is_in_term(term, name) {
            return true;
        }
    }
    false
}

#[cycle(in_term)]
#[tactic(auto, using(crate::proofs::Terms::in_app))]
fn is_in_term(term: &Term, name: &Ident) -> bool
    ensures value { result ≡ occurs_in_term name.now term.now }
{
    match term {
        Term::Var(_) => false,
        Term::Name(m) => same_ident(m, name),
        Term::App(_, args) => is_in_terms(args.as_slice(), name),
    }
}
