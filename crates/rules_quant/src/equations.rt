ghost use Rattle.std.specs.Prelude.{◌≡◌, ◌↔◌, [], ◌∷◌, IsTrue};
ghost use Rattle.fol_core.specs.declared.sent.Sent.TheVariants as form;
ghost use Rattle.fol_core.specs.declared.sent.Term.{Term};
ghost use Rattle.deriv_laws.specs.declared.rule.Rule.TheVariants as rules;
ghost use Rattle.nested_proofs.specs.Rules.{Follows, EqFrom};

use fol_core::{Sent, replaces, same_term};

/// Whether `s` says of a term that it is equal to itself.
pub fn is_reflexive(s: &Sent) -> bool
    ensures exact { IsTrue result ↔ ((a : Term) × (s.now ≡ form.Eq a a)) }
{
    match s {
        Sent::Eq(a, b) => same_term(a, b),
        _ => false,
    }
}

/// Whether one of the two sentences is an equation, and `s` is the other with some occurrences of one
/// side replaced by the other side.
pub fn is_replaced(p: &Sent, q: &Sent, s: &Sent) -> bool
    ensures exact { IsTrue result ↔ Follows rules.EqElim (p.now ∷ q.now ∷ []) [] s.now }
{
    is_replaced_by(p, q, s) || is_replaced_by(q, p, s)
}

fn is_replaced_by(e: &Sent, p: &Sent, s: &Sent) -> bool
    ensures exact { IsTrue result ↔ EqFrom e.now p.now s.now }
{
    match e {
        Sent::Eq(a, b) => replaces(p, s, a, b) || replaces(p, s, b, a),
        _ => false,
    }
}
