ghost use Rattle.std.specs.Prelude.{◌≡◌, ◌↔◌, ◌⊎◌, IsTrue};
ghost use Rattle.fol_core.specs.declared.sent.Sent.{Sent as Sentence};
ghost use Rattle.fol_core.specs.declared.sent.Sent.TheVariants.{Eq, All, Ex};
ghost use Rattle.fol_core.specs.declared.sent.Term.{Term};
ghost use Rattle.fol_core.specs.Word.{Word};
ghost use Rattle.fol_core.specs.Statements.{ground};
ghost use Rattle.fol_core.specs.Subst.{subst_name, subst_closed_term};
ghost use Rattle.fol_core.specs.Alike.{repl};

use fol_core::{Ident, Sent, is_instance, is_some_instance, replaces, same_term};

/// Whether the sentence is the equation of a term with itself.
pub(crate) fn is_self_identity(s: &Sent) -> bool
    ensures value { IsTrue result ↔ ((a : Term) × (s.now ≡ Eq a a)) }
{
    match s {
        Sent::Eq(a, b) => same_term(a, b),
        _ => false,
    }
}

/// Whether `e` is an equation, and the sentence comes from `p` by replacing some occurrences of one of its terms by the
/// other.
pub(crate) fn is_by_equation(e: &Sent, p: &Sent, s: &Sent) -> bool
    ensures value { IsTrue result ↔ ((a : Term) × (b : Term) × (e.now ≡ Eq a b) × (IsTrue (repl a b p.now s.now) ⊎ IsTrue (repl b a p.now s.now))) }
{
    match e {
        Sent::Eq(a, b) => replaces(p, s, a, b) || replaces(p, s, b, a),
        _ => false,
    }
}

/// Whether the sentence is universal, and `q` is its instance by the constant.
pub(crate) fn is_generalization(s: &Sent, q: &Sent, constant: &Ident) -> bool
    ensures value { IsTrue result ↔ ((x : Word) × (p : Sentence) × (s.now ≡ All x p) × (q.now ≡ subst_name x constant.now p)) }
{
    match s {
        Sent::All(x, p) => is_instance(p.get(), x, constant, q),
        _ => false,
    }
}

/// Whether `q` is universal, and the sentence is an instance of it by some ground term.
pub(crate) fn is_instance_of_all(s: &Sent, q: &Sent) -> bool
    ensures value { IsTrue result ↔ ((x : Word) × (p : Sentence) × (a : Term) × IsTrue (ground a) × (q.now ≡ All x p) × (s.now ≡ subst_closed_term x a p)) }
{
    match q {
        Sent::All(x, p) => is_some_instance(p.get(), x, s),
        _ => false,
    }
}

/// Whether the sentence is existential, and `q` is an instance of it by some ground term.
pub(crate) fn is_instance_of_ex(q: &Sent, s: &Sent) -> bool
    ensures value { IsTrue result ↔ ((x : Word) × (p : Sentence) × (a : Term) × IsTrue (ground a) × (s.now ≡ Ex x p) × (q.now ≡ subst_closed_term x a p)) }
{
    match s {
        Sent::Ex(x, p) => is_some_instance(p.get(), x, q),
        _ => false,
    }
}

/// Whether the sentence is existential.
pub(crate) fn is_existential(s: &Sent) -> bool
    ensures value { IsTrue result ↔ ((x : Word) × (p : Sentence) × (s.now ≡ Ex x p)) }
{
    matches!(s, Sent::Ex(_, _))
}
