ghost use Rattle.std.specs.Prelude.{◌≡◌, ◌↔◌, IsTrue, [], ◌∷◌, Contains, true};
ghost use Rattle.std.specs.List.{AllByRecursion};
ghost use Rattle.fol_core.specs.declared.sent.Sent.TheVariants as form;
ghost use Rattle.deriv_laws.specs.declared.rule.Rule.TheVariants as rules;
ghost use Rattle.nested_proofs.specs.Rules.{Follows, IffFrom};
ghost use Rattle.rules_prop.specs.Shown.{IsDrawnFrom};
ghost use Rattle.rules_prop.specs.inside.Premises.{is_from_one, is_from_two};

use deriv_laws::Rule;
use fol_core::{Sent, contains, same};

/// Whether `s` follows by the rule, which cites one line, from the sentence of that line.
pub fn follows_from_one(rule: Rule, p: &Sent, s: &Sent) -> bool
    requires rule { is_from_one rule ≡ true }
    ensures exact { IsTrue result ↔ Follows rule (p.now ∷ []) [] s.now }
{
    match rule {
        Rule::Reit => same(p, s),
        Rule::AndElim => is_drawn(p, s),
        Rule::OrIntro => is_widened(p, s),
        Rule::NotElim => is_denied_twice(p, s),
        Rule::BotElim => is_bottom(p),
        _ => false,
    }
}

/// Whether `s` is a part of the conjunction `p`, or a conjunction of parts of it.
fn is_drawn(p: &Sent, s: &Sent) -> bool
    ensures exact { IsTrue result ↔ Follows rules.AndElim (p.now ∷ []) [] s.now }
{
    match p {
        Sent::And(parts) => is_drawn_from(parts.as_slice(), s),
        _ => false,
    }
}

fn is_drawn_from(parts: &[Sent], s: &Sent) -> bool
    ensures exact { IsTrue result ↔ IsDrawnFrom parts.now s.now }
{
    if contains(parts, s) {
        return true;
    }
    match s {
        Sent::And(some) => all_among(some.as_slice(), parts),
        _ => false,
    }
}

fn all_among(some: &[Sent], parts: &[Sent]) -> bool
    ensures exact { IsTrue result ↔ AllByRecursion (λ q. Contains parts.now q) some.now }
{
    for part in some {
        if !contains(parts, part) {
            return false;
        }
    }
    true
}

/// Whether `s` is a disjunction that has `p` as a part.
fn is_widened(p: &Sent, s: &Sent) -> bool
    ensures exact { IsTrue result ↔ Follows rules.OrIntro (p.now ∷ []) [] s.now }
{
    match s {
        Sent::Or(parts) => contains(parts.as_slice(), p),
        _ => false,
    }
}

/// Whether `p` denies `s` twice.
fn is_denied_twice(p: &Sent, s: &Sent) -> bool
    ensures exact { IsTrue result ↔ (p.now ≡ form.Not (form.Not s.now)) }
{
    match p {
        Sent::Not(denied) => denies(denied.get(), s),
        _ => false,
    }
}

/// Whether `q` is the negation of `p`.
fn denies(q: &Sent, p: &Sent) -> bool
    ensures exact { IsTrue result ↔ (q.now ≡ form.Not p.now) }
{
    match q {
        Sent::Not(denied) => same(denied.get(), p),
        _ => false,
    }
}

/// Whether the sentence is absurdity.
pub fn is_bottom(s: &Sent) -> bool
    ensures exact { IsTrue result ↔ (s.now ≡ form.Bottom) }
{
    matches!(s, Sent::Bottom)
}

/// Whether `s` follows by the rule, which cites two lines, from the sentences of those lines.
pub fn follows_from_two(rule: Rule, p: &Sent, q: &Sent, s: &Sent) -> bool
    requires rule { is_from_two rule ≡ true }
    ensures exact { IsTrue result ↔ Follows rule (p.now ∷ q.now ∷ []) [] s.now }
{
    match rule {
        Rule::BotIntro => is_bottom(s) && (denies(q, p) || denies(p, q)),
        Rule::IfElim => is_conditional(p, q, s) || is_conditional(q, p, s),
        Rule::IffElim => is_biconditional(p, q, s) || is_biconditional(q, p, s),
        _ => false,
    }
}

/// Whether `e` is the conditional from `p` to `s`.
fn is_conditional(e: &Sent, p: &Sent, s: &Sent) -> bool
    ensures exact { IsTrue result ↔ (e.now ≡ form.If p.now s.now) }
{
    match e {
        Sent::If(antecedent, consequent) => same(antecedent.get(), p) && same(consequent.get(), s),
        _ => false,
    }
}

/// Whether `e` is the biconditional of `p` and `s`, in either order.
fn is_biconditional(e: &Sent, p: &Sent, s: &Sent) -> bool
    ensures exact { IsTrue result ↔ IffFrom e.now p.now s.now }
{
    match e {
        Sent::Iff(left, right) => are(left.get(), right.get(), p, s)
            || are(left.get(), right.get(), s, p),
        _ => false,
    }
}

/// Whether the first two are the last two, in their order.
fn are(a: &Sent, b: &Sent, p: &Sent, q: &Sent) -> bool
    ensures exact { IsTrue result ↔ ((a.now ≡ p.now) × (b.now ≡ q.now)) }
{
    same(a, p) && same(b, q)
}
