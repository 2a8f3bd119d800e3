ghost use Rattle.std.specs.Prelude.{◌≡◌, ◌≢◌, List, [], ◌∷◌, IsTrue, ◌↔◌, ◌⊎◌, None, Some, map, length, replicate, Contains};
ghost use Rattle.fol_core.specs.declared.sent.Sent.{Sent as Sentence};
ghost use Rattle.fol_core.specs.declared.sent.Sent.TheVariants.{Bottom, Not, And, Or, If, Iff};
ghost use Rattle.deriv_laws.specs.Rows.{Row};
ghost use Rattle.deriv_laws.specs.Trees.{concl};

use crate::quantified::{
    is_by_equation, is_existential, is_generalization, is_instance_of_all, is_instance_of_ex,
    is_self_identity,
};
use crate::rule::Rule;
use crate::tree::Tree;
use fol_core::{Ident, Sent, contains, same};

/// Whether the rule gives the sentence from what the parts conclude.
pub(crate) fn follows(rule: Rule, boxed: &Option<Ident>, parts: &[Tree], s: &Sent) -> bool
    ensures value { IsTrue result ↔ Row rule boxed.now (map concl parts.now) s.now }
{
    match boxed {
        Some(constant) => follows_by_constant(rule, constant, parts, s),
        None => follows_without_box(rule, parts, s),
    }
}

/// Whether a rule with a boxed constant gives the sentence from what the parts conclude.
fn follows_by_constant(rule: Rule, constant: &Ident, parts: &[Tree], s: &Sent) -> bool
    ensures value { IsTrue result ↔ Row rule (Some constant.now) (map concl parts.now) s.now }
{
    match (rule, parts) {
        (Rule::AllIntro, [only]) => is_generalization(s, &only.sentence, constant),
        (Rule::ExElim, [first, second]) => {
            is_existential(&first.sentence) && same(&second.sentence, s)
        }
        _ => false,
    }
}

/// Whether a rule without a boxed constant gives the sentence from what the parts conclude.
fn follows_without_box(rule: Rule, parts: &[Tree], s: &Sent) -> bool
    ensures value { IsTrue result ↔ Row rule None (map concl parts.now) s.now }
{
    match rule {
        Rule::AndIntro => is_conjunction_of(parts, s),
        Rule::OrElim => is_by_cases(parts, s),
        _ => match parts {
            [] => follows_from_none(rule, s),
            [only] => follows_from_one(rule, &only.sentence, s),
            [first, second] => follows_from_two(rule, &first.sentence, &second.sentence, s),
            _ => false,
        },
    }
}

/// Whether a rule without parts gives the sentence.
fn follows_from_none(rule: Rule, s: &Sent) -> bool
    requires no_joining { rule ≢ Rule.AndIntro }
    ensures value { IsTrue result ↔ Row rule None [] s.now }
{
    match rule {
        Rule::Assume => true,
        Rule::EqIntro => is_self_identity(s),
        _ => false,
    }
}

/// Whether a rule with one part gives the sentence from what its part concludes.
fn follows_from_one(rule: Rule, p: &Sent, s: &Sent) -> bool
    requires no_joining { rule ≢ Rule.AndIntro }
    requires no_cases { rule ≢ Rule.OrElim }
    ensures value { IsTrue result ↔ Row rule None (p.now ∷ []) s.now }
{
    match rule {
        Rule::AndElim => is_conjunct_of(s, p),
        Rule::OrIntro => is_disjunct_of(p, s),
        Rule::NotIntro => is_absurd(p) && is_negation(s),
        Rule::NotElim => denies_twice(p, s),
        Rule::BotElim => is_absurd(p),
        Rule::IfIntro => is_conditional_to(s, p),
        Rule::AllElim => is_instance_of_all(s, p),
        Rule::ExIntro => is_instance_of_ex(p, s),
        _ => false,
    }
}

/// Whether a rule with two parts gives the sentence from what its parts conclude.
fn follows_from_two(rule: Rule, p: &Sent, q: &Sent, s: &Sent) -> bool
    requires no_joining { rule ≢ Rule.AndIntro }
    requires no_cases { rule ≢ Rule.OrElim }
    ensures value { IsTrue result ↔ Row rule None (p.now ∷ q.now ∷ []) s.now }
{
    match rule {
        Rule::BotIntro => denies(q, p) && is_absurd(s),
        Rule::IfElim => is_conditional(p, q, s),
        Rule::IffIntro => is_biconditional(s, q, p),
        Rule::IffElim => is_biconditional(p, q, s) || is_biconditional(p, s, q),
        Rule::EqElim => is_by_equation(p, q, s),
        _ => false,
    }
}

/// Whether the sentence is the conjunction of what the trees conclude, in order.
fn is_conjunction_of(parts: &[Tree], s: &Sent) -> bool
    ensures value { IsTrue result ↔ (s.now ≡ And (map concl parts.now)) }
{
    match s {
        Sent::And(conjuncts) => conclude(parts, conjuncts.as_slice()),
        _ => false,
    }
}

/// Whether the trees conclude the sentences, in order.
fn conclude(parts: &[Tree], sentences: &[Sent]) -> bool
    ensures value { IsTrue result ↔ (map concl parts.now ≡ sentences.now) }
{
    if parts.len() != sentences.len() {
        return false;
    }
    for i in 0..parts.len() {
        if !same(&parts[i].sentence, &sentences[i]) {
            return false;
        }
    }
    true
}

/// Whether the first tree concludes a disjunction, and there is one more tree for each of its parts, that concludes the
/// sentence.
fn is_by_cases(parts: &[Tree], s: &Sent) -> bool
    ensures value { IsTrue result ↔ Row Rule.OrElim None (map concl parts.now) s.now }
{
    match parts {
        [] => false,
        [first, cases @ ..] => are_cases_of(&first.sentence, cases, s),
    }
}

/// Whether the sentence is a disjunction, and there is one tree for each of its parts, that concludes the other.
fn are_cases_of(p: &Sent, cases: &[Tree], s: &Sent) -> bool
    ensures value { IsTrue result ↔ ((parts : List Sentence) × (p.now ≡ Or parts) × (map concl cases.now ≡ replicate (length parts) s.now)) }
{
    match p {
        Sent::Or(parts) => cases.len() == parts.as_slice().len() && each_concludes(cases, s),
        _ => false,
    }
}

/// Whether each of the trees concludes the sentence.
fn each_concludes(trees: &[Tree], s: &Sent) -> bool
    ensures value { IsTrue result ↔ (map concl trees.now ≡ replicate (length trees.now) s.now) }
{
    for tree in trees {
        if !same(&tree.sentence, s) {
            return false;
        }
    }
    true
}

/// Whether the sentence is a part of the other, a conjunction.
fn is_conjunct_of(s: &Sent, whole: &Sent) -> bool
    ensures value { IsTrue result ↔ ((parts : List Sentence) × (whole.now ≡ And parts) × Contains parts s.now) }
{
    match whole {
        Sent::And(parts) => contains(parts.as_slice(), s),
        _ => false,
    }
}

/// Whether the sentence is a part of the other, a disjunction.
fn is_disjunct_of(s: &Sent, whole: &Sent) -> bool
    ensures value { IsTrue result ↔ ((parts : List Sentence) × (whole.now ≡ Or parts) × Contains parts s.now) }
{
    match whole {
        Sent::Or(parts) => contains(parts.as_slice(), s),
        _ => false,
    }
}

/// Whether the sentence is falsum.
fn is_absurd(s: &Sent) -> bool
    ensures value { IsTrue result ↔ (s.now ≡ Bottom) }
{
    matches!(s, Sent::Bottom)
}

/// Whether the sentence is a negation.
fn is_negation(s: &Sent) -> bool
    ensures value { IsTrue result ↔ ((p : Sentence) × (s.now ≡ Not p)) }
{
    matches!(s, Sent::Not(_))
}

/// Whether the sentence is the negation of the other.
fn denies(s: &Sent, p: &Sent) -> bool
    ensures value { IsTrue result ↔ (s.now ≡ Not p.now) }
{
    match s {
        Sent::Not(denied) => same(denied.get(), p),
        _ => false,
    }
}

/// Whether the sentence is the double negation of the other.
fn denies_twice(p: &Sent, s: &Sent) -> bool
    ensures value { IsTrue result ↔ (p.now ≡ Not (Not s.now)) }
{
    match p {
        Sent::Not(denied) => denies(denied.get(), s),
        _ => false,
    }
}

/// Whether the sentence is the conditional from `p` to `q`.
fn is_conditional(s: &Sent, p: &Sent, q: &Sent) -> bool
    ensures value { IsTrue result ↔ (s.now ≡ If p.now q.now) }
{
    match s {
        Sent::If(before, after) => same(before.get(), p) && same(after.get(), q),
        _ => false,
    }
}

/// Whether the sentence is a conditional to `q`.
fn is_conditional_to(s: &Sent, q: &Sent) -> bool
    ensures value { IsTrue result ↔ ((p : Sentence) × (s.now ≡ If p q.now)) }
{
    match s {
        Sent::If(_, after) => same(after.get(), q),
        _ => false,
    }
}

/// Whether the sentence is the biconditional of `p` and `q`.
fn is_biconditional(s: &Sent, p: &Sent, q: &Sent) -> bool
    ensures value { IsTrue result ↔ (s.now ≡ Iff p.now q.now) }
{
    match s {
        Sent::Iff(left, right) => same(left.get(), p) && same(right.get(), q),
        _ => false,
    }
}
