ghost use Rattle.std.specs.Prelude.{◌≡◌, ◌↔◌, IsTrue, length, true};
ghost use Rattle.std.specs.List.{AllByRecursion};
ghost use Rattle.deriv_laws.specs.declared.rule.Rule.TheVariants as rules;
ghost use Rattle.nested_proofs.specs.CiteTests.{counts_fit};
ghost use Rattle.nested_proofs.specs.ReadOff.{IsWithin, sentences_read, subproofs_read, stated_at, subproof_between};
ghost use Rattle.nested_proofs.specs.Rules.{Follows};
ghost use Rattle.rules_quant.specs.Quantified as kinds;
ghost use Rattle.rules_quant.specs.Shown as shown;

use crate::equations::{is_reflexive, is_replaced};
use crate::rows::{Quantifier, leads};
use crate::shown::{is_from_instance, is_general};
use deriv_laws::{Cite, FlatLine, Rule};
use fol_core::Sent;
use nested_proofs::{RuleKind, cited_sentence, kind_of, only_cited};

/// Whether the rule is one of this crate's: those of identity and of the quantifiers.
pub fn is_quantified(rule: Rule) -> bool
    ensures value { result ≡ kinds.is_quantified rule }
{
    matches!(kind_of(rule), RuleKind::Quantified)
}

/// Whether `s` follows by the rule from what the cites name.
pub fn follows(lines: &[FlatLine], rule: Rule, cites: &[Cite], s: &Sent) -> bool
    requires rule { kinds.is_quantified rule ≡ true }
    requires counts { counts_fit rule cites.now ≡ true }
    requires within { AllByRecursion (IsWithin (length lines.now)) cites.now }
    ensures exact { IsTrue result ↔ Follows rule (sentences_read lines.now cites.now) (subproofs_read lines.now cites.now) s.now }
{
    match rule {
        Rule::EqIntro => by_reflexivity(lines, cites, s),
        Rule::EqElim => by_replacement(lines, cites, s),
        Rule::AllIntro => by_general_proof(lines, cites, s),
        Rule::AllElim => by_instances(lines, cites, s),
        Rule::ExIntro => by_witnesses(lines, cites, s),
        Rule::ExElim => by_arbitrary_instance(lines, cites, s),
        _ => false,
    }
}

fn by_reflexivity(_lines: &[FlatLine], cites: &[Cite], s: &Sent) -> bool
    requires counts { counts_fit rules.EqIntro cites.now ≡ true }
    ensures exact { IsTrue result ↔ Follows rules.EqIntro (sentences_read _lines.now cites.now) (subproofs_read _lines.now cites.now) s.now }
{
    is_reflexive(s)
}

fn by_replacement(lines: &[FlatLine], cites: &[Cite], s: &Sent) -> bool
    requires counts { counts_fit rules.EqElim cites.now ≡ true }
    requires within { AllByRecursion (IsWithin (length lines.now)) cites.now }
    ensures exact { IsTrue result ↔ Follows rules.EqElim (sentences_read lines.now cites.now) (subproofs_read lines.now cites.now) s.now }
{
    let [one, other] = cites else {
        return false;
    };
    let Some(p) = cited_sentence(lines, *one) else {
        return false;
    };
    let Some(q) = cited_sentence(lines, *other) else {
        return false;
    };
    is_replaced(p, q, s)
}

fn by_general_proof(lines: &[FlatLine], cites: &[Cite], s: &Sent) -> bool
    requires counts { counts_fit rules.AllIntro cites.now ≡ true }
    requires within { AllByRecursion (IsWithin (length lines.now)) cites.now }
    ensures exact { IsTrue result ↔ Follows rules.AllIntro (sentences_read lines.now cites.now) (subproofs_read lines.now cites.now) s.now }
{
    match cites {
        [cite] => is_general(lines, *cite, s),
        _ => false,
    }
}

/// Whether instances of the cited universal sentence lead to `s`.
fn by_instances(lines: &[FlatLine], cites: &[Cite], s: &Sent) -> bool
    requires counts { counts_fit rules.AllElim cites.now ≡ true }
    requires within { AllByRecursion (IsWithin (length lines.now)) cites.now }
    ensures exact { IsTrue result ↔ Follows rules.AllElim (sentences_read lines.now cites.now) (subproofs_read lines.now cites.now) s.now }
{
    match only_cited(lines, cites) {
        Some(p) => leads(Quantifier::Every, p, s),
        None => false,
    }
}

/// Whether instances of the existential sentence `s` lead to the cited one.
fn by_witnesses(lines: &[FlatLine], cites: &[Cite], s: &Sent) -> bool
    requires counts { counts_fit rules.ExIntro cites.now ≡ true }
    requires within { AllByRecursion (IsWithin (length lines.now)) cites.now }
    ensures exact { IsTrue result ↔ Follows rules.ExIntro (sentences_read lines.now cites.now) (subproofs_read lines.now cites.now) s.now }
{
    match only_cited(lines, cites) {
        Some(p) => leads(Quantifier::Exists, s, p),
        None => false,
    }
}

fn by_arbitrary_instance(lines: &[FlatLine], cites: &[Cite], s: &Sent) -> bool
    requires counts { counts_fit rules.ExElim cites.now ≡ true }
    requires within { AllByRecursion (IsWithin (length lines.now)) cites.now }
    ensures exact { IsTrue result ↔ Follows rules.ExElim (sentences_read lines.now cites.now) (subproofs_read lines.now cites.now) s.now }
{
    let [one, other] = cites else {
        return false;
    };
    if one.sub {
        from_instance(lines, *other, *one, s)
    } else {
        from_instance(lines, *one, *other, s)
    }
}

/// Whether the cited subproof shows `s` from an instance of the cited line.
fn from_instance(lines: &[FlatLine], line: Cite, sub: Cite, s: &Sent) -> bool
    requires line_within { IsWithin (length lines.now) line }
    requires sub_within { IsWithin (length lines.now) sub }
    ensures exact { IsTrue result ↔ shown.FollowsFrom (stated_at lines.now line.first) (subproof_between lines.now sub.first sub.last) s.now }
{
    match cited_sentence(lines, line) {
        Some(p) => is_from_instance(lines, sub, p, s),
        None => false,
    }
}
