ghost use Rattle.std.specs.Prelude.{◌≡◌, ◌↔◌, ◌≤◌, IsTrue, length, true};
ghost use Rattle.std.specs.List.{AllByRecursion};
ghost use Rattle.deriv_laws.specs.declared.rule.Rule.TheVariants as rules;
ghost use Rattle.nested_proofs.specs.CiteTests.{counts_fit};
ghost use Rattle.nested_proofs.specs.ReadOff.{IsWithin};
ghost use Rattle.rules_prop.specs.Shown.{FollowsFrom};
ghost use Rattle.rules_prop.specs.Propositional as propositional;
ghost use Rattle.rules_prop.specs.inside.Premises as cited;

use crate::cases::covers;
use crate::cited::all_cited;
use crate::from_lines::{follows_from_one, follows_from_two};
use crate::subproofs::{leads, leads_both_ways, reduces};
use deriv_laws::{Cite, FlatLine, Rule};
use fol_core::Sent;
use nested_proofs::{RuleKind, cited_sentence, kind_of, only_cited};

/// Whether `s` follows by the rule from what the cites name.
pub fn follows(lines: &[FlatLine], rule: Rule, cites: &[Cite], s: &Sent) -> bool
    requires rule { propositional.is_propositional rule ≡ true }
    requires few { length cites.now ≤ 64 }
    requires counts { counts_fit rule cites.now ≡ true }
    requires within { AllByRecursion (IsWithin (length lines.now)) cites.now }
    ensures exact { IsTrue result ↔ FollowsFrom lines.now rule cites.now s.now }
{
    match rule {
        Rule::Reit | Rule::AndElim | Rule::OrIntro | Rule::NotElim | Rule::BotElim => {
            by_one(lines, rule, cites, s)
        }
        Rule::BotIntro | Rule::IfElim | Rule::IffElim => by_two(lines, rule, cites, s),
        Rule::AndIntro => joins(lines, cites, s),
        Rule::OrElim => shows_each_case(lines, cites, s),
        Rule::NotIntro => by_reduction(lines, cites, s),
        Rule::IfIntro => by_conditional_proof(lines, cites, s),
        Rule::IffIntro => by_both_ways(lines, cites, s),
        _ => false,
    }
}

/// Whether the rule is one of this crate's: from reiteration to the elimination of the biconditional.
pub fn is_propositional(rule: Rule) -> bool
    ensures value { result ≡ propositional.is_propositional rule }
{
    matches!(kind_of(rule), RuleKind::Propositional)
}

/// Whether `s` follows by a rule that cites one line.
fn by_one(lines: &[FlatLine], rule: Rule, cites: &[Cite], s: &Sent) -> bool
    requires rule { cited.is_from_one rule ≡ true }
    requires counts { counts_fit rule cites.now ≡ true }
    requires within { AllByRecursion (IsWithin (length lines.now)) cites.now }
    ensures exact { IsTrue result ↔ FollowsFrom lines.now rule cites.now s.now }
{
    match only_cited(lines, cites) {
        Some(p) => follows_from_one(rule, p, s),
        None => false,
    }
}

/// Whether `s` follows by a rule that cites two lines.
fn by_two(lines: &[FlatLine], rule: Rule, cites: &[Cite], s: &Sent) -> bool
    requires rule { cited.is_from_two rule ≡ true }
    requires counts { counts_fit rule cites.now ≡ true }
    requires within { AllByRecursion (IsWithin (length lines.now)) cites.now }
    ensures exact { IsTrue result ↔ FollowsFrom lines.now rule cites.now s.now }
{
    let [one, other] = cites else {
        return false;
    };
    let Some(p) = cited_sentence(lines, *one) else {
        return false;
    };
    let Some(q) = cited_sentence(lines, *other) else {
        return false;
    };
    follows_from_two(rule, p, q, s)
}

/// Whether `s` is a conjunction, each part of which is a cited sentence.
fn joins(lines: &[FlatLine], cites: &[Cite], s: &Sent) -> bool
    requires counts { counts_fit rules.AndIntro cites.now ≡ true }
    requires within { AllByRecursion (IsWithin (length lines.now)) cites.now }
    ensures exact { IsTrue result ↔ FollowsFrom lines.now rules.AndIntro cites.now s.now }
{
    match s {
        Sent::And(parts) => all_cited(lines, cites, parts.as_slice()),
        _ => false,
    }
}

/// Whether the cited line is a disjunction, and for each part a cited subproof goes from it to `s`.
fn shows_each_case(lines: &[FlatLine], cites: &[Cite], s: &Sent) -> bool
    requires few { length cites.now ≤ 64 }
    requires counts { counts_fit rules.OrElim cites.now ≡ true }
    requires within { AllByRecursion (IsWithin (length lines.now)) cites.now }
    ensures exact { IsTrue result ↔ FollowsFrom lines.now rules.OrElim cites.now s.now }
{
    match only_cited(lines, cites) {
        Some(Sent::Or(parts)) => covers(lines, cites, parts.as_slice(), s),
        _ => false,
    }
}

fn by_reduction(lines: &[FlatLine], cites: &[Cite], s: &Sent) -> bool
    requires counts { counts_fit rules.NotIntro cites.now ≡ true }
    requires within { AllByRecursion (IsWithin (length lines.now)) cites.now }
    ensures exact { IsTrue result ↔ FollowsFrom lines.now rules.NotIntro cites.now s.now }
{
    match cites {
        [cite] => reduces(lines, *cite, s),
        _ => false,
    }
}

fn by_conditional_proof(lines: &[FlatLine], cites: &[Cite], s: &Sent) -> bool
    requires counts { counts_fit rules.IfIntro cites.now ≡ true }
    requires within { AllByRecursion (IsWithin (length lines.now)) cites.now }
    ensures exact { IsTrue result ↔ FollowsFrom lines.now rules.IfIntro cites.now s.now }
{
    match cites {
        [cite] => leads(lines, *cite, s),
        _ => false,
    }
}

fn by_both_ways(lines: &[FlatLine], cites: &[Cite], s: &Sent) -> bool
    requires counts { counts_fit rules.IffIntro cites.now ≡ true }
    requires within { AllByRecursion (IsWithin (length lines.now)) cites.now }
    ensures exact { IsTrue result ↔ FollowsFrom lines.now rules.IffIntro cites.now s.now }
{
    match cites {
        [one, other] => leads_both_ways(lines, *one, *other, s),
        _ => false,
    }
}
