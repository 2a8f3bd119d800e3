ghost use Rattle.std.specs.Prelude.{◌≡◌, ◌↔◌, IsTrue, MatchOption, length, true};
ghost use Rattle.std.specs.Option.{option_copied};
ghost use Rattle.std.specs.List.{AllByRecursion};
ghost use Rattle.deriv_laws.specs.declared.rule.Rule.TheVariants as rules;
ghost use Rattle.nested_proofs.specs.CiteTests.{counts_fit};
ghost use Rattle.nested_proofs.specs.ReadOff.{IsWithin, sentences_read, subproofs_read, stated_at, subproof_between};
ghost use Rattle.nested_proofs.specs.Rules.{StaysArbitrary};
ghost use Rattle.nested_proofs.specs.StaysAt.{OneBoxes};
ghost use Rattle.rules_quant.specs.Quantified as kinds;
ghost use Rattle.rules_quant.specs.Spoilt as spoilt;

use deriv_laws::{Cite, FlatLine, Rule};
use fol_core::{Ident, Sent, occurs};
use nested_proofs::cited_sentence;

/// The constant that the cited subproof boxes, where it isn't arbitrary: it occurs in `s`, or at existential
/// elimination in the cited sentence.
pub fn spoilt<'a>(lines: &'a [FlatLine], rule: Rule, cites: &[Cite], s: &Sent) -> Option<&'a Ident>
    requires rule { kinds.is_quantified rule ≡ true }
    requires counts { counts_fit rule cites.now ≡ true }
    requires within { AllByRecursion (IsWithin (length lines.now)) cites.now }
    ensures exact { MatchOption result (StaysArbitrary rule (sentences_read lines.now cites.now) (subproofs_read lines.now cites.now) s.now) (λ c. (StaysArbitrary rule (sentences_read lines.now cites.now) (subproofs_read lines.now cites.now) s.now → ⊥) × OneBoxes (subproofs_read lines.now cites.now) c.now) }
{
    match rule {
        Rule::AllIntro => spoilt_in_conclusion(lines, cites, s),
        Rule::ExElim => spoilt_in_either(lines, cites, s),
        _ => None,
    }
}

fn spoilt_in_conclusion<'a>(lines: &'a [FlatLine], cites: &[Cite], s: &Sent) -> Option<&'a Ident>
    requires counts { counts_fit rules.AllIntro cites.now ≡ true }
    requires within { AllByRecursion (IsWithin (length lines.now)) cites.now }
    ensures exact { MatchOption result (StaysArbitrary rules.AllIntro (sentences_read lines.now cites.now) (subproofs_read lines.now cites.now) s.now) (λ c. (StaysArbitrary rules.AllIntro (sentences_read lines.now cites.now) (subproofs_read lines.now cites.now) s.now → ⊥) × OneBoxes (subproofs_read lines.now cites.now) c.now) }
{
    box_in(lines, cites[0], s, None)
}

fn spoilt_in_either<'a>(lines: &'a [FlatLine], cites: &[Cite], s: &Sent) -> Option<&'a Ident>
    requires counts { counts_fit rules.ExElim cites.now ≡ true }
    requires within { AllByRecursion (IsWithin (length lines.now)) cites.now }
    ensures exact { MatchOption result (StaysArbitrary rules.ExElim (sentences_read lines.now cites.now) (subproofs_read lines.now cites.now) s.now) (λ c. (StaysArbitrary rules.ExElim (sentences_read lines.now cites.now) (subproofs_read lines.now cites.now) s.now → ⊥) × OneBoxes (subproofs_read lines.now cites.now) c.now) }
{
    let one = cites[0];
    let other = cites[1];
    if one.sub {
        box_in(lines, one, s, cited_sentence(lines, other))
    } else {
        box_in(lines, other, s, cited_sentence(lines, one))
    }
}

/// The constant that the cited subproof boxes, where it occurs in `s` or in the other sentence.
fn box_in<'a>(lines: &'a [FlatLine], sub: Cite, s: &Sent, other: Option<&Sent>) -> Option<&'a Ident>
    requires within { IsWithin (length lines.now) sub }
    ensures exact { option_copied result ≡ spoilt.box_in (spoilt.boxed_by (subproof_between lines.now sub.first sub.last)) s.now (option_copied other.entry) }
{
    match &lines[sub.first as usize - 1].boxed {
        None => None,
        Some(c) => {
            if occurs(s, c) || occurs_in(other, c) {
                Some(c)
            } else {
                None
            }
        }
    }
}

/// Whether there is a sentence, and the name stands in it.
fn occurs_in(found: Option<&Sent>, c: &Ident) -> bool
    ensures value { result ≡ spoilt.occurs_in c.now (option_copied found.entry) }
{
    match found {
        Some(sentence) => occurs(sentence, c),
        None => false,
    }
}
