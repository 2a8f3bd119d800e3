ghost use Rattle.std.specs.Prelude.{◌≡◌, ◌↔◌, ◌≤◌, IsTrue, Some, length, true};
ghost use Rattle.std.specs.List.{AllByRecursion};
ghost use Rattle.nested_proofs.specs.ReadOff.{IsWithin, subproofs_read};
ghost use Rattle.rules_prop.specs.Shown.{SomeGoes};
ghost use Rattle.rules_prop.specs.inside.Ending.{AreEnding, EndsIn, SomeBegins};

use crate::subproofs::is;
use bit_sets::BitSet;
use deriv_laws::{Cite, FlatLine};
use fol_core::Sent;
use nested_proofs::{cited_conclusion, cited_sentence};

/// Whether for each part there is a cited subproof that goes from it to `s`. Where the cited subproofs end is looked up
/// once, whatever the number of parts.
pub fn covers(lines: &[FlatLine], cites: &[Cite], parts: &[Sent], s: &Sent) -> bool
    requires few { length cites.now ≤ 64 }
    requires within { AllByRecursion (IsWithin (length lines.now)) cites.now }
    ensures exact { IsTrue result
        ↔ AllByRecursion (λ p. SomeGoes (subproofs_read lines.now cites.now) p s.now) parts.now }
{
    let ending = ending_in(lines, cites, s);
    all_begin(lines, cites, ending, parts)
}

/// The places of the cited subproofs that end in `s`, counted from 0.
fn ending_in(lines: &[FlatLine], cites: &[Cite], s: &Sent) -> BitSet
    requires few { length cites.now ≤ 64 }
    requires within { AllByRecursion (IsWithin (length lines.now)) cites.now }
    ensures exact { AreEnding lines.now cites.now s.now result.bits }
{
    let mut ending = BitSet::all_or_none(false);
    for i in 0..cites.len() {
        ending = ending.with(i as u32, ends_in(lines, cites[i], s));
    }
    ending
}

/// Whether the cite is a subproof that ends in `s`.
fn ends_in(lines: &[FlatLine], cite: Cite, s: &Sent) -> bool
    requires within { IsWithin (length lines.now) cite }
    ensures exact { IsTrue result ↔ EndsIn lines.now s.now cite }
{
    cite.sub && is(cited_conclusion(lines, cite), s)
}

/// Whether for each part the cited subproof at one of these places begins with it.
fn all_begin(lines: &[FlatLine], cites: &[Cite], places: BitSet, parts: &[Sent]) -> bool
    requires few { length cites.now ≤ 64 }
    requires within { AllByRecursion (IsWithin (length lines.now)) cites.now }
    ensures exact { IsTrue result ↔ AllByRecursion (SomeBegins lines.now cites.now places.bits) parts.now }
{
    for part in parts {
        if !has_case(lines, cites, places, part) {
            return false;
        }
    }
    true
}

/// Whether the cited subproof at one of these places begins with the assumption `p`.
fn has_case(lines: &[FlatLine], cites: &[Cite], places: BitSet, p: &Sent) -> bool
    requires few { length cites.now ≤ 64 }
    requires within { AllByRecursion (IsWithin (length lines.now)) cites.now }
    ensures exact { IsTrue result ↔ SomeBegins lines.now cites.now places.bits p.now }
{
    for i in 0..cites.len() {
        if places.has(i as u32) && is(cited_sentence(lines, cites[i]), p) {
            return true;
        }
    }
    false
}
