ghost use Rattle.std.specs.Prelude.{◌≡◌, ◌↔◌, IsTrue, Contains, Some, false, length};
ghost use Rattle.std.specs.List.{AllByRecursion};
ghost use Rattle.nested_proofs.specs.ReadOff.{IsWithin, sentences_read, stated_at};

use deriv_laws::{Cite, FlatLine};
use fol_core::{Sent, same};
use nested_proofs::cited_sentence;

/// Whether each part is the sentence of a cited line.
pub fn all_cited(lines: &[FlatLine], cites: &[Cite], parts: &[Sent]) -> bool
    requires within { AllByRecursion (IsWithin (length lines.now)) cites.now }
    ensures exact { IsTrue result
        ↔ AllByRecursion (λ p. Contains (sentences_read lines.now cites.now) p) parts.now }
{
    for part in parts {
        if !is_cited(lines, cites, part) {
            return false;
        }
    }
    true
}

/// Whether the sentence is that of a cited line.
fn is_cited(lines: &[FlatLine], cites: &[Cite], s: &Sent) -> bool
    requires within { AllByRecursion (IsWithin (length lines.now)) cites.now }
    ensures exact { IsTrue result ↔ Contains (sentences_read lines.now cites.now) s.now }
{
    for cite in cites {
        if states(lines, *cite, s) {
            return true;
        }
    }
    false
}

/// Whether the cite is a line that states the sentence.
fn states(lines: &[FlatLine], cite: Cite, s: &Sent) -> bool
    requires within { IsWithin (length lines.now) cite }
    ensures exact { IsTrue result ↔ ((cite.sub ≡ false) × (stated_at lines.now cite.first ≡ Some s.now)) }
{
    if cite.sub {
        return false;
    }
    match cited_sentence(lines, cite) {
        Some(sentence) => same(sentence, s),
        None => false,
    }
}
