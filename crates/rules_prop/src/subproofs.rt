ghost use Rattle.std.specs.Prelude.{◌≡◌, ◌↔◌, IsTrue, length, option_copied, Some};
ghost use Rattle.fol_core.specs.declared.sent.Sent.{Sent as Sentence};
ghost use Rattle.fol_core.specs.declared.sent.Sent.TheVariants as form;
ghost use Rattle.nested_proofs.specs.ReadOff.{IsWithin};
ghost use Rattle.rules_prop.specs.Shown.{GoBothWays, GoesAt};

use deriv_laws::{Cite, FlatLine};
use fol_core::{Sent, same};
use nested_proofs::{cited_conclusion, cited_sentence};

/// Whether the cited subproof goes from the assumption `p` to the conclusion `q`.
pub fn goes(lines: &[FlatLine], cite: Cite, p: &Sent, q: &Sent) -> bool
    requires within { IsWithin (length lines.now) cite }
    ensures exact { IsTrue result ↔ GoesAt lines.now cite p.now q.now }
{
    is(cited_sentence(lines, cite), p) && is(cited_conclusion(lines, cite), q)
}

/// Whether there is a sentence, and it is this one.
pub fn is(found: Option<&Sent>, s: &Sent) -> bool
    ensures exact { IsTrue result ↔ (option_copied found.entry ≡ Some s.now) }
{
    match found {
        Some(sentence) => same(sentence, s),
        None => false,
    }
}

/// Whether `s` is a negation, and the cited subproof goes from what it denies to absurdity.
pub fn reduces(lines: &[FlatLine], cite: Cite, s: &Sent) -> bool
    requires within { IsWithin (length lines.now) cite }
    ensures exact { IsTrue result
        ↔ ((p : Sentence) × (s.now ≡ form.Not p) × GoesAt lines.now cite p form.Bottom) }
{
    match s {
        Sent::Not(denied) => goes(lines, cite, denied.get(), &Sent::Bottom),
        _ => false,
    }
}

/// Whether `s` is a conditional, and the cited subproof goes from its antecedent to its consequent.
pub fn leads(lines: &[FlatLine], cite: Cite, s: &Sent) -> bool
    requires within { IsWithin (length lines.now) cite }
    ensures exact { IsTrue result
        ↔ ((p : Sentence) × (q : Sentence) × (s.now ≡ form.If p q) × GoesAt lines.now cite p q) }
{
    match s {
        Sent::If(antecedent, consequent) => goes(lines, cite, antecedent.get(), consequent.get()),
        _ => false,
    }
}

/// Whether `s` is a biconditional, and one of the cited subproofs goes from its first side to its second, and the
/// other from its second to its first.
pub fn leads_both_ways(lines: &[FlatLine], one: Cite, other: Cite, s: &Sent) -> bool
    requires one_within { IsWithin (length lines.now) one }
    requires other_within { IsWithin (length lines.now) other }
    ensures exact { IsTrue result ↔ GoBothWays lines.now one other s.now }
{
    match s {
        Sent::Iff(left, right) => {
            go_and_return(lines, one, other, left.get(), right.get())
                || go_and_return(lines, one, other, right.get(), left.get())
        }
        _ => false,
    }
}

/// Whether the first cited subproof goes from `p` to `q`, and the second from `q` to `p`.
fn go_and_return(lines: &[FlatLine], one: Cite, other: Cite, p: &Sent, q: &Sent) -> bool
    requires one_within { IsWithin (length lines.now) one }
    requires other_within { IsWithin (length lines.now) other }
    ensures exact { IsTrue result ↔ (GoesAt lines.now one p.now q.now × GoesAt lines.now other q.now p.now) }
{
    goes(lines, one, p, q) && goes(lines, other, q, p)
}
