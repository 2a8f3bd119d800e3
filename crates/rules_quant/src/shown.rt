ghost use Rattle.std.specs.Prelude.{◌≡◌, ◌↔◌, IsTrue, Some, length};
ghost use Rattle.std.specs.Option.{option_copied};
ghost use Rattle.nested_proofs.specs.ReadOff.{IsWithin};
ghost use Rattle.rules_quant.specs.Shown as shown;

use deriv_laws::{Cite, FlatLine};
use fol_core::{Ident, Sent, is_instance, same};
use nested_proofs::{cited_conclusion, cited_sentence};

/// Whether the cited subproof about an arbitrary object shows the universal sentence `s`: without an assumption it ends
/// in the instance by its box, or it goes from the one side of a conditional to the other.
pub fn is_general(lines: &[FlatLine], cite: Cite, s: &Sent) -> bool
    requires within { IsWithin (length lines.now) cite }
    ensures exact { IsTrue result ↔ shown.IsGeneralAt lines.now cite s.now }
{
    match &lines[cite.first as usize - 1].boxed {
        None => false,
        Some(c) => shows_all(
            cited_sentence(lines, cite),
            cited_conclusion(lines, cite),
            c,
            s,
        ),
    }
}

/// Whether the cited subproof shows `s` from the instance by its box of the existential sentence `p`.
pub fn is_from_instance(lines: &[FlatLine], cite: Cite, p: &Sent, s: &Sent) -> bool
    requires within { IsWithin (length lines.now) cite }
    ensures exact { IsTrue result ↔ shown.IsFromInstanceAt lines.now cite p.now s.now }
{
    match &lines[cite.first as usize - 1].boxed {
        None => false,
        Some(c) => shows_from(
            cited_sentence(lines, cite),
            cited_conclusion(lines, cite),
            c,
            p,
            s,
        ),
    }
}

fn shows_all(hypothesis: Option<&Sent>, end: Option<&Sent>, c: &Ident, s: &Sent) -> bool
    ensures exact { IsTrue result ↔ shown.ShowsAll (option_copied hypothesis.entry) (option_copied end.entry) c.now s.now }
{
    match s {
        Sent::All(x, matrix) => is_general_proof(hypothesis, end, c, x, matrix.get()),
        _ => false,
    }
}

fn is_general_proof(
    hypothesis: Option<&Sent>,
    end: Option<&Sent>,
    c: &Ident,
    x: &Ident,
    p: &Sent,
) -> bool
    ensures exact { IsTrue result ↔ shown.IsGeneral (option_copied hypothesis.entry) (option_copied end.entry) c.now x.now p.now }
{
    if hypothesis.is_none() && is_instance_by(end, p, x, c) {
        return true;
    }
    is_conditional_proof(hypothesis, end, c, x, p)
}

fn is_conditional_proof(
    hypothesis: Option<&Sent>,
    end: Option<&Sent>,
    c: &Ident,
    x: &Ident,
    p: &Sent,
) -> bool
    ensures exact { IsTrue result ↔ shown.IsConditional (option_copied hypothesis.entry) (option_copied end.entry) c.now x.now p.now }
{
    match p {
        Sent::If(q, r) => {
            is_instance_by(hypothesis, q.get(), x, c) && is_instance_by(end, r.get(), x, c)
        }
        _ => false,
    }
}

fn shows_from(hypothesis: Option<&Sent>, end: Option<&Sent>, c: &Ident, p: &Sent, s: &Sent) -> bool
    ensures exact { IsTrue result ↔ shown.ShowsFrom (option_copied hypothesis.entry) (option_copied end.entry) c.now p.now s.now }
{
    match p {
        Sent::Ex(x, q) => is_instance_by(hypothesis, q.get(), x, c) && is(end, s),
        _ => false,
    }
}

/// Whether there is a sentence, and it is the instance of `q` by `c`.
fn is_instance_by(found: Option<&Sent>, q: &Sent, x: &Ident, c: &Ident) -> bool
    ensures exact { IsTrue result ↔ shown.IsInstance (option_copied found.entry) q.now x.now c.now }
{
    match found {
        Some(t) => is_instance(q, x, c, t),
        None => false,
    }
}

/// Whether there is a sentence, and it is this one.
fn is(found: Option<&Sent>, s: &Sent) -> bool
    ensures exact { IsTrue result ↔ (option_copied found.entry ≡ Some s.now) }
{
    match found {
        Some(sentence) => same(sentence, s),
        None => false,
    }
}
