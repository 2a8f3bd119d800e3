ghost use Rattle.std.specs.Prelude.{◌≡◌, false, get_or};
ghost use Rattle.std.specs.List.{list_any, list_all, position_or_len};
ghost use Rattle.deriv_laws.specs.Discharge.{alike};
ghost use Rattle.taut_con.specs.Values.{value, valuation};

use fol_core::{Sent, same};

/// The value of the sentence where each letter has the value beside it. A letter that isn't in the list, or has no
/// value beside it, is false.
#[cycle(value)]
#[tactic(auto, using(crate::proofs::Equations::value_atom, crate::proofs::Equations::value_eq, crate::proofs::Equations::value_bottom, crate::proofs::Equations::value_not, crate::proofs::Equations::value_and, crate::proofs::Equations::value_or, crate::proofs::Equations::value_if, crate::proofs::Equations::value_iff, crate::proofs::Equations::value_all, crate::proofs::Equations::value_ex))]
pub fn truth_value(s: &Sent, letters: &[Sent], values: &[bool]) -> bool
    ensures value { result ≡ value (valuation letters.now values.now) s.now }
{
    match s {
        Sent::Atom(_, _) | Sent::Eq(_, _) | Sent::All(_, _) | Sent::Ex(_, _) => {
            value_beside(s, letters, values)
        }
        Sent::Bottom => false,
        Sent::Not(a) => !truth_value(a.get(), letters, values),
        Sent::And(parts) => are_all_true(parts.as_slice(), letters, values),
        Sent::Or(parts) => is_some_true(parts.as_slice(), letters, values),
        Sent::If(a, b) => {
            !truth_value(a.get(), letters, values) || truth_value(b.get(), letters, values)
        }
        Sent::Iff(a, b) => {
            truth_value(a.get(), letters, values) == truth_value(b.get(), letters, values)
        }
    }
}

#[cycle(value)]
fn are_all_true(sentences: &[Sent], letters: &[Sent], values: &[bool]) -> bool
    ensures value { result ≡ list_all (value (valuation letters.now values.now)) sentences.now }
{
    for s in sentences {
        if !truth_value(s, letters, values) {
            return false;
        }
    }
    true
}

#[cycle(value)]
fn is_some_true(sentences: &[Sent], letters: &[Sent], values: &[bool]) -> bool
    ensures value { result ≡ list_any (value (valuation letters.now values.now)) sentences.now }
{
    for s in sentences {
        if truth_value(s, letters, values) {
            return true;
        }
    }
    false
}

/// The value beside the letter.
#[tactic(auto, using(crate::proofs::Placing::valued_at))]
fn value_beside(letter: &Sent, letters: &[Sent], values: &[bool]) -> bool
    ensures value { result ≡ valuation letters.now values.now letter.now }
{
    let place = place_of(letters, letter);
    place < letters.len() && value_at(values, place)
}

/// The value at the place; false past the end.
fn value_at(values: &[bool], place: usize) -> bool
    ensures value { result ≡ get_or values.now place false }
{
    place < values.len() && values[place]
}

/// The place of the letter among these, from 0; their number where it is none of them.
pub(crate) fn place_of(letters: &[Sent], letter: &Sent) -> usize
    ensures value { result ≡ position_or_len (λ l. alike l letter.now) letters.now }
{
    for i in 0..letters.len() {
        if is_alike(&letters[i], letter) {
            return i;
        }
    }
    letters.len()
}

/// Whether the two are one sentence.
fn is_alike(p: &Sent, q: &Sent) -> bool
    ensures value { result ≡ alike p.now q.now }
{
    same(p, q)
}
