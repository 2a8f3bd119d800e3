ghost use Rattle.std.specs.Prelude.{◌≡◌, ◌≤◌, ◌%◌, length};
ghost use Rattle.std.specs.List.{list_any, list_all};
ghost use Rattle.taut_con.specs.Rows.{row_values};
ghost use Rattle.taut_con.specs.Values.{valuation};
ghost use Rattle.taut_con.specs.Words.{AreRows, value_in_row};

use crate::evaluation::rows_of_letter;
use crate::values::place_of;
use bit_sets::BitSet;
use fol_core::{Sent, Sents};

/// The values of the sentence in 64 rows of the table of these letters: bit k is its value in row `base + k`. A letter of
/// the sentence that isn't in the list is false. It takes no memory.
pub fn word_values(s: &Sent, letters: &Sents, base: u32) -> u64
    requires few { length letters.now ≤ 16 }
    requires aligned { base % 64 ≡ 1 }
    ensures values { AreRows (value_in_row letters.now s.now) base result }
{
    rows_where_true(s, letters.as_slice(), base).bits
}

/// The rows in which the sentence is true, of the 64 from row `base` on.
#[cycle(words)]
#[tactic(auto, using(crate::proofs::Equations::value_atom, crate::proofs::Equations::value_eq, crate::proofs::Equations::value_bottom, crate::proofs::Equations::value_not, crate::proofs::Equations::value_and, crate::proofs::Equations::value_or, crate::proofs::Equations::value_if, crate::proofs::Equations::value_iff, crate::proofs::Equations::value_all, crate::proofs::Equations::value_ex))]
fn rows_where_true(s: &Sent, letters: &[Sent], base: u32) -> BitSet
    requires few { length letters.now ≤ 16 }
    requires aligned { base % 64 ≡ 1 }
    ensures rows { AreRows (value_in_row letters.now s.now) base result.bits }
{
    match s {
        Sent::Atom(_, _) | Sent::Eq(_, _) | Sent::All(_, _) | Sent::Ex(_, _) => {
            rows_beside(s, letters, base)
        }
        Sent::Bottom => BitSet::all_or_none(false),
        Sent::Not(a) => rows_where_true(a.get(), letters, base).complement(),
        Sent::And(parts) => rows_where_all_true(parts.as_slice(), letters, base),
        Sent::Or(parts) => rows_where_some_true(parts.as_slice(), letters, base),
        Sent::If(a, b) => rows_where_true(a.get(), letters, base)
            .complement()
            .union(rows_where_true(b.get(), letters, base)),
        Sent::Iff(a, b) => rows_where_true(a.get(), letters, base)
            .symmetric_difference(rows_where_true(b.get(), letters, base))
            .complement(),
    }
}

#[cycle(words)]
fn rows_where_all_true(sentences: &[Sent], letters: &[Sent], base: u32) -> BitSet
    requires few { length letters.now ≤ 16 }
    requires aligned { base % 64 ≡ 1 }
    ensures rows { AreRows (λ r. list_all (λ s. value_in_row letters.now s r) sentences.now) base result.bits }
{
    let mut rows = BitSet::all_or_none(true);
    for s in sentences {
        rows = rows.intersection(rows_where_true(s, letters, base));
    }
    rows
}

#[cycle(words)]
fn rows_where_some_true(sentences: &[Sent], letters: &[Sent], base: u32) -> BitSet
    requires few { length letters.now ≤ 16 }
    requires aligned { base % 64 ≡ 1 }
    ensures rows { AreRows (λ r. list_any (λ s. value_in_row letters.now s r) sentences.now) base result.bits }
{
    let mut rows = BitSet::all_or_none(false);
    for s in sentences {
        rows = rows.union(rows_where_true(s, letters, base));
    }
    rows
}

/// The rows in which the letter is true; none where it isn't in the list.
fn rows_beside(letter: &Sent, letters: &[Sent], base: u32) -> BitSet
    requires few { length letters.now ≤ 16 }
    requires aligned { base % 64 ≡ 1 }
    ensures rows { AreRows (λ r. valuation letters.now (row_values (length letters.now) r) letter.now) base result.bits }
{
    rows_of_letter(place_of(letters, letter), letters.len() as u32, base)
}
