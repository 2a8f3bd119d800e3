ghost use Rattle.std.specs.Prelude.{◌≡◌, ◌%◌, false, get_or};
ghost use Rattle.std.specs.List.{list_any, list_all};
ghost use Rattle.taut_con.specs.Rows.{row_values};
ghost use Rattle.taut_con.specs.Compiled.{formula_value};
ghost use Rattle.taut_con.specs.Words.{AreRows};

use crate::formula::Formula;
use crate::rows::letter_word;
use bit_sets::BitSet;

/// The rows in which the formula is true, of the 64 from row `base` on of a table of so many letters.
#[cycle(rows)]
pub(crate) fn rows_where(formula: &Formula, letters: u32, base: u32) -> BitSet
    requires aligned { base % 64 ≡ 1 }
    ensures rows { AreRows (λ r. formula_value (row_values letters r) formula.now) base result.bits }
{
    match formula {
        Formula::Letter(place) => rows_of_letter(*place, letters, base),
        Formula::Falsum => BitSet::all_or_none(false),
        Formula::Not(a) => rows_where(a.get(), letters, base).complement(),
        Formula::And(parts) => rows_where_all(parts.as_slice(), letters, base),
        Formula::Or(parts) => rows_where_some(parts.as_slice(), letters, base),
        Formula::If(a, b) => rows_where(a.get(), letters, base)
            .complement()
            .union(rows_where(b.get(), letters, base)),
        Formula::Iff(a, b) => rows_where(a.get(), letters, base)
            .symmetric_difference(rows_where(b.get(), letters, base))
            .complement(),
    }
}

/// The rows in which each of the formulas is true.
#[cycle(rows)]
pub(crate) fn rows_where_all(formulas: &[Formula], letters: u32, base: u32) -> BitSet
    requires aligned { base % 64 ≡ 1 }
    ensures rows { AreRows (λ r. list_all (formula_value (row_values letters r)) formulas.now) base result.bits }
{
    let mut rows = BitSet::all_or_none(true);
    for formula in formulas {
        rows = rows.intersection(rows_where(formula, letters, base));
    }
    rows
}

#[cycle(rows)]
fn rows_where_some(formulas: &[Formula], letters: u32, base: u32) -> BitSet
    requires aligned { base % 64 ≡ 1 }
    ensures rows { AreRows (λ r. list_any (formula_value (row_values letters r)) formulas.now) base result.bits }
{
    let mut rows = BitSet::all_or_none(false);
    for formula in formulas {
        rows = rows.union(rows_where(formula, letters, base));
    }
    rows
}

/// The rows in which the letter at a place, from 0, is true; none past the last letter.
pub(crate) fn rows_of_letter(place: usize, letters: u32, base: u32) -> BitSet
    requires aligned { base % 64 ≡ 1 }
    ensures rows { AreRows (λ r. get_or (row_values letters r) place false) base result.bits }
{
    if place < letters as usize {
        letter_word(letters, base, place as u32 + 1)
    } else {
        BitSet::all_or_none(false)
    }
}
