ghost use Rattle.std.specs.Prelude.{◌≡◌, ◌≤◌, ◌<◌, ◌+◌, ◌^◌, [], ◌∷◌, ℕ, List, ◌==◌, false, length, map, replicate, IfOk, IsNone, MatchOption, Contains};
ghost use Rattle.std.specs.List.{AllByRecursion};
ghost use Rattle.taut_con.specs.Rows.{row_values};
ghost use Rattle.taut_con.specs.Values.{valuation};
ghost use Rattle.boole_table.specs.StandardTable.{standard_rows};
ghost use Rattle.boole_table.specs.Verdict.{wrong_cells, row_faults};
ghost use Rattle.boole_table.specs.Judges.{IsFirst, seen_flags, unset};

use crate::table::{TableRow, TableVerdict};
use fol_core::{Sent, same};
use std::alloc::{AllocError, Global};

/// The table that a text is compared with.
#[derive(Clone, Copy)]
pub struct Standard<'a> {
    pub letters: &'a [Sent],
    pub sentences: &'a [Sent],
    /// All rows, in the standard order.
    pub rows: &'a [TableRow],
}

/// For each of so many rows, that it wasn't seen.
pub(crate) fn no_rows(alloc: Global, count: usize) -> Result<Vec<bool>, AllocError>
    ensures { IfOk result (λ seen. seen.items ≡ replicate count false) }
{
    let mut seen = Vec::new(alloc);
    for _row in 0..count {
        seen.push(false)?;
    }
    Ok(seen)
}

/// The first fault of the rows of a text, whose columns have these letters. Where there is none, the rows of the standard
/// order that are among them were seen.
pub(crate) fn first_wrong_row(
    standard: Standard<'_>,
    columns: &[Sent],
    rows: &[TableRow],
    seen: &mut [bool],
) -> Option<TableVerdict>
    requires few { length standard.letters.now ≤ 12 }
    requires are { standard.rows.now ≡ standard_rows standard.letters.now standard.sentences.now }
    requires among { AllByRecursion (Contains standard.letters.now) columns.now }
    requires short { length rows.now < 4294967296 }
    requires listed { length standard.sentences.now < 4294967296 }
    requires unseen { seen.old ≡ seen_flags columns.now standard.letters.now [] }
    ensures value { MatchOption result (row_faults columns.now standard.entry.letters.now standard.entry.sentences.now [] 1 rows.now ≡ []) (λ verdict. IsFirst verdict (row_faults columns.now standard.entry.letters.now standard.entry.sentences.now [] 1 rows.now)) }
    ensures seen { IsNone result → seen.new ≡ seen_flags columns.now standard.entry.letters.now rows.now }
{
    for index in 0..rows.len() {
        let row = &rows[index];
        let number = row_number(standard.letters, columns, row.letters.as_slice());
        if seen[number] {
            return Some(TableVerdict::RepeatedRow(index as u32 + 1));
        }
        seen[number] = true;
        if let Some(verdict) = wrong_cell(
            index as u32 + 1,
            row.sentences.as_slice(),
            standard.rows[number].sentences.as_slice(),
        ) {
            return Some(verdict);
        }
    }
    None
}

/// The number, from 0, of the standard row that gives the letters the values that they have beside the columns.
fn row_number(letters: &[Sent], columns: &[Sent], values: &[bool]) -> usize
    requires { length letters.now ≤ 12 }
    ensures below { result < 2 ^ length letters.now }
    ensures row { row_values (length letters.now) (result + 1) ≡ map (valuation columns.now values.now) letters.now }
{
    let mut number: usize = 0;
    for letter in letters {
        number = 2 * number + half(value_beside(letter, columns, values));
    }
    number
}

/// Which half of the rows has the value: the first one, 0, or the second one, 1.
fn half(value: bool) -> usize
    ensures below { result ≤ 1 }
    ensures value { (result == 0) ≡ value }
{
    if value { 0 } else { 1 }
}

/// The value beside the letter; false where there is none.
fn value_beside(letter: &Sent, columns: &[Sent], values: &[bool]) -> bool
    ensures value { result ≡ valuation columns.now values.now letter.now }
{
    for place in 0..columns.len() {
        if same(&columns[place], letter) {
            return place < values.len() && values[place];
        }
    }
    false
}

/// The fault of the first cell of row n of a text whose given value isn't the right one.
fn wrong_cell(n: u32, given: &[bool], right: &[bool]) -> Option<TableVerdict>
    requires { length right.now < 4294967296 }
    ensures value { MatchOption result (wrong_cells n 1 given.now right.now ≡ []) (λ verdict. IsFirst verdict (wrong_cells n 1 given.now right.now)) }
{
    for place in 0..right.len() {
        if place >= given.len() {
            return None;
        }
        if given[place] != right[place] {
            return Some(TableVerdict::WrongCell(n, place as u32 + 1));
        }
    }
    None
}

/// The first row of the standard order, from 1, that wasn't seen.
pub(crate) fn first_missing(seen: &[bool]) -> Option<u32>
    requires { length seen.now < 4294967296 }
    ensures value { MatchOption result (unset 1 seen.now ≡ []) (λ row. (more : List ℕ) × (unset 1 seen.now ≡ row ∷ more)) }
{
    for index in 0..seen.len() {
        if !seen[index] {
            return Some(index as u32 + 1);
        }
    }
    None
}
