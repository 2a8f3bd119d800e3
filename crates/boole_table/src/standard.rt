ghost use Rattle.std.specs.Prelude.{◌≡◌, ◌↔◌, ◌≤◌, ◌<◌, ◌+◌, ◌%◌, ◌^◌, ◌++◌, ◌⊎◌, length, map, Err, IfOk, IfErr, OnOk};
ghost use Rattle.std.specs.List.{range_with_len};
ghost use Rattle.fol_core.specs.Size.{nodes, total};
ghost use Rattle.taut_con.specs.Letters.{letters as letters_in};
ghost use Rattle.taut_con.specs.Rows.{row_values};
ghost use Rattle.boole_table.specs.StandardTable.{standard_row, standard_rows, standard_table};
ghost use Rattle.boole_table.specs.TableWords.{AreWords, cells_at, row_by_words};

use crate::fault::TableFault;
use crate::table::{Flags, Table, TableRow, TableRows};
use bit_sets::BitSet;
use fol_core::{Sent, Sents, copy};
use lists::Listed;
use std::alloc::{AllocError, Global};
use taut_con::{letter_in_row, letters_of, word_values};

/// The most letters that a table may have.
const MOST_LETTERS: usize = 12;

/// For each sentence a word, whose bits are its values in 64 rows.
type Words = Listed<u64>;

/// The truth table of the sentences: their letters in the order of their first occurrence, and a row for each way to give
/// them values, in the standard order.
#[tactic(auto, using(taut_con::proofs::Bounding::letters_fewer))]
pub fn make_table(alloc: Global, sentences: &Sents) -> Result<Table, TableFault>
    requires small { total (map nodes sentences.now) < 4294967296 }

    // The table that is made is the standard one.
    ensures made { IfOk result (λ t. t ≡ standard_table sentences.now) }

    // It is made, unless memory is refused, where there are at most 12 letters.
    ensures few { length (letters_in sentences.now) ≤ 12 → IfErr result (λ fault. fault ≡ TableFault.Memory) }

    // Else their number is named.
    ensures many { 12 < length (letters_in sentences.now) → (result ≡ Err (TableFault.TooManyLetters (length (letters_in sentences.now)))) ⊎ (result ≡ Err TableFault.Memory) }
{
    let letters = letters_of(alloc, sentences)?;
    if letters.len() > MOST_LETTERS {
        return Err(TableFault::TooManyLetters(letters.len() as u32));
    }
    let rows = make_rows(alloc, &letters, sentences.as_slice())?;
    let sentences = copy_all(alloc, sentences.as_slice())?;
    Ok(Table {
        letters,
        sentences,
        rows,
    })
}

/// All rows of the table with these letters and sentences.
pub(crate) fn make_rows(
    alloc: Global,
    letters: &Sents,
    sentences: &[Sent],
) -> Result<TableRows, AllocError>
    requires { length letters.now ≤ 12 }
    ensures { IfOk result (λ rows. rows ≡ standard_rows letters.now sentences.now) }
{
    let count = row_count(letters.len());
    let mut rows: TableRows = Listed::new(alloc);
    for word in 0..(count + 63) / 64 {
        let before = 64 * word;
        add_rows(
            alloc,
            letters,
            sentences,
            before,
            (count - before).min(64),
            &mut rows,
        )?;
    }
    Ok(rows)
}

/// How many rows a table of so many letters has.
#[tactic(auto, using(crate::proofs::WordRows::few_rows))]
fn row_count(letters: usize) -> u32
    requires { letters ≤ 12 }
    ensures value { result ≡ 2 ^ letters }
    ensures most { result ≤ 4096 }
{
    1 << letters
}

/// Adds so many rows, at most 64, the first of which stands behind so many in the table.
fn add_rows(
    alloc: Global,
    letters: &Sents,
    sentences: &[Sent],
    before: u32,
    count: u32,
    rows: &mut TableRows,
) -> Result<(), AllocError>
    requires few { length letters.now ≤ 12 }
    requires aligned { before % 64 ≡ 0 }
    requires small { before < 4096 }
    requires at_most { count ≤ 64 }
    ensures added { OnOk result (rows.new ≡ rows.old ++ map (standard_row letters.now sentences.now) (range_with_len (before + 1) count)) }
{
    let words = make_words(alloc, letters, sentences, before + 1)?;
    for place in 0..count {
        let row = before + 1 + place;
        rows.add(make_row(alloc, letters.len() as u32, row, words.as_slice(), place)?)?;
    }
    Ok(())
}

/// A word for each of the sentences, which has its values in 64 rows, from row `base` on.
fn make_words(
    alloc: Global,
    letters: &Sents,
    sentences: &[Sent],
    base: u32,
) -> Result<Words, AllocError>
    requires few { length letters.now ≤ 16 }
    requires aligned { base % 64 ≡ 1 }
    ensures { IfOk result (AreWords letters.now sentences.now base) }
{
    let mut words: Words = Listed::new(alloc);
    for sentence in sentences {
        words.add(word_values(sentence, letters, base))?;
    }
    Ok(words)
}

/// The row with the values of so many letters in it, and of the sentences, of each the bit at the place.
fn make_row(
    alloc: Global,
    letters: u32,
    row: u32,
    words: &[u64],
    place: u32,
) -> Result<TableRow, AllocError>
    requires few { letters ≤ 12 }
    requires low { place < 64 }
    ensures { IfOk result (λ made. made ≡ row_by_words letters row words.now place) }
{
    let values = make_values(alloc, letters, row)?;
    let cells = make_cells(alloc, words, place)?;
    Ok(TableRow {
        letters: values,
        sentences: cells,
    })
}

/// The values of so many letters in the row.
fn make_values(alloc: Global, letters: u32, row: u32) -> Result<Flags, AllocError>
    requires { letters ≤ 12 }
    ensures { IfOk result (λ values. values ≡ row_values letters row) }
{
    let mut values: Flags = Listed::new(alloc);
    for index in 0..letters {
        values.add(letter_in_row(letters, row, index + 1))?;
    }
    Ok(values)
}

/// The bit of each of the words at the place.
fn make_cells(alloc: Global, words: &[u64], place: u32) -> Result<Flags, AllocError>
    requires { place < 64 }
    ensures { IfOk result (λ cells. cells ≡ cells_at words.now place) }
{
    let mut cells: Flags = Listed::new(alloc);
    for word in words {
        cells.add(BitSet { bits: *word }.has(place))?;
    }
    Ok(cells)
}

/// The same sentences once more.
fn copy_all(alloc: Global, sentences: &[Sent]) -> Result<Sents, AllocError>
    ensures { IfOk result (λ copied. copied ≡ sentences.now) }
{
    let mut copies: Sents = Listed::new(alloc);
    for sentence in sentences {
        copies.add(copy(alloc, sentence)?)?;
    }
    Ok(copies)
}
