ghost use Rattle.std.specs.Prelude.{◌≡◌, ◌++◌, ◌∷◌, [], map, IfOk, OnOk, if◌then◌else◌};
ghost use Rattle.std.specs.List.{flat_map};
ghost use Rattle.fol_text.specs.Printed.{printed, separated};
ghost use Rattle.boole_table.specs.Asked.{any_table};
ghost use Rattle.boole_table.specs.RowLines.{value_byte};
ghost use Rattle.boole_table.specs.TableLines.{SpellsTable};
ghost use Rattle.boole_table.specs.PrintedTable.{list_text, row_text, rows_text, printed_table, IsReadBack, without_answers};

use crate::table::{Table, TableRow};
use fol_core::Sent;
use fol_text::print_sentence;
use lists::Listed;
use std::alloc::{AllocError, Global};

/// The bytes of a text.
type Bytes = Listed<u8>;

/// The text of the table: the header `table 1`, the letters, the sentences, and a line for each row. Each line ends with a
/// line feed. Sentences have ` ; ` between them, and values one space.
pub fn print_table(alloc: Global, t: &Table) -> Result<Listed<u8>, AllocError>
    ensures text { IfOk result (λ text. text ≡ printed_table t.now) }

    // It is read as the same table, without answers, where there is a sentence, the letters differ, each row has a value for
    // each letter and each sentence, and each letter and each sentence is well formed, closed and within the limits, and has
    // at most 4,000 bytes as text.
    ensures read_back { IfOk result (λ text. IsReadBack t.now → SpellsTable any_table text (without_answers t.now)) }
{
    let mut text = Listed::new(alloc);
    text.extend(b"table 1\n")?;
    add_list(alloc, b"letters", t.letters.as_slice(), &mut text)?;
    text.extend(b"\n")?;
    add_list(alloc, b"sentences", t.sentences.as_slice(), &mut text)?;
    text.extend(b"\n")?;
    add_rows(t.rows.as_slice(), &mut text)?;
    Ok(text)
}

/// Puts the keyword last, and behind it the sentences.
fn add_list(
    alloc: Global,
    word: &[u8],
    sentences: &[Sent],
    text: &mut Bytes,
) -> Result<(), AllocError>
    ensures { OnOk result (text.new ≡ text.old ++ list_text word.now sentences.now) }
{
    text.extend(word)?;
    if sentences.is_empty() {
        return Ok(());
    }
    text.extend(b" ")?;
    add_sentences(alloc, sentences, text)
}

/// Puts the sentences last, with semicolons between them.
fn add_sentences(alloc: Global, sentences: &[Sent], text: &mut Bytes) -> Result<(), AllocError>
    ensures { OnOk result (text.new ≡ text.old ++ separated (32 ∷ 59 ∷ 32 ∷ []) (map printed sentences.now)) }
{
    let mut is_first = true;
    for sentence in sentences {
        separate(is_first, text)?;
        is_first = false;
        add_sentence(alloc, sentence, text)?;
    }
    Ok(())
}

/// Puts a semicolon between spaces last, unless the first sentence comes next.
fn separate(is_first: bool, text: &mut Bytes) -> Result<(), AllocError>
    ensures { OnOk result (text.new ≡ text.old ++ (if is_first then [] else 32 ∷ 59 ∷ 32 ∷ [])) }
{
    if is_first {
        Ok(())
    } else {
        text.extend(b" ; ")
    }
}

/// Puts the sentence last.
fn add_sentence(alloc: Global, sentence: &Sent, text: &mut Bytes) -> Result<(), AllocError>
    ensures { OnOk result (text.new ≡ text.old ++ printed sentence.now) }
{
    let stated = print_sentence(alloc, sentence)?;
    text.extend(stated.as_slice())
}

/// Puts the rows last.
fn add_rows(rows: &[TableRow], text: &mut Bytes) -> Result<(), AllocError>
    ensures { OnOk result (text.new ≡ text.old ++ rows_text rows.now) }
{
    for row in rows {
        add_row(row, text)?;
    }
    Ok(())
}

/// Puts the row and a line feed last.
fn add_row(row: &TableRow, text: &mut Bytes) -> Result<(), AllocError>
    ensures { OnOk result (text.new ≡ text.old ++ (row_text row.now ++ 10 ∷ [])) }
{
    add_letters(row.letters.as_slice(), text)?;
    text.extend(b"|")?;
    add_values(row.sentences.as_slice(), text)?;
    text.extend(b"\n")
}

/// Puts the letters' values last, each with a space behind it.
fn add_letters(values: &[bool], text: &mut Bytes) -> Result<(), AllocError>
    ensures { OnOk result (text.new ≡ text.old ++ flat_map (λ b. value_byte b ∷ 32 ∷ []) values.now) }
{
    for value in values {
        text.extend(&[byte_of(*value), b' '])?;
    }
    Ok(())
}

/// Puts the sentences' values last, each behind a space.
fn add_values(values: &[bool], text: &mut Bytes) -> Result<(), AllocError>
    ensures { OnOk result (text.new ≡ text.old ++ flat_map (λ b. 32 ∷ value_byte b ∷ []) values.now) }
{
    for value in values {
        text.extend(&[b' ', byte_of(*value)])?;
    }
    Ok(())
}

/// The byte of a truth value.
fn byte_of(value: bool) -> u8
    ensures { result ≡ value_byte value }
{
    if value { b'T' } else { b'F' }
}
