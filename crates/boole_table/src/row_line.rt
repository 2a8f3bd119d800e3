ghost use Rattle.std.specs.Prelude.{◌≡◌, ◌++◌, false, map, IsTrue, IfOk, MatchOption};
ghost use Rattle.texts.specs.Blanks.{is_blank as blank};
ghost use Rattle.boole_table.specs.declared.table.TableRow.{TableRow as Row};
ghost use Rattle.boole_table.specs.RowLines.{IsRow, value_byte, row_bytes, without_blanks, begins_blank};
ghost use Rattle.boole_table.specs.Readers.{is_value, stops};

use crate::table::{Flags, TableRow};
use lists::Listed;
use std::alloc::{AllocError, Global};
use texts::after_prefix;

/// The row that the line is, with so many letters and so many sentences; none where it is no such row.
pub(crate) fn row_line(
    alloc: Global,
    letters: usize,
    sentences: usize,
    line: &[u8],
) -> Result<Option<TableRow>, AllocError>
    ensures { IfOk result (λ found. MatchOption found ((row : Row) → IsRow letters sentences line.now row → ⊥) (IsRow letters sentences line.now)) }
{
    if is_indented(line) {
        return Ok(None);
    }
    match read_row(alloc, line)? {
        Some(row) => {
            if row.letters.len() == letters && row.sentences.len() == sentences {
                Ok(Some(row))
            } else {
                Ok(None)
            }
        }
        None => Ok(None),
    }
}

/// Whether the line begins with a blank.
fn is_indented(line: &[u8]) -> bool
    ensures { result ≡ begins_blank line.now }
{
    match line {
        [] => false,
        [first, ..] => is_blank(*first),
    }
}

/// The row that the line is, however many values it has; none where it is no row.
fn read_row(alloc: Global, line: &[u8]) -> Result<Option<TableRow>, AllocError>
    ensures { IfOk result (λ found. MatchOption found ((row : Row) → without_blanks line.now ≡ row_bytes row → ⊥) (λ row. without_blanks line.now ≡ row_bytes row)) }
{
    let (letters, behind) = read_values(alloc, line)?;
    let Some(rest) = after_prefix(behind, b"|") else {
        return Ok(None);
    };
    let (sentences, end) = read_values(alloc, rest)?;
    if end.is_empty() {
        Ok(Some(TableRow { letters, sentences }))
    } else {
        Ok(None)
    }
}

/// The values with which the text begins, with blanks anywhere, and what follows from the first other byte on.
fn read_values(alloc: Global, text: &[u8]) -> Result<(Flags, &[u8]), AllocError>
    ensures values { IfOk result (λ p. without_blanks text.now ≡ map value_byte p.0 ++ without_blanks p.1.now) }
    ensures stop { IfOk result (λ p. IsTrue (stops p.1.now)) }
{
    let mut values: Flags = Listed::new(alloc);
    for place in 0..text.len() {
        let byte = text[place];
        if is_blank(byte) {
            continue;
        }
        match value_of(byte) {
            Some(value) => values.add(value)?,
            None => return Ok((values, &text[place..])),
        }
    }
    Ok((values, &[]))
}

/// Whether the byte is a blank: a space or a tab.
pub(crate) fn is_blank(byte: u8) -> bool
    ensures { result ≡ blank byte }
{
    matches!(byte, b' ' | b'\t')
}

/// The truth value that the byte is; none where it is none.
fn value_of(byte: u8) -> Option<bool>
    ensures value { MatchOption result (is_value byte ≡ false) (λ b. byte ≡ value_byte b) }
{
    match byte {
        b'T' => Some(true),
        b'F' => Some(false),
        _ => None,
    }
}
