ghost use Rattle.std.specs.Prelude.{◌≡◌, ◌+◌, ◌<◌, ◌⊎◌, ◌↔◌, length, Ok, IfOk, IfErr, IsErrAnd, IsTrue};
ghost use Rattle.std.specs.Str.Lines.{lines};
ghost use Rattle.physical_lines.specs.Physical.{IsHeader};
ghost use Rattle.boole_table.specs.declared.table.TableText.{TableText as Answer};
ghost use Rattle.boole_table.specs.WrittenLines.{written_from};
ghost use Rattle.boole_table.specs.Asked.{any_table};
ghost use Rattle.boole_table.specs.TableLines.{table_header, SpellsTable};
ghost use Rattle.boole_table.specs.TableFaults.{SentencesFail, LettersFail, IsFirstTableFault};
ghost use Rattle.boole_table.specs.Readers.{asked_by, SpellsFromLetters, SpellsFromSentences};

use crate::asked::Asked;
use crate::body::{Body, Form, read_body};
use crate::fault::TableTextFault;
use crate::list_line::{letters_line, sentences_line};
use crate::table::{Table, TableText};
use crate::written::next_written;
use fol_core::Sents;
use std::alloc::Global;
use texts::trim_end;

/// Reads a table text: of its lines that aren't blank the first is the header `table 1`, the second lists letters, each of
/// them once, the third lists sentences, and the others are rows and then answers. A refusal has the number of the least
/// faulty physical line, counted from 1, and its fault. `Memory` says only that memory was refused.
///
/// # Requirements
///
/// The text has fewer than 2^32 bytes, so that the number of a line is a `u32`.
pub fn read_table(alloc: Global, text: &[u8]) -> Result<TableText, (u32, TableTextFault)>
    requires { length text.now < 4294967296 }

    // What is read is what the text spells.
    ensures read { IfOk result (SpellsTable any_table text.now) }

    // What the text spells is read, unless memory is refused.
    ensures exact { (t : Answer) → SpellsTable any_table text.now t → (result ≡ Ok t) ⊎ IsErrAnd result (λ e. e.1 ≡ TableTextFault.Memory) }

    // Else the line is the least faulty one, and the fault its own.
    ensures refused { IfErr result (λ e. (e.1 ≡ TableTextFault.Memory) ⊎ IsFirstTableFault any_table text.now e.0 e.1) }
{
    read_asked(alloc, Asked::Any, text)
}

/// Reads the table text that is asked for.
pub(crate) fn read_asked(
    alloc: Global,
    asked: Asked<'_>,
    text: &[u8],
) -> Result<TableText, (u32, TableTextFault)>
    requires { length text.now < 4294967296 }
    ensures read { IfOk result (SpellsTable (asked_by asked.entry) text.now) }
    ensures counted { IfOk result (λ t. length t.table.rows < 4294967296) }
    ensures refused { IfErr result (λ e. (e.1 ≡ TableTextFault.Memory) ⊎ IsFirstTableFault (asked_by asked.entry) text.now e.0 e.1) }
{
    let Some(first) = next_written(0, text) else {
        return Err((1, TableTextFault::Header));
    };
    if is_header(first.line) {
        read_from_letters(alloc, asked, first.place, first.rest)
    } else {
        Err((first.place, TableTextFault::Header))
    }
}

fn is_header(line: &[u8]) -> bool
    ensures { IsTrue result ↔ IsHeader table_header line.now }
{
    trim_end(line) == b"table 1".as_slice()
}

/// Reads the lines behind the header, which is the physical line `before`.
fn read_from_letters(
    alloc: Global,
    asked: Asked<'_>,
    before: u32,
    text: &[u8],
) -> Result<TableText, (u32, TableTextFault)>
    requires { before + 1 + length text.now < 4294967296 }
    ensures read { IfOk result (SpellsFromLetters (asked_by asked.entry) (written_from (before + 1) (lines text.now))) }
    ensures counted { IfOk result (λ t. length t.table.rows < 4294967296) }
    ensures refused { IfErr result (λ e. (e.1 ≡ TableTextFault.Memory) ⊎ LettersFail (asked_by asked.entry) before (written_from (before + 1) (lines text.now)) e.0 e.1) }
{
    let Some(next) = next_written(before, text) else {
        return Err((before + 1, TableTextFault::Letters));
    };
    match letters_line(alloc, asked, next.line) {
        Ok(Some(letters)) => { read_from_sentences(alloc, asked, letters, next.place, next.rest) }
        Ok(None) => Err((next.place, TableTextFault::Letters)),
        Err(_refused) => Err((next.place, TableTextFault::Memory)),
    }
}

/// Reads the lines behind the line that lists the letters, which is the physical line `before`.
fn read_from_sentences(
    alloc: Global,
    asked: Asked<'_>,
    letters: Sents,
    before: u32,
    text: &[u8],
) -> Result<TableText, (u32, TableTextFault)>
    requires { before + 1 + length text.now < 4294967296 }
    ensures read { IfOk result (SpellsFromSentences (asked_by asked.entry) letters (written_from (before + 1) (lines text.now))) }
    ensures counted { IfOk result (λ t. length t.table.rows < 4294967296) }
    ensures refused { IfErr result (λ e. (e.1 ≡ TableTextFault.Memory) ⊎ SentencesFail (asked_by asked.entry) letters before (written_from (before + 1) (lines text.now)) e.0 e.1) }
{
    let Some(next) = next_written(before, text) else {
        return Err((before + 1, TableTextFault::Sentences));
    };
    let sentences = match sentences_line(alloc, asked, next.line) {
        Ok(Some(sentences)) => sentences,
        Ok(None) => return Err((next.place, TableTextFault::Sentences)),
        Err(_refused) => return Err((next.place, TableTextFault::Memory)),
    };
    let form = Form {
        asked,
        letters: letters.len(),
        sentences: sentences.len(),
    };
    match read_body(alloc, form, next.place, next.rest) {
        Ok(body) => Ok(table_text(letters, sentences, body)),
        Err(fault) => Err(fault),
    }
}

/// The table with these letters, sentences, rows and answers.
fn table_text(letters: Sents, sentences: Sents, body: Body) -> TableText
    ensures letters { result.table.letters ≡ letters }
    ensures sentences { result.table.sentences ≡ sentences }
    ensures rows { result.table.rows ≡ body.rows }
    ensures answers { result.answers ≡ body.answers }
{
    let Body { rows, answers } = body;
    TableText {
        table: Table {
            letters,
            sentences,
            rows,
        },
        answers,
    }
}
