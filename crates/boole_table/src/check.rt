ghost use Rattle.std.specs.Prelude.{◌≡◌, ◌≤◌, ◌<◌, length, IfOk, Contains};
ghost use Rattle.std.specs.List.{AllByRecursion};
ghost use Rattle.taut_con.specs.Letters.{letters as letters_in};
ghost use Rattle.boole_table.specs.StandardTable.{standard_rows};
ghost use Rattle.boole_table.specs.Verdict.{IsVerdict, faults_over, first_of};

use crate::answers::first_wrong_answer;
use crate::asked::Asked;
use crate::fault::TableTextFault;
use crate::read::read_asked;
use crate::rows::{Standard, first_missing, first_wrong_row, no_rows};
use crate::standard::make_rows;
use crate::table::{Question, Questions, TableText, TableVerdict};
use fol_core::Sents;
use std::alloc::{AllocError, Global};
use taut_con::letters_of;

/// Judges a student's table text for an exercise. Its letters may stand in any order, and so may its rows. Where the text isn't
/// the table text of the exercise, its least faulty line is named; else the least row of the text that repeats an earlier one
/// or has a wrong cell; else the least row of the standard order that is missing; else the least question whose answer is
/// wrong or missing.
///
/// # Requirements
///
/// The sentences have at most 12 letters together. The text has fewer than 2^32 bytes, and there are fewer than 2^32
/// sentences and questions.
/// Each number in a question is from 1 to the number of sentences: for another one the value of the question means nothing.
pub fn check_table(
    alloc: Global,
    sentences: &Sents,
    questions: &Questions,
    text: &[u8],
) -> Result<TableVerdict, AllocError>
    requires few { length (letters_in sentences.now) ≤ 12 }
    requires short { length text.now < 4294967296 }
    requires few_sentences { length sentences.now < 4294967296 }
    requires few_questions { length questions.now < 4294967296 }
    ensures verdict { IfOk result (IsVerdict sentences.now questions.now text.now) }
{
    let letters = letters_of(alloc, sentences)?;
    let asked = Asked::Exercise(
        letters.as_slice(),
        sentences.as_slice(),
        questions.len() as u32,
    );
    match read_asked(alloc, asked, text) {
        Ok(found) => {
            let rows = make_rows(alloc, &letters, sentences.as_slice())?;
            let standard = Standard {
                letters: letters.as_slice(),
                sentences: sentences.as_slice(),
                rows: rows.as_slice(),
            };
            judge(alloc, standard, questions.as_slice(), &found)
        }
        Err((_, TableTextFault::Memory)) => Err(AllocError),
        Err((line, fault)) => Ok(TableVerdict::Unreadable(line, fault)),
    }
}

/// The first of the faults of a table text that is the exercise's.
fn judge(
    alloc: Global,
    standard: Standard<'_>,
    questions: &[Question],
    found: &TableText,
) -> Result<TableVerdict, AllocError>
    requires few { length standard.letters.now ≤ 12 }
    requires are { standard.rows.now ≡ standard_rows standard.letters.now standard.sentences.now }
    requires among { AllByRecursion (Contains standard.letters.now) found.now.table.letters }
    requires short { length found.now.table.rows < 4294967296 }
    requires few_sentences { length standard.sentences.now < 4294967296 }
    requires few_questions { length questions.now < 4294967296 }
    ensures { IfOk result (λ verdict. verdict ≡ first_of (faults_over standard.entry.letters.now standard.entry.sentences.now questions.now found.now)) }
{
    let mut seen = no_rows(alloc, standard.rows.len())?;
    let rows = found.table.rows.as_slice();
    let columns = found.table.letters.as_slice();
    if let Some(verdict) = first_wrong_row(standard, columns, rows, &mut seen) {
        return Ok(verdict);
    }
    if let Some(row) = first_missing(&seen) {
        return Ok(TableVerdict::MissingRow(row));
    }
    match first_wrong_answer(standard.rows, found.answers.as_slice(), questions) {
        Some(question) => Ok(TableVerdict::WrongAssessment(question)),
        None => Ok(TableVerdict::Correct),
    }
}
