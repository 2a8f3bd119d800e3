ghost use Rattle.std.specs.Prelude.{◌≡◌, ◌<◌, ◌||◌, not, [], length, MatchOption};
ghost use Rattle.std.specs.List.{list_all, list_any};
ghost use Rattle.taut_con.specs.Values.{agree};
ghost use Rattle.boole_table.specs.declared.table.TableVerdict.TheVariants.{WrongAssessment};
ghost use Rattle.boole_table.specs.Questions.{cell as cell_of, others_true as are_others_true, decided, is_answered};
ghost use Rattle.boole_table.specs.Verdict.{wrong_answers};
ghost use Rattle.boole_table.specs.Judges.{IsFirst};

use crate::table::{Question, TableAnswer, TableRow};

/// The first question, from 1, whose answer is wrong or missing. Questions are decided over these rows, which are all rows of
/// the table.
pub(crate) fn first_wrong_answer(
    standard: &[TableRow],
    answers: &[TableAnswer],
    questions: &[Question],
) -> Option<u32>
    requires { length questions.now < 4294967296 }
    ensures value { MatchOption result (wrong_answers standard.now answers.now 1 questions.now ≡ []) (λ k. IsFirst (WrongAssessment k) (wrong_answers standard.now answers.now 1 questions.now)) }
{
    for index in 0..questions.len() {
        let number = index as u32 + 1;
        if !is_said(answers, number, decide(standard, questions[index])) {
            return Some(number);
        }
    }
    None
}

/// Whether one of the answers is this one to this question.
fn is_said(answers: &[TableAnswer], question: u32, yes: bool) -> bool
    ensures value { result ≡ is_answered answers.now question yes }
{
    answers
        .iter()
        .any(|answer| answer.question == question && answer.yes == yes)
}

/// The answer to the question, from all rows of the table.
fn decide(rows: &[TableRow], question: Question) -> bool
    ensures value { result ≡ decided rows.now question }
{
    match question {
        Question::Tautology(i) => is_always_true(rows, i),
        Question::Possible(i) => is_once_true(rows, i),
        Question::Equivalent(i, j) => are_equal(rows, i, j),
        Question::Consequence(i) => follows(rows, i),
    }
}

/// Whether the sentence is true in every row.
fn is_always_true(rows: &[TableRow], i: u32) -> bool
    ensures value { result ≡ list_all (cell_of i) rows.now }
{
    rows.iter().all(|row| cell(i, row))
}

/// Whether the sentence is true in some row.
fn is_once_true(rows: &[TableRow], i: u32) -> bool
    ensures value { result ≡ list_any (cell_of i) rows.now }
{
    rows.iter().any(|row| cell(i, row))
}

/// Whether the two sentences have the same value in every row.
fn are_equal(rows: &[TableRow], i: u32, j: u32) -> bool
    ensures value { result ≡ list_all (λ row. agree (cell_of i row) (cell_of j row)) rows.now }
{
    rows.iter().all(|row| are_same(cell(i, row), cell(j, row)))
}

/// Whether the two values are one.
fn are_same(a: bool, b: bool) -> bool
    ensures value { result ≡ agree a b }
{
    if a { b } else { !b }
}

/// Whether the sentence is true in every row in which all the others are true.
fn follows(rows: &[TableRow], i: u32) -> bool
    ensures value { result ≡ list_all (λ row. not (are_others_true i row) || cell_of i row) rows.now }
{
    rows.iter().all(|row| !others_true(i, row) || cell(i, row))
}

/// The value of the sentence with this number, from 1, in the row.
fn cell(number: u32, row: &TableRow) -> bool
    ensures value { result ≡ cell_of number row.now }
{
    let place = (number as usize).saturating_sub(1);
    let values = row.sentences.as_slice();
    place < values.len() && values[place]
}

/// Whether all sentences but the one with this number are true in the row.
fn others_true(number: u32, row: &TableRow) -> bool
    ensures value { result ≡ are_others_true number row.now }
{
    let values = row.sentences.as_slice();
    for place in 0..values.len() {
        if !values[place] && place + 1 != number as usize {
            return false;
        }
    }
    true
}
