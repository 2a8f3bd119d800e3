ghost use Rattle.std.specs.Prelude.{◌≡◌, ◌↔◌, ◌+◌, ◌<◌, ◌≤◌, ◌⊎◌, [], false, length, map, IsTrue, IfOk, IfErr, ◌==◌, Contains};
ghost use Rattle.std.specs.List.{list_any};
ghost use Rattle.std.specs.Str.Lines.{lines};
ghost use Rattle.boole_table.specs.WrittenLines.{written_from};
ghost use Rattle.boole_table.specs.TableLines.{SpellBody};
ghost use Rattle.boole_table.specs.AnswerLines.{begins_answer};
ghost use Rattle.boole_table.specs.TableFaults.{line_fault, AddsNothing, BodyFails};
ghost use Rattle.boole_table.specs.Readers.{form_by, questions_of, Adds};

use crate::answer_line::answer_line;
use crate::asked::Asked;
use crate::fault::TableTextFault;
use crate::row_line::row_line;
use crate::table::{TableAnswer, TableAnswers, TableRows};
use crate::written::next_written;
use lists::Listed;
use std::alloc::Global;

/// What the rows and the answers of a text must suit.
#[derive(Clone, Copy)]
pub struct Form<'a> {
    pub asked: Asked<'a>,
    /// The number of letters.
    pub letters: usize,
    /// The number of sentences.
    pub sentences: usize,
}

/// The rows and the answers of a text.
#[derive(Drop)]
pub struct Body {
    pub rows: TableRows,
    pub answers: TableAnswers,
}

/// Reads the lines behind the physical line `before`: rows and then answers.
pub(crate) fn read_body(
    alloc: Global,
    form: Form<'_>,
    before: u32,
    text: &[u8],
) -> Result<Body, (u32, TableTextFault)>
    requires { before + length text.now < 4294967296 }
    ensures read { IfOk result (λ body. SpellBody (form_by form.entry) [] (written_from (before + 1) (lines text.now)) body.rows body.answers) }
    ensures counted { IfOk result (λ body. length body.rows ≤ length text.now) }
    ensures refused { IfErr result (λ e. (e.1 ≡ TableTextFault.Memory) ⊎ BodyFails (form_by form.entry) [] (written_from (before + 1) (lines text.now)) e.0 e.1) }
{
    let mut body = Body {
        rows: Listed::new(alloc),
        answers: Listed::new(alloc),
    };
    let mut place = before;
    let mut rest = text;
    while let Some(next) = next_written(place, rest) {
        match add_line(alloc, form, body, next.line) {
            Ok(more) => body = more,
            Err(fault) => return Err((next.place, fault)),
        }
        place = next.place;
        rest = next.rest;
    }
    Ok(body)
}

/// The rows and the answers with what the line adds.
fn add_line(alloc: Global, form: Form<'_>, body: Body, line: &[u8]) -> Result<Body, TableTextFault>
    ensures read { IfOk result (Adds (form_by form.entry) body line.now) }
    ensures refused { IfErr result (λ fault. (fault ≡ TableTextFault.Memory) ⊎ ((fault ≡ line_fault line.now) × AddsNothing (form_by form.entry) (questions_of body.answers) line.now)) }
{
    if begins_as_answer(line) {
        add_answer(form, body, line)
    } else {
        add_row(alloc, form, body, line)
    }
}

/// Whether the line begins with `answer`.
fn begins_as_answer(line: &[u8]) -> bool
    ensures { result ≡ begins_answer line.now }
{
    line.starts_with(b"answer")
}

/// Adds the answer that the line is.
fn add_answer(form: Form<'_>, body: Body, line: &[u8]) -> Result<Body, TableTextFault>
    requires { IsTrue (begins_answer line.now) }
    ensures read { IfOk result (Adds (form_by form.entry) body line.now) }
    ensures refused { IfErr result (λ fault. (fault ≡ TableTextFault.Memory) ⊎ ((fault ≡ TableTextFault.Answer) × AddsNothing (form_by form.entry) (questions_of body.answers) line.now)) }
{
    let Body { rows, mut answers } = body;
    match answer_line(form.asked, line) {
        Some(answer) => {
            if is_answered(answers.as_slice(), answer.question) {
                return Err(TableTextFault::Answer);
            }
            answers.add(answer)?;
            Ok(Body { rows, answers })
        }
        None => Err(TableTextFault::Answer),
    }
}

/// Whether one of the answers is to this question.
fn is_answered(answers: &[TableAnswer], question: u32) -> bool
    ensures { IsTrue result ↔ Contains (questions_of answers.now) question }
{
    has_answer(answers, question)
}

/// Whether one of the answers has this number.
fn has_answer(answers: &[TableAnswer], question: u32) -> bool
    ensures value { result ≡ list_any (λ answer. answer.question == question) answers.now }
{
    answers.iter().any(|answer| answer.question == question)
}

/// Adds the row that the line is.
fn add_row(alloc: Global, form: Form<'_>, body: Body, line: &[u8]) -> Result<Body, TableTextFault>
    requires { begins_answer line.now ≡ false }
    ensures read { IfOk result (Adds (form_by form.entry) body line.now) }
    ensures refused { IfErr result (λ fault. (fault ≡ TableTextFault.Memory) ⊎ ((fault ≡ TableTextFault.Row) × AddsNothing (form_by form.entry) (questions_of body.answers) line.now)) }
{
    let Body { mut rows, answers } = body;
    if answers.len() > 0 {
        return Err(TableTextFault::Row);
    }
    match row_line(alloc, form.letters, form.sentences, line)? {
        Some(row) => {
            rows.add(row)?;
            Ok(Body { rows, answers })
        }
        None => Err(TableTextFault::Row),
    }
}
