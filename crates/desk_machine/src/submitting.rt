ghost use Rattle.std.specs.Prelude.{◌≡◌, IfOk, option_copied};
ghost use Rattle.desk_machine.specs.Exercises.{latest};
ghost use Rattle.desk_machine.specs.Submitting.{
  accepted,
  accepts,
  attempts_of,
  count_of,
  due_for,
  kept_under,
  plan_submit,
  repeats,
};

use crate::exercises::latest;
use crate::extending::last_extension;
use crate::plans::{appends, says};
use crate::users::is_student;
use crate::{Accepted, Known, Planned, SubmitFault};
use course_marks::{close_instant, late_days};
use desk_forms::is_key;
use desk_keeper::{ExerciseRow, ExtensionRow, Row, SubmissionRow, Tables};
use edge_io::Bytes;
use lists::Copied;
use std::alloc::{AllocError, Global};

/// The most submissions of a student.
const MOST_NUMBERS: usize = 9_999;

/// A student submits a file to the exercise of this name, at a moment in seconds since 1970. The same key with the same
/// exercise and bytes is the same submission, whatever the moment.
pub fn plan_submit(
    alloc: Global,
    known: Option<Known>,
    tables: &Tables,
    name: &Bytes,
    key: &Bytes,
    file: &Bytes,
    moment: u64,
) -> Result<Planned<Result<Accepted, SubmitFault>>, AllocError>
    ensures value { IfOk result (λ p. p ≡ plan_submit known tables.now (record { name = name.now; key = key.now; file = file.now; moment = moment })) }
{
    let Some(known) = known else {
        return Ok(says(alloc, Err(SubmitFault::UnknownToken)));
    };
    if !is_student(known.role) {
        return Ok(says(alloc, Err(SubmitFault::Role)));
    }
    let Some(version) = latest(tables.exercises.as_slice(), name) else {
        return Ok(says(alloc, Err(SubmitFault::NoExercise)));
    };
    if !is_key(key.as_slice()) {
        return Ok(says(alloc, Err(SubmitFault::BadKey)));
    }
    match kept_under(tables.submissions.as_slice(), known.number, key) {
        Some(row) => repeats(alloc, row, name, file),
        None => accepts(
            alloc,
            tables,
            version,
            known.number,
            name,
            key,
            file,
            moment,
        ),
    }
}

/// Under a key that the student has used.
fn repeats(
    alloc: Global,
    row: &SubmissionRow,
    name: &Bytes,
    file: &Bytes,
) -> Result<Planned<Result<Accepted, SubmitFault>>, AllocError>
    ensures value { IfOk result (λ p. p ≡ repeats row.now name.now file.now) }
{
    if row.name == *name && row.file == *file {
        return Ok(says(alloc, Ok(accepted(row))));
    }
    let kept = row.name.copied(alloc)?;
    Ok(says(alloc, Err(SubmitFault::KeyReused(kept, row.number))))
}

/// Under a new key.
fn accepts(
    alloc: Global,
    tables: &Tables,
    version: &ExerciseRow,
    student: u32,
    name: &Bytes,
    key: &Bytes,
    file: &Bytes,
    moment: u64,
) -> Result<Planned<Result<Accepted, SubmitFault>>, AllocError>
    ensures value { IfOk result (λ p. p ≡ accepts tables.now version.now student (record { name = name.now; key = key.now; file = file.now; moment = moment })) }
{
    let submissions = tables.submissions.as_slice();
    let due = due_for(tables.extensions.as_slice(), version, student);
    let closes = close_instant(due, version.settings.close_days);
    if moment > closes {
        return Ok(says(alloc, Err(SubmitFault::Closed(closes))));
    }
    let limit = version.settings.attempts;
    if attempts_of(submissions, student, name) >= limit as usize {
        return Ok(says(alloc, Err(SubmitFault::AttemptsUsed(limit))));
    }
    let count = count_of(submissions, student);
    if count >= MOST_NUMBERS {
        return Ok(says(alloc, Err(SubmitFault::NumbersUsed(9_999))));
    }
    let row = SubmissionRow {
        student,
        number: count as u32 + 1,
        name: name.copied(alloc)?,
        version: version.version,
        key: key.copied(alloc)?,
        file: file.copied(alloc)?,
        moment,
        late_days: late_days(due, moment),
    };
    appends(alloc, Ok(accepted(&row)), Row::Submission(row))
}

/// When the exercise is due for the student.
fn due_for(rows: &[ExtensionRow], version: &ExerciseRow, student: u32) -> u64
    ensures value { result ≡ due_for rows.now version.now student }
{
    match last_extension(rows, &version.name, student) {
        Some(row) => row.due,
        None => version.settings.due,
    }
}

/// The submission that the student has made with this key.
pub fn kept_under<'a>(
    rows: &'a [SubmissionRow],
    student: u32,
    key: &Bytes,
) -> Option<&'a SubmissionRow>
    ensures value { option_copied result ≡ kept_under rows.now student key.now }
{
    rows.iter()
        .find(|row| row.student == student && row.key == *key)
}

/// How many submissions the student has.
pub fn count_of(rows: &[SubmissionRow], student: u32) -> usize
    ensures value { result ≡ count_of rows.now student }
{
    rows.iter().filter(|row| row.student == student).count()
}

/// How many submissions the student has to the exercise.
fn attempts_of(rows: &[SubmissionRow], student: u32, name: &Bytes) -> usize
    ensures value { result ≡ attempts_of rows.now student name.now }
{
    rows.iter()
        .filter(|row| row.student == student && row.name == *name)
        .count()
}

/// What the student is told of a submission that is kept.
fn accepted(row: &SubmissionRow) -> Accepted
    ensures value { result ≡ accepted row.now }
{
    Accepted {
        number: row.number,
        late_days: row.late_days,
    }
}
