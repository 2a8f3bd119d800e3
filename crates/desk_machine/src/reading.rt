ghost use Rattle.std.specs.Prelude.{◌≡◌, IfOk, option_copied};
ghost use Rattle.desk_machine.specs.Reading.{
  exercise_names,
  one_from,
  plan_mine,
  plan_names,
  plan_one,
  plan_sheet,
  seen,
  seen_by,
  seen_from,
};

use crate::exercises::latest;
use crate::grades::{credit_of, current};
use crate::users::is_student;
use crate::{
    Known, MineFault, MineGrade, MineRow, MineRows, Names, NamesFault, OneFault, SheetFault,
};
use desk_keeper::{ExerciseRow, GradeRow, SubmissionRow, Tables};
use edge_io::Bytes;
use lists::Copied;
use std::alloc::{AllocError, Global};

/// A student is told its submissions.
pub fn plan_mine(
    alloc: Global,
    known: Option<Known>,
    tables: &Tables,
) -> Result<Result<MineRows, MineFault>, AllocError>
    ensures value { IfOk result (λ answer. answer ≡ plan_mine known tables.now) }
{
    let Some(known) = known else {
        return Ok(Err(MineFault::UnknownToken));
    };
    if !is_student(known.role) {
        return Ok(Err(MineFault::Role));
    }
    Ok(Ok(all_seen(alloc, tables, known.number)?))
}

/// A student is told its submission of this number.
pub fn plan_one(
    alloc: Global,
    known: Option<Known>,
    tables: &Tables,
    number: u32,
) -> Result<Result<MineRow, OneFault>, AllocError>
    ensures value { IfOk result (λ answer. answer ≡ plan_one known tables.now number) }
{
    let Some(known) = known else {
        return Ok(Err(OneFault::UnknownToken));
    };
    if !is_student(known.role) {
        return Ok(Err(OneFault::Role));
    }
    match one_seen(alloc, tables, known.number, number)? {
        Some(row) => Ok(Ok(row)),
        None => Ok(Err(OneFault::NoNumber)),
    }
}

/// A user is told the exercises' names.
pub fn plan_names(
    alloc: Global,
    known: Option<Known>,
    rows: &[ExerciseRow],
) -> Result<Result<Names, NamesFault>, AllocError>
    ensures value { IfOk result (λ answer. answer ≡ plan_names known rows.now) }
{
    if known.is_none() {
        return Ok(Err(NamesFault::UnknownToken));
    }
    Ok(Ok(exercise_names(alloc, rows)?))
}

/// A user is told the latest version of an exercise.
pub fn plan_sheet(
    alloc: Global,
    known: Option<Known>,
    rows: &[ExerciseRow],
    name: &Bytes,
) -> Result<Result<ExerciseRow, SheetFault>, AllocError>
    ensures value { IfOk result (λ answer. answer ≡ plan_sheet known rows.now name.now) }
{
    if known.is_none() {
        return Ok(Err(SheetFault::UnknownToken));
    }
    match latest(rows, name) {
        Some(row) => Ok(Ok(row.copied(alloc)?)),
        None => Ok(Err(SheetFault::NoExercise)),
    }
}

/// The names of the exercises, in the order in which they were first set.
pub(crate) fn exercise_names(alloc: Global, rows: &[ExerciseRow]) -> Result<Names, AllocError>
    ensures value { IfOk result (λ names. names ≡ exercise_names rows.now) }
{
    let mut names = Names::new(alloc);
    for row in rows {
        if row.version == 1 {
            names.add(row.name.copied(alloc)?)?;
        }
    }
    Ok(names)
}

fn all_seen(alloc: Global, tables: &Tables, student: u32) -> Result<MineRows, AllocError>
    ensures value { IfOk result (λ rows. rows ≡ seen_from tables.now student 1 tables.now.submissions) }
{
    let mut found = MineRows::new(alloc);
    let rows = tables.submissions.as_slice();
    for place in 0..rows.len() {
        let row = &rows[place];
        if row.student == student {
            found.add(seen(alloc, tables, place as u64 + 1, row)?)?;
        }
    }
    Ok(found)
}

fn one_seen(
    alloc: Global,
    tables: &Tables,
    student: u32,
    number: u32,
) -> Result<Option<MineRow>, AllocError>
    ensures value { IfOk result (λ row. row ≡ one_from tables.now student number 1 tables.now.submissions) }
{
    let rows = tables.submissions.as_slice();
    for place in 0..rows.len() {
        let row = &rows[place];
        if row.student == student && row.number == number {
            return Ok(Some(seen(alloc, tables, place as u64 + 1, row)?));
        }
    }
    Ok(None)
}

/// The submission with this ticket, as its student sees it.
fn seen(
    alloc: Global,
    tables: &Tables,
    ticket: u64,
    row: &SubmissionRow,
) -> Result<MineRow, AllocError>
    ensures value { IfOk result (λ told. told ≡ seen tables.now ticket row.now) }
{
    let graded = current(tables.grades.as_slice(), ticket);
    seen_by(alloc, graded, tables.exercises.as_slice(), row)
}

fn seen_by(
    alloc: Global,
    graded: Option<&GradeRow>,
    exercises: &[ExerciseRow],
    row: &SubmissionRow,
) -> Result<MineRow, AllocError>
    ensures value { IfOk result (λ told. told ≡ seen_by (option_copied graded.entry) exercises.now row.now) }
{
    let name = row.name.copied(alloc)?;
    let Some(graded) = graded else {
        return Ok(MineRow {
            number: row.number,
            name,
            version: row.version,
            late_days: row.late_days,
            graded: None,
        });
    };
    let credit = credit_of(exercises, row, graded);
    let grade = graded.grade.copied(alloc)?;
    Ok(MineRow {
        number: row.number,
        name,
        version: graded.version,
        late_days: row.late_days,
        graded: Some(MineGrade { grade, credit }),
    })
}
