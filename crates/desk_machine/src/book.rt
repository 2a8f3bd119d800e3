ghost use Rattle.std.specs.Prelude.{◌≡◌, [], fold, map, IfOk};
ghost use Rattle.std.specs.List.{cons_option};
ghost use Rattle.desk_machine.specs.Books.{
  best_of,
  book_of,
  bounded_total,
  credit_now,
  credit_or_none,
  greater,
  is_own,
  line_of,
  lines_from,
  mark_of,
  plan_book,
  points_for,
  points_of,
};

use crate::exercises::latest;
use crate::grades::{credit_of, current};
use crate::reading::exercise_names;
use crate::users::{in_32_bits, is_student, is_teacher};
use crate::{Bests, Book, BookFault, BookRow, BookRows, Known};
use course_marks::course_mark;
use desk_keeper::{ExerciseRow, SubmissionRow, Tables, UserRow};
use edge_io::Bytes;
use lists::Copied;
use std::alloc::{AllocError, Global};

/// A teacher is told the book.
pub fn plan_book(
    alloc: Global,
    known: Option<Known>,
    tables: &Tables,
) -> Result<Result<Book, BookFault>, AllocError>
    ensures value { IfOk result (λ answer. answer ≡ plan_book known tables.now) }
{
    let Some(known) = known else {
        return Ok(Err(BookFault::UnknownToken));
    };
    if !is_teacher(known.role) {
        return Ok(Err(BookFault::Role));
    }
    Ok(Ok(book_of(alloc, tables)?))
}

/// The book of these tables: a line for each student, with the best credit for each exercise, and the mark.
pub fn book_of(alloc: Global, tables: &Tables) -> Result<Book, AllocError>
    ensures value { IfOk result (λ book. book ≡ book_of tables.now) }
{
    let names = exercise_names(alloc, tables.exercises.as_slice())?;
    let points = points_for(tables.exercises.as_slice(), names.as_slice());
    let students = lines(alloc, tables, names.as_slice(), points)?;
    Ok(Book { names, students })
}

/// The lines of the students.
fn lines(
    alloc: Global,
    tables: &Tables,
    names: &[Bytes],
    points: u64,
) -> Result<BookRows, AllocError>
    ensures value { IfOk result (λ lines. lines ≡ lines_from tables.now names.now points 1 tables.now.users) }
{
    let mut lines = BookRows::new(alloc);
    let users = tables.users.as_slice();
    for place in 0..users.len() {
        let user = &users[place];
        if is_student(user.role) {
            lines.add(line_of(alloc, tables, names, points, in_32_bits(place + 1), user)?)?;
        }
    }
    Ok(lines)
}

/// The student's line, of so many points.
fn line_of(
    alloc: Global,
    tables: &Tables,
    names: &[Bytes],
    points: u64,
    number: u32,
    user: &UserRow,
) -> Result<BookRow, AllocError>
    ensures value { IfOk result (λ line. line ≡ line_of tables.now names.now points number user.now) }
{
    let best = bests(alloc, tables, names, number)?;
    let mark = mark_of(best.as_slice(), points);
    Ok(BookRow {
        number,
        name: user.name.copied(alloc)?,
        best,
        mark,
    })
}

/// The student's best credit for each of the exercises.
fn bests(alloc: Global, tables: &Tables, names: &[Bytes], student: u32) -> Result<Bests, AllocError>
    ensures value { IfOk result (λ bests. bests ≡ map (best_of tables.now student) names.now) }
{
    let mut bests = Bests::new(alloc);
    for name in names {
        bests.add(best_of(tables, student, name))?;
    }
    Ok(bests)
}

/// The student's best credit for the exercise, where a submission of it is graded.
fn best_of(tables: &Tables, student: u32, name: &Bytes) -> Option<u32>
    ensures value { result ≡ best_of tables.now student name.now }
{
    let mut best = None;
    let rows = tables.submissions.as_slice();
    for place in 0..rows.len() {
        let row = &rows[place];
        if is_own(student, name, row) {
            best = greater_of(best, credit_now(tables, place as u64 + 1, row));
        }
    }
    best
}

/// The greater of the two, where there are any.
fn greater_of(best: Option<u32>, credit: Option<u32>) -> Option<u32>
    ensures value { result ≡ fold greater best (cons_option credit []) }
{
    match (best, credit) {
        (Some(best), Some(credit)) => Some(best.max(credit)),
        (best, None) => best,
        (None, credit) => credit,
    }
}

/// Whether the row is a submission of the student to the exercise.
fn is_own(student: u32, name: &Bytes, row: &SubmissionRow) -> bool
    ensures value { result ≡ is_own student name.now row.now }
{
    row.student == student && row.name == *name
}

/// What the submission earns by its current grade, where it has one.
fn credit_now(tables: &Tables, ticket: u64, row: &SubmissionRow) -> Option<u32>
    ensures value { result ≡ credit_now tables.now ticket row.now }
{
    match current(tables.grades.as_slice(), ticket) {
        Some(graded) => Some(credit_of(tables.exercises.as_slice(), row, graded)),
        None => None,
    }
}

/// The mark for these credits, of so many points.
fn mark_of(credits: &[Option<u32>], points: u64) -> u32
    ensures value { result ≡ mark_of credits.now points }
{
    course_mark(earned(credits), points)
}

/// The sum of these credits, as far as 64 bits go.
fn earned(credits: &[Option<u32>]) -> u64
    ensures value { result ≡ bounded_total (map credit_or_none credits.now) }
{
    let mut earned = 0_u64;
    for credit in credits {
        earned = earned.saturating_add(u64::from(credit.unwrap_or(0)));
    }
    earned
}

/// The points that can be earned, as far as 64 bits go.
fn points_for(rows: &[ExerciseRow], names: &[Bytes]) -> u64
    ensures value { result ≡ points_for rows.now names.now }
{
    let mut points = 0_u64;
    for name in names {
        points = points.saturating_add(u64::from(points_of(rows, name)));
    }
    points
}

/// The points of the exercise's latest version.
fn points_of(rows: &[ExerciseRow], name: &Bytes) -> u32
    ensures value { result ≡ points_of rows.now name.now }
{
    match latest(rows, name) {
        Some(row) => row.settings.points,
        None => 0,
    }
}
