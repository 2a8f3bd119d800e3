ghost use Rattle.std.specs.Prelude.{◌≡◌, option_copied};
ghost use Rattle.std.specs.List.{list_any};
ghost use Rattle.desk_machine.specs.Allowed.{
  allowed_fault,
  allowed_grade,
  allowed_note,
  grade_code,
  list_code,
  proof_code,
  table_code,
  world_code,
};
ghost use Rattle.desk_legal.specs.Legal.{grade_may, is_job, is_job_of, same_job};
ghost use Rattle.desk_legal.specs.Prefixes.{first_bad};

use crate::exercises::lies;
use desk_forms::is_identifier;
use desk_keeper::{Grade, GradeRow, OrderRow, SubmissionRow, Tables};
use desk_machine::{is_ordered, submission_of};

/// The first grade that may not stand behind those before it, by its place from 1.
pub(crate) fn bad_grade(tables: &Tables) -> Option<u64>
    ensures value { result ≡ first_bad (grade_may tables.now) tables.now.grades }
{
    let rows = tables.grades.as_slice();
    for place in 0..rows.len() {
        if !grade_may(tables, &rows[..place], &rows[place]) {
            return Some(place as u64 + 1);
        }
    }
    None
}

fn grade_may(tables: &Tables, before: &[GradeRow], row: &GradeRow) -> bool
    ensures value { result ≡ grade_may tables.now before.now row.now }
{
    is_job(tables, row.ticket, row.version) && !is_graded(before, row) && allows_grade(&row.grade)
}

/// Whether the ticket and the version are those of a job.
fn is_job(tables: &Tables, ticket: u64, version: u32) -> bool
    ensures value { result ≡ is_job tables.now ticket version }
{
    let row = submission_of(tables.submissions.as_slice(), ticket);
    is_job_of(tables.orders.as_slice(), ticket, version, row)
}

fn is_job_of(orders: &[OrderRow], ticket: u64, version: u32, row: Option<&SubmissionRow>) -> bool
    ensures value { result ≡ is_job_of orders.now ticket version (option_copied row.entry) }
{
    match row {
        Some(row) => row.version == version || is_ordered(orders, &row.name, version, ticket),
        None => false,
    }
}

/// Whether one of these grades the same job.
fn is_graded(before: &[GradeRow], row: &GradeRow) -> bool
    ensures value { result ≡ list_any (same_job row.now) before.now }
{
    before.iter().any(|other| other.ticket == row.ticket && other.version == row.version)
}

/// Whether the code, the note and the second number fit.
fn allows_grade(grade: &Grade) -> bool
    ensures value { result ≡ allowed_grade grade.now }
{
    is_grade_code(u32::from(grade.code))
        && allows_note(grade.code, grade.note.as_slice())
        && allows_fault(grade.code, grade.b)
}

fn allows_note(code: u16, note: &[u8]) -> bool
    ensures value { result ≡ allowed_note code note.now }
{
    if code == 107 {
        is_identifier(note)
    } else {
        note.is_empty()
    }
}

fn allows_fault(code: u16, fault: u32) -> bool
    ensures value { result ≡ allowed_fault code fault }
{
    if code == 204 || code == 402 {
        lies(1, 8, fault)
    } else {
        true
    }
}

fn is_grade_code(code: u32) -> bool
    ensures value { result ≡ grade_code code }
{
    is_proof_code(code)
        || is_world_code(code)
        || is_list_code(code)
        || is_table_code(code)
        || code == 600
        || code == 900
}

fn is_proof_code(code: u32) -> bool
    ensures value { result ≡ proof_code code }
{
    code == 0 || lies(101, 107, code) || lies(110, 116, code) || lies(201, 207, code)
}

fn is_world_code(code: u32) -> bool
    ensures value { result ≡ world_code code }
{
    lies(301, 305, code) || lies(310, 313, code) || lies(320, 324, code)
}

fn is_list_code(code: u32) -> bool
    ensures value { result ≡ list_code code }
{
    lies(401, 404, code) || lies(411, 413, code)
}

fn is_table_code(code: u32) -> bool
    ensures value { result ≡ table_code code }
{
    lies(501, 505, code) || lies(511, 514, code)
}
